// Rigid bodies, and which of them hold an element.
use sk_base::{Elem, NoMemory};
use std::alloc::Global;
use std::mem;

/// Bodies under keys, and by number of an element the keys of those that hold it.
#[derive(Drop)]
pub struct Bodies {
    alloc: Global,
    /// The elements of each, in the order in which they came; none where it went into another.
    bodies: Vec<Vec<Elem>>,
    holders: Vec<Vec<usize>>,
}

impl Bodies {
    pub(crate) fn none(alloc: Global) -> Bodies {
        Bodies {
            alloc,
            bodies: Vec::new(alloc),
            holders: Vec::new(alloc),
        }
    }

    /// How many keys there are.
    pub fn len(&self) -> usize {
        self.bodies.len()
    }

    /// The elements of the body, those that came first in front.
    pub fn elements(&self, key: usize) -> &[Elem] {
        match self.bodies.as_slice().get(key) {
            Some(elements) => elements.as_slice(),
            None => &[],
        }
    }

    /// The keys of the bodies that hold the element.
    pub fn holders(&self, elem: Elem) -> &[usize] {
        match self.holders.as_slice().get(elem.0 as usize) {
            Some(keys) => keys.as_slice(),
            None => &[],
        }
    }

    /// By number of an element those keys.
    pub(crate) fn all_holders(&self) -> &[Vec<usize>] {
        self.holders.as_slice()
    }

    /// Whether the body holds the element.
    pub fn holds(&self, key: usize, elem: Elem) -> bool {
        let keys = self.holders(elem);
        let elements = self.elements(key);
        if keys.len() < elements.len() {
            keys.iter().any(|other| *other == key)
        } else {
            elem.is_among(elements)
        }
    }

    /// One body more, and its key.
    pub(crate) fn add(&mut self, elements: &[Elem]) -> Result<usize, NoMemory> {
        let key = self.bodies.len();
        self.bodies.push(Vec::new(self.alloc))?;
        self.put_all(key, elements)?;
        Ok(key)
    }

    /// Makes one body of the two, under the first key.
    pub(crate) fn take_in(&mut self, key: usize, other: usize) -> Result<(), NoMemory> {
        let elements = self.emptied(other);
        for elem in elements.as_slice() {
            self.leave(other, *elem);
        }
        self.put_all(key, elements.as_slice())
    }

    /// Puts those of the elements into the body that it doesn't hold.
    fn put_all(&mut self, key: usize, elements: &[Elem]) -> Result<(), NoMemory> {
        for elem in elements {
            if !self.holds(key, *elem) {
                self.put(key, *elem)?;
            }
        }
        Ok(())
    }

    fn put(&mut self, key: usize, elem: Elem) -> Result<(), NoMemory> {
        let at = elem.0 as usize;
        while self.holders.len() <= at {
            self.holders.push(Vec::new(self.alloc))?;
        }
        self.holders[at].push(key)?;
        if let Some(elements) = self.bodies.get_mut(key) {
            elements.push(elem)?;
        }
        Ok(())
    }

    /// Takes all elements out of the body.
    fn emptied(&mut self, key: usize) -> Vec<Elem> {
        match self.bodies.get_mut(key) {
            Some(elements) => mem::replace(elements, Vec::new(self.alloc)),
            None => Vec::new(self.alloc),
        }
    }

    /// The body doesn't hold the element any more.
    fn leave(&mut self, key: usize, elem: Elem) {
        if let Some(keys) = self.holders.get_mut(elem.0 as usize) {
            keys.retain(|other| *other != key);
        }
    }
}
