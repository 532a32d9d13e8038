// A body that grows: it takes in what may merge with it by the pair rule and the triangle rule.
use crate::bodies::Bodies;
use sk_base::{Elem, NoMemory};
use sk_triangles::{is_marked, is_third, mark};
use std::alloc::Global;

/// A growing body: its key, a mark at the number of each of its elements, and the place of the first one that wasn't
/// looked at. By those before it nothing may merge with the body but by one of those behind it too.
#[derive(Drop)]
pub(crate) struct Growth {
    pub key: usize,
    place: usize,
    marks: Vec<bool>,
}

/// What may merge with it.
#[derive(Clone, Copy)]
enum Joining {
    One(usize),
    Both(usize, usize),
}

impl Growth {
    /// A body as it is.
    pub fn of(alloc: Global, bodies: &Bodies, key: usize) -> Result<Growth, NoMemory> {
        let mut growth = Growth {
            key,
            place: 0,
            marks: Vec::new(alloc),
        };
        growth.mark_all(bodies.elements(key))?;
        Ok(growth)
    }

    /// Takes in what may merge with it, until there is nothing more. The other bodies are closed.
    pub fn grow(&mut self, bodies: &mut Bodies, lines: &[bool]) -> Result<(), NoMemory> {
        for _ in 0..u64::MAX {
            let Some(elem) = bodies.elements(self.key).get(self.place) else {
                return Ok(());
            };
            match self.joining_at(bodies, lines, *elem) {
                Some(joining) => self.take_in_joining(bodies, joining)?,
                None => self.place = self.place.saturating_add(1),
            }
        }
        Ok(())
    }

    fn take_in_joining(&mut self, bodies: &mut Bodies, joining: Joining) -> Result<(), NoMemory> {
        match joining {
            Joining::One(other) => self.take_in(bodies, other),
            Joining::Both(first, second) => {
                self.take_in(bodies, first)?;
                self.take_in(bodies, second)
            }
        }
    }

    /// Takes a body in. Where that is the greater one, the growing one goes on under its key, with what it has more.
    pub fn take_in(&mut self, bodies: &mut Bodies, other: usize) -> Result<(), NoMemory> {
        self.mark_all(bodies.elements(other))?;
        let count = bodies.elements(other).len();
        if count <= bodies.elements(self.key).len() {
            return bodies.take_in(self.key, other);
        }
        bodies.take_in(other, self.key)?;
        self.key = other;
        self.place = count;
        Ok(())
    }

    fn mark_all(&mut self, elements: &[Elem]) -> Result<(), NoMemory> {
        for elem in elements {
            mark(&mut self.marks, *elem)?;
        }
        Ok(())
    }

    fn has(&self, elem: Elem) -> bool {
        is_marked(self.marks.as_slice(), elem)
    }

    /// What may merge with it by bodies that hold the element.
    fn joining_at(&self, bodies: &Bodies, lines: &[bool], elem: Elem) -> Option<Joining> {
        for key in bodies.holders(elem) {
            if *key != self.key {
                if let Some(joining) = self.joining_by(bodies, lines, elem, *key) {
                    return Some(joining);
                }
            }
        }
        None
    }

    /// What may merge with it by this body, alone or with another.
    fn joining_by(
        &self,
        bodies: &Bodies,
        lines: &[bool],
        elem: Elem,
        key: usize,
    ) -> Option<Joining> {
        if self.has_other(elem, bodies.elements(key)) {
            return Some(Joining::One(key));
        }
        let third = self.third_of(bodies, lines, elem, key)?;
        Some(Joining::Both(key, third))
    }

    /// Whether another of these elements is in it.
    fn has_other(&self, elem: Elem, elements: &[Elem]) -> bool {
        elements
            .iter()
            .any(|other| other.0 != elem.0 && self.has(*other))
    }

    /// A body that makes a triangle with it and the one of that key, which meet in a.
    fn third_of(&self, bodies: &Bodies, lines: &[bool], a: Elem, key: usize) -> Option<usize> {
        for b in bodies.elements(key) {
            if let Some(third) = self.third_at(bodies, lines, a, *b, key) {
                return Some(third);
            }
        }
        None
    }

    /// One that holds b.
    fn third_at(
        &self,
        bodies: &Bodies,
        lines: &[bool],
        a: Elem,
        b: Elem,
        key: usize,
    ) -> Option<usize> {
        if a.0 == b.0 {
            return None;
        }
        for third in bodies.holders(b) {
            if *third != key && self.meets(lines, a, b, bodies.elements(*third)) {
                return Some(*third);
            }
        }
        None
    }

    /// Whether a third corner is in it and among these elements.
    fn meets(&self, lines: &[bool], a: Elem, b: Elem, elements: &[Elem]) -> bool {
        elements
            .iter()
            .any(|c| self.has(*c) && is_third(lines, a, b, *c))
    }
}
