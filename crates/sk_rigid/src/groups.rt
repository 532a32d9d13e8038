// Groups of elements.
use crate::bodies::Bodies;
use sk_base::{Elem, NoMemory};
use sk_triangles::is_marked;
use std::alloc::Global;

/// Disjoint sets of elements, as trees: at the number of an element how it stands in that of its set. The smaller tree
/// always went under the greater, so none is high.
#[derive(Drop)]
pub struct Groups {
    links: Vec<Link>,
}

#[derive(Clone, Copy)]
enum Link {
    /// Under the element of that number.
    Under(u32),
    /// The representative of so many elements.
    Top(u32),
}

impl Groups {
    /// Each element by itself.
    pub fn none(alloc: Global) -> Groups {
        Groups {
            links: Vec::new(alloc),
        }
    }

    /// The elements of each body are of one group.
    pub fn of_bodies(alloc: Global, bodies: &Bodies) -> Result<Groups, NoMemory> {
        let mut groups = Groups::none(alloc);
        for key in 0..bodies.len() {
            groups.join_all(bodies.elements(key))?;
        }
        Ok(groups)
    }

    /// Whether the two are of one group.
    pub fn joins(&self, one: Elem, other: Elem) -> bool {
        self.first(one) == self.first(other)
    }

    /// The number of the representative of the element's group.
    pub fn first(&self, elem: Elem) -> u32 {
        let mut at = elem.0;
        for _ in 0..=self.links.len() {
            match self.links.get(at as usize) {
                Some(Link::Under(above)) => at = *above,
                _ => return at,
            }
        }
        at
    }

    /// Makes one group of the elements.
    fn join_all(&mut self, elements: &[Elem]) -> Result<(), NoMemory> {
        if let [first, rest @ ..] = elements {
            for elem in rest {
                self.join(*first, *elem)?;
            }
        }
        Ok(())
    }

    /// Makes one group of the lines among the elements, and tells whether two of them were of one group before.
    pub fn join_lines(&mut self, lines: &[bool], elements: &[Elem]) -> Result<bool, NoMemory> {
        let mut were_joined = false;
        let mut first = None;
        for elem in elements {
            if is_marked(lines, *elem) {
                were_joined |= self.join_behind(first, *elem)?;
                first = first.or(Some(*elem));
            }
        }
        Ok(were_joined)
    }

    fn join_behind(&mut self, first: Option<Elem>, elem: Elem) -> Result<bool, NoMemory> {
        match first {
            Some(first) => self.join(first, elem),
            None => Ok(false),
        }
    }

    /// Makes one group of the two elements' groups, and tells whether they were one before.
    fn join(&mut self, one: Elem, other: Elem) -> Result<bool, NoMemory> {
        let first = self.first(one);
        let second = self.first(other);
        if first == second {
            return Ok(true);
        }
        let one = self.count(first);
        let other = self.count(second);
        let both = one.saturating_add(other);
        if one < other {
            self.put_under(first, second, both)?;
        } else {
            self.put_under(second, first, both)?;
        }
        Ok(false)
    }

    /// How many elements it is the representative of.
    fn count(&self, top: u32) -> u32 {
        match self.links.get(top as usize) {
            Some(Link::Top(count)) => *count,
            _ => 1,
        }
    }

    /// Puts the one representative under the other, which has so many elements then.
    fn put_under(&mut self, low: u32, top: u32, count: u32) -> Result<(), NoMemory> {
        self.set(low, Link::Under(top))?;
        self.set(top, Link::Top(count))
    }

    fn set(&mut self, at: u32, link: Link) -> Result<(), NoMemory> {
        while self.links.len() <= at as usize {
            self.links.push(Link::Top(1))?;
        }
        self.links[at as usize] = link;
        Ok(())
    }
}
