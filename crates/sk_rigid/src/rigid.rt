// What is rigid as constraints come: bodies that are kept closed by the merging rules.
use crate::bodies::Bodies;
use crate::groups::Groups;
use crate::growth::Growth;
use sk_base::{Elem, NoMemory};
use sk_triangles::is_marked;
use std::alloc::Global;

/// Bodies where neither the pair rule nor the triangle rule holds and, where angles are followed, the tie rule doesn't either.
#[derive(Drop)]
pub struct Rigid {
    alloc: Global,
    bodies: Bodies,
    /// A mark at the number of each line.
    lines: Vec<bool>,
    /// The classes of tied lines.
    classes: Groups,
    follows_angles: bool,
}

impl Rigid {
    /// No body. The lines are marked.
    pub fn new(alloc: Global, lines: &[bool]) -> Result<Rigid, NoMemory> {
        Ok(Rigid {
            alloc,
            bodies: Bodies::none(alloc),
            lines: Vec::from_slice(alloc, lines)?,
            classes: Groups::none(alloc),
            follows_angles: false,
        })
    }

    /// Its bodies.
    pub fn bodies(&self) -> &Bodies {
        &self.bodies
    }

    /// Puts a body in that neither the pair rule nor the triangle rule merges with those that there are.
    pub fn put(&mut self, elements: &[Elem]) -> Result<(), NoMemory> {
        let key = self.bodies.add(elements)?;
        self.tie_lines_of(key)
    }

    /// From now on the tie rule is kept too.
    pub fn follow_angles(&mut self) -> Result<(), NoMemory> {
        self.follows_angles = true;
        self.close_by_ties()
    }

    /// Takes in a constraint between the two, and merges what may be merged then.
    pub fn add(&mut self, u: Elem, v: Elem) -> Result<(), NoMemory> {
        let key = self.bodies.add(&[u, v])?;
        let mut growth = Growth::of(self.alloc, &self.bodies, key)?;
        self.grow(&mut growth)?;
        if self.follows_angles && self.class_of(growth.key).is_some() {
            self.close_by_ties()?;
        }
        Ok(())
    }

    /// Whether a body holds both, or they are tied lines: a constraint of the two tells nothing new.
    pub fn tells(&self, u: Elem, v: Elem) -> bool {
        self.holds_both(u, v) || (self.is_line(u) && self.is_line(v) && self.classes.joins(u, v))
    }

    fn holds_both(&self, u: Elem, v: Elem) -> bool {
        for key in self.bodies.holders(u) {
            if self.bodies.holds(*key, v) {
                return true;
            }
        }
        false
    }

    fn is_line(&self, elem: Elem) -> bool {
        is_marked(self.lines.as_slice(), elem)
    }

    /// Lets the body take in what it may by the first two rules.
    fn grow(&mut self, growth: &mut Growth) -> Result<(), NoMemory> {
        growth.grow(&mut self.bodies, self.lines.as_slice())?;
        self.tie_lines_of(growth.key)
    }

    fn tie_lines_of(&mut self, key: usize) -> Result<(), NoMemory> {
        let elements = self.bodies.elements(key);
        self.classes.join_lines(self.lines.as_slice(), elements)?;
        Ok(())
    }

    /// Merges by the tie rule, as long as it holds.
    fn close_by_ties(&mut self) -> Result<(), NoMemory> {
        for _ in 0..u64::MAX {
            match self.tied_pair()? {
                Some((one, other)) => self.merge(one, other)?,
                None => return Ok(()),
            }
        }
        Ok(())
    }

    /// Merges the two, and what may merge with them.
    fn merge(&mut self, one: usize, other: usize) -> Result<(), NoMemory> {
        let mut growth = Growth::of(self.alloc, &self.bodies, one)?;
        growth.take_in(&mut self.bodies, other)?;
        self.grow(&mut growth)
    }

    /// Two bodies that share a point and have tied lines, if there are two.
    fn tied_pair(&self) -> Result<Option<(usize, usize)>, NoMemory> {
        let classes = self.classes_by_key()?;
        let mut sights = Sights::none(self.alloc);
        for (point, keys) in self.bodies.all_holders().iter().enumerate() {
            if self.lines.get(point) != Some(&true) {
                if let Some(pair) = sights.pair_at(point, keys.as_slice(), classes.as_slice())? {
                    return Ok(Some(pair));
                }
            }
        }
        Ok(None)
    }

    fn classes_by_key(&self) -> Result<Vec<Option<u32>>, NoMemory> {
        let mut classes = Vec::new(self.alloc);
        for key in 0..self.bodies.len() {
            classes.push(self.class_of(key))?;
        }
        Ok(classes)
    }

    /// The class of the body's lines, if it has one.
    fn class_of(&self, key: usize) -> Option<u32> {
        for elem in self.bodies.elements(key) {
            if self.is_line(*elem) {
                return Some(self.classes.first(*elem));
            }
        }
        None
    }
}

/// A body of some class was seen at a point.
#[derive(Clone, Copy)]
struct Sight {
    point: usize,
    key: usize,
}

/// By number of a class the last body that was seen of it.
#[derive(Drop)]
struct Sights {
    last: Vec<Option<Sight>>,
}

impl Sights {
    fn none(alloc: Global) -> Sights {
        Sights {
            last: Vec::new(alloc),
        }
    }

    /// Two of the bodies, which hold the point, that are of one class.
    fn pair_at(
        &mut self,
        point: usize,
        keys: &[usize],
        classes: &[Option<u32>],
    ) -> Result<Option<(usize, usize)>, NoMemory> {
        for key in keys {
            if let Some(Some(class)) = classes.get(*key) {
                match self.last.get(*class as usize) {
                    Some(Some(sight)) if sight.point == point => {
                        return Ok(Some((sight.key, *key)));
                    }
                    _ => self.see(*class as usize, Sight { point, key: *key })?,
                }
            }
        }
        Ok(None)
    }

    fn see(&mut self, class: usize, sight: Sight) -> Result<(), NoMemory> {
        while self.last.len() <= class {
            self.last.push(None)?;
        }
        self.last[class] = Some(sight);
        Ok(())
    }
}
