// Between which two elements the next constraint is.
ghost use Rattle.sk_base.specs.SoundSketch.{IsSoundSketch};

use crate::choice::{Choice, Choices, link_of};
use crate::hinges::{hinge_at, hinges_of};
use sk_base::{Elem, NoMemory, Sketch};
use sk_rigid::{Bodies, Groups, Rigid};
use sk_triangles::{is_marked, mark};
use std::alloc::Global;

/// An element outside the base, and one of the base.
#[derive(Clone, Copy)]
pub(crate) struct Pair {
    pub outer: Elem,
    pub inner: Elem,
}

/// What was seen of an element beside a hinge: how many elements of the base were looked at, and the best of them, none of
/// which holds firmly.
#[derive(Clone, Copy)]
struct Seen {
    shared: Elem,
    count: usize,
    choices: Choices,
}

/// The base, with its elements in the order in which they came, a mark at the number of each, and what was seen of other
/// elements, by their numbers.
#[derive(Drop)]
pub(crate) struct Base {
    elements: Vec<Elem>,
    marks: Vec<bool>,
    seen: Vec<Seen>,
}

/// The first pairs that hinged elements have: a firm one, a thin one, a flat one.
#[derive(Clone, Copy)]
struct Hinged {
    firm: Option<Pair>,
    thin: Option<Pair>,
    flat: Option<Pair>,
}

impl Base {
    pub fn new(alloc: Global) -> Base {
        Base {
            elements: Vec::new(alloc),
            marks: Vec::new(alloc),
            seen: Vec::new(alloc),
        }
    }

    /// Takes in the body that its elements have become part of, if there is one.
    pub fn take_in_part(&mut self, bodies: &Bodies) -> Result<(), NoMemory> {
        match self.part(bodies) {
            Some(key) => self.take_in(bodies.elements(key)),
            None => Ok(()),
        }
    }

    /// The key of the body that has the first two of its elements. No other has both.
    fn part(&self, bodies: &Bodies) -> Option<usize> {
        let first = self.elements.first()?;
        for key in bodies.holders(*first) {
            if self
                .elements
                .get(1)
                .is_none_or(|second| bodies.holds(*key, *second))
            {
                return Some(*key);
            }
        }
        None
    }

    /// Takes in those of the elements that it doesn't have.
    pub fn take_in(&mut self, elements: &[Elem]) -> Result<(), NoMemory> {
        for elem in elements {
            if !is_marked(self.marks.as_slice(), *elem) {
                mark(&mut self.marks, *elem)?;
                self.elements.push(*elem)?;
            }
        }
        Ok(())
    }

    /// The next pair, if there is one: an element of a part that shares one element with the base, where a constraint holds
    /// it firmly; else one that no chain of parts joins to the base; else one that is held thinly; else one that a chain of
    /// parts joins; else one that is held flatly. No pair is told by the wide bodies.
    pub fn next_pair(
        &mut self,
        alloc: Global,
        s: &Sketch,
        bodies: &Bodies,
        wide: &Rigid,
    ) -> Result<Option<Pair>, NoMemory>
        requires { IsSoundSketch s.now }
    {
        let hinges = hinges_of(alloc, bodies, self.marks.as_slice())?;
        let hinged = self.first_hinged(s, bodies, wide, hinges.as_slice())?;
        if hinged.firm.is_some() {
            return Ok(hinged.firm);
        }
        let known = self.known(alloc, s, bodies, hinges.as_slice())?;
        let chains = Groups::of_bodies(alloc, bodies)?;
        let base = self.elements.as_slice();
        let far = first_link(s, wide, &chains, known.as_slice(), base, false);
        let best = far.or(hinged.thin);
        if best.is_some() {
            return Ok(best);
        }
        let near = first_link(s, wide, &chains, known.as_slice(), base, true);
        Ok(near.or(hinged.flat))
    }

    /// The first pairs of hinged elements, up to a firm one.
    fn first_hinged(
        &mut self,
        s: &Sketch,
        bodies: &Bodies,
        wide: &Rigid,
        hinges: &[Option<Elem>],
    ) -> Result<Hinged, NoMemory>
        requires { IsSoundSketch s.now }
    {
        let mut found = Hinged {
            firm: None,
            thin: None,
            flat: None,
        };
        for element in s.elements.as_slice() {
            let outer = element.number;
            if let Some(shared) = self.hinge(bodies, hinges, outer) {
                let choices = self.choices_at(s, wide, outer, shared)?;
                found = found_with(found, outer, choices);
                if found.firm.is_some() {
                    return Ok(found);
                }
            }
        }
        Ok(found)
    }

    /// The element at which this one, outside the base, is hinged, if it is.
    fn hinge(&self, bodies: &Bodies, hinges: &[Option<Elem>], outer: Elem) -> Option<Elem> {
        if is_marked(self.marks.as_slice(), outer) {
            None
        } else {
            hinge_at(bodies, hinges, outer)
        }
    }

    /// A mark at the number of each element that is in the base or hinged.
    fn known(
        &self,
        alloc: Global,
        s: &Sketch,
        bodies: &Bodies,
        hinges: &[Option<Elem>],
    ) -> Result<Vec<bool>, NoMemory> {
        let mut known = Vec::from_slice(alloc, self.marks.as_slice())?;
        for element in s.elements.as_slice() {
            if self.hinge(bodies, hinges, element.number).is_some() {
                mark(&mut known, element.number)?;
            }
        }
        Ok(known)
    }

    /// The best choices for the hinged element, where only what wasn't seen yet is looked at.
    fn choices_at(
        &mut self,
        s: &Sketch,
        wide: &Rigid,
        outer: Elem,
        shared: Elem,
    ) -> Result<Choices, NoMemory>
        requires { IsSoundSketch s.now }
    {
        let seen = self.seen_at(wide, outer, shared);
        let mut choices = seen.choices;
        if let Some(others) = self.elements.as_slice().get(seen.count..) {
            choices.look_through(s, wide, shared, outer, others);
        }
        let count = self.elements.len();
        self.see(
            outer,
            Seen {
                shared,
                count,
                choices,
            },
        )?;
        Ok(choices)
    }

    /// What was seen of the element beside this hinge, as long as none of its choices is told.
    fn seen_at(&self, wide: &Rigid, outer: Elem, shared: Elem) -> Seen {
        match self.seen.get(outer.0 as usize) {
            Some(seen) if seen.shared == shared && !seen.choices.is_told(wide, outer) => *seen,
            _ => unseen(shared),
        }
    }

    /// Keeps what was seen of the element.
    fn see(&mut self, outer: Elem, seen: Seen) -> Result<(), NoMemory> {
        let at = outer.0 as usize;
        while self.seen.len() <= at {
            self.seen.push(unseen(Elem(0)))?;
        }
        self.seen[at] = seen;
        Ok(())
    }
}

fn unseen(shared: Elem) -> Seen {
    Seen {
        shared,
        count: 0,
        choices: Choices::none(),
    }
}

/// What was found before, and what these choices have.
fn found_with(found: Hinged, outer: Elem, choices: Choices) -> Hinged {
    Hinged {
        firm: pair_of(outer, choices.firm),
        thin: found.thin.or(pair_of(outer, choices.thin)),
        flat: found.flat.or(pair_of(outer, choices.flat)),
    }
}

fn pair_of(outer: Elem, choice: Option<Choice>) -> Option<Pair> {
    match choice {
        Some(choice) => Some(Pair {
            outer,
            inner: choice.elem,
        }),
        None => None,
    }
}

/// The first link of the elements that aren't known, of those that chains of parts join to the base, or of those that
/// none does.
fn first_link(
    s: &Sketch,
    wide: &Rigid,
    chains: &Groups,
    known: &[bool],
    base: &[Elem],
    is_near: bool,
) -> Option<Pair>
    requires { IsSoundSketch s.now }
{
    let first = base.first()?;
    for element in s.elements.as_slice() {
        let outer = element.number;
        if !is_marked(known, outer) && chains.joins(outer, *first) == is_near {
            if let Some(choice) = link_of(s, wide, outer, base) {
                return Some(Pair {
                    outer,
                    inner: choice.elem,
                });
            }
        }
    }
    None
}
