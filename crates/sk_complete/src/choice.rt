// The best element of the base for a constraint with one outside it. Those that came last are looked at first: mostly they
// are near, and what is further needs no root.
ghost use Rattle.std.specs.Prelude.{IfSome};
ghost use Rattle.sk_base.specs.SoundSketch.{IsSoundSketch, IsSoundShape};

use sk_base::{Elem, Shape, Sketch};
use sk_drawn::{drawn_size, firm_between, reach_of, shape_in};
use sk_rigid::Rigid;

/// An element of the base, with what it lacks to the highest grade and how far it is drawn from the one outside: the
/// least is the best.
#[derive(Clone, Copy, PartialEq, Eq, PartialOrd, Ord)]
pub(crate) struct Choice {
    lack: u128,
    size: u64,
    pub elem: Elem,
}

/// The best choices of those that hold firmly, of the thin ones and of the flat ones.
#[derive(Clone, Copy)]
pub(crate) struct Choices {
    pub firm: Option<Choice>,
    pub thin: Option<Choice>,
    pub flat: Option<Choice>,
}

/// An element as it is drawn.
#[derive(Clone, Copy)]
struct Drawn {
    elem: Elem,
    shape: Shape,
}

impl Drawn {
    fn of(s: &Sketch, elem: Elem) -> Option<Drawn>
        requires { IsSoundSketch s.now }
        ensures { IfSome result (λ found. IsSoundShape found.shape) }
    {
        match shape_in(s, elem) {
            Some(shape) => Some(Drawn { elem, shape }),
            None => None,
        }
    }
}

impl Choices {
    pub fn none() -> Choices {
        Choices {
            firm: None,
            thin: None,
            flat: None,
        }
    }

    /// Whether something tells one of the choices for u by now.
    pub fn is_told(&self, wide: &Rigid, u: Elem) -> bool {
        is_told(wide, u, self.firm) || is_told(wide, u, self.thin) || is_told(wide, u, self.flat)
    }

    /// Looks through elements of the base for u, an element of a part that shares w with the base, but for what is told.
    pub fn look_through(&mut self, s: &Sketch, wide: &Rigid, w: Elem, u: Elem, base: &[Elem])
        requires { IsSoundSketch s.now }
    {
        if let Some(shared) = Drawn::of(s, w) {
            if let Some(outer) = Drawn::of(s, u) {
                self.look_at_all(s, wide, &shared, &outer, base);
            }
        }
    }

    fn look_at_all(&mut self, s: &Sketch, wide: &Rigid, w: &Drawn, u: &Drawn, base: &[Elem])
        requires sound { IsSoundSketch s.now }
        requires w { IsSoundShape w.now.shape }
        requires u { IsSoundShape u.now.shape }
    {
        for elem in base.iter().rev() {
            if !wide.tells(u.elem, *elem) {
                if let Some(v) = Drawn::of(s, *elem) {
                    self.look_at(w, u, &v);
                }
            }
        }
    }

    /// Takes v where it is better than what was found so far. Beside a firm one, only a firm one is looked for.
    fn look_at(&mut self, w: &Drawn, u: &Drawn, v: &Drawn)
        requires w { IsSoundShape w.now.shape }
        requires u { IsSoundShape u.now.shape }
        requires v { IsSoundShape v.now.shape }
    {
        let reach = reach_of(&u.shape, &v.shape);
        if is_too_far(self.firm, reach) {
            return;
        }
        let firm = firm_between(&w.shape, &u.shape, &v.shape);
        let grade = firm.grade();
        let lack = 16u128.saturating_sub(grade);
        if grade > 0 {
            self.firm = better(self.firm, lack, reach, u, v);
        } else if firm.is_flat() {
            self.flat = better(self.flat, lack, reach, u, v);
        } else {
            self.thin = better(self.thin, lack, reach, u, v);
        }
    }
}

fn is_told(wide: &Rigid, u: Elem, choice: Option<Choice>) -> bool {
    match choice {
        Some(choice) => wide.tells(u, choice.elem),
        None => false,
    }
}

/// The nearest element of the base for a link of u, which no part joins to it, but for what is told.
pub(crate) fn link_of(s: &Sketch, wide: &Rigid, u: Elem, base: &[Elem]) -> Option<Choice>
    requires { IsSoundSketch s.now }
{
    let outer = Drawn::of(s, u)?;
    let mut best = None;
    for elem in base.iter().rev() {
        if !wide.tells(u, *elem) {
            if let Some(v) = Drawn::of(s, *elem) {
                let reach = reach_of(&outer.shape, &v.shape);
                best = better(best, 0, reach, &outer, &v);
            }
        }
    }
    best
}

/// The better one of the best so far and v, which lacks so much, and whose square of the distance from u is this.
fn better(best: Option<Choice>, lack: u128, reach: u128, u: &Drawn, v: &Drawn) -> Option<Choice>
    requires u { IsSoundShape u.now.shape }
    requires v { IsSoundShape v.now.shape }
{
    if is_beyond(best, lack, reach) {
        return best;
    }
    match drawn_size(u.shape, v.shape) {
        Some(size) => lesser(
            best,
            Choice {
                lack,
                size,
                elem: v.elem,
            },
        ),
        None => best,
    }
}

/// Whether what lacks so much, or is drawn so far, is no better than the best so far.
fn is_beyond(best: Option<Choice>, lack: u128, reach: u128) -> bool {
    match best {
        Some(choice) => choice.lack < lack || (choice.lack == lack && is_further(choice, reach)),
        None => false,
    }
}

/// Whether what is drawn so far is no better than the best so far, whatever it lacks. Only an angle of two lines, which is
/// never far, lacks less than 1.
fn is_too_far(best: Option<Choice>, reach: u128) -> bool {
    match best {
        Some(choice) => choice.lack <= 1 && is_further(choice, reach),
        None => false,
    }
}

/// Whether what is drawn so far is further than the choice. What is further than n and a half has a square above n(n + 1).
fn is_further(choice: Choice, reach: u128) -> bool {
    let size = u128::from(choice.size);
    size.saturating_mul(size.saturating_add(1)) < reach
}

/// The lesser one of the two.
fn lesser(best: Option<Choice>, choice: Choice) -> Option<Choice> {
    match best {
        Some(other) if other <= choice => Some(other),
        _ => Some(choice),
    }
}
