// Where the elements of a sketch come to lie.
ghost use Rattle.std.specs.Prelude.{◌≡◌};

use crate::list::List;
use crate::numbered::Elem;

/// The place of an element. A point's coordinates are in nanometres. A line is `a·x + b·y = c` with
/// `a` and `b` in parts per 10^9 and `c` in nanometres; its direction is `(b, −a)`.
#[derive(Clone, Copy, Debug, PartialEq, Eq)]
pub enum At {
    Point { x: i64, y: i64 },
    Line { a: i64, b: i64, c: i64 },
}

/// The place of the element of that number.
#[derive(Clone, Copy, Debug, PartialEq, Eq)]
pub struct Spot {
    pub elem: Elem,
    pub at: At,
}

/// The places of the elements of a sketch.
#[derive(Drop)]
pub struct Placed {
    pub spots: List<Spot>,
}

impl Placed {
    ghost use Rattle.sk_base.specs.Places.{place_of};

    /// Where the element of that number lies, if it is placed.
    pub fn at(&self, e: Elem) -> Option<At>
        ensures { result ≡ place_of self.now e }
    {
        let spot = self
            .spots
            .as_slice()
            .iter()
            .find(|spot| spot.elem.0 == e.0)?;
        Some(spot.at)
    }
}
