// How what has a tolerance is named.
ghost use Rattle.std.specs.Prelude.{◌≡◌};
ghost use Rattle.sk_tolerance.specs.First.{earlier};
ghost use Rattle.sk_tolerance.specs.Tolerances.{number_in};

use sk_base::{ConId, Elem};

/// What has a tolerance of its own: a constraint, or a line by its normal.
#[derive(Clone, Copy, Debug, PartialEq, Eq)]
pub enum Spotted {
    Con(ConId),
    Line(Elem),
}

impl Spotted {
    /// The number of the constraint or of the line.
    pub fn number(self) -> u32
        ensures { result ≡ number_in self }
    {
        match self {
            Spotted::Con(k) => k.0,
            Spotted::Line(e) => e.0,
        }
    }
}

/// What is named by a constraint or a line.
pub trait Named: Copy {
    ghost use Rattle.sk_tolerance.specs.declared.spotted.Spotted.{Spotted};

    ghost spot: { Self → Spotted };

    fn spot(self) -> Spotted
        ensures { result ≡ spot self };
}

impl Named for Spotted {
    ghost spot = { λ at. at };

    fn spot(self) -> Spotted {
        self
    }
}

/// The one of two with the smaller number.
pub fn earlier<T: Named>(one: Option<T>, other: Option<T>) -> Option<T>
    ensures { result ≡ earlier (λ x. number_in (T.spot x)) one other }
{
    match (one, other) {
        (None, _) => other,
        (_, None) => one,
        (Some(x), Some(y)) => {
            if x.spot().number() < y.spot().number() {
                one
            } else {
                other
            }
        }
    }
}
