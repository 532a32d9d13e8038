// What is made, as it is handed on.
ghost use Rattle.std.specs.Prelude.{◌≡◌, IfOk};
ghost use Rattle.sk_base.specs.declared.Kind.{Kind};
ghost use Rattle.sk_steps.specs.Boxes.{kind_of};
ghost use Rattle.sk_place.specs.Settling.{settled_box, settled_turn};

use sk_interval::{Cause, Grid};
use sk_steps::{BoxOf, Motion, What, settle, settle_motion};

/// What the place of an element is, from one step to the next.
#[derive(Clone, Copy, PartialEq, Eq, Debug)]
pub enum PlaceBy {
    /// A box around all that the boxes before it allow.
    Boxes,
    /// A point of the grid, at which the box is settled as soon as it is made.
    Points,
}

/// The box that was made, settled where places are points.
pub(crate) fn settled_box<G: Grid>(
    placing: PlaceBy,
    made: Result<BoxOf<G>, (What, Cause)>,
) -> Result<BoxOf<G>, (What, Cause)>
    ensures value { result ≡ settled_box placing G.BITS made }
    ensures kind { (kind : Kind) → IfOk made (λ b. kind_of b ≡ kind) → IfOk result (λ b. kind_of b ≡ kind) }
{
    match placing {
        PlaceBy::Boxes => made,
        PlaceBy::Points => settle(&made?),
    }
}

/// The motion that was made, its turn settled where places are points.
pub(crate) fn settled_turn<G: Grid>(
    placing: PlaceBy,
    made: Result<Motion<G>, (What, Cause)>,
) -> Result<Motion<G>, (What, Cause)>
    ensures { result ≡ settled_turn placing G.BITS made }
{
    match placing {
        PlaceBy::Boxes => made,
        PlaceBy::Points => settle_motion(&made?),
    }
}
