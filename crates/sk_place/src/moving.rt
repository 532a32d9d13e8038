// All boxes, carried by one motion.
ghost use Rattle.std.specs.Prelude.{◌≡◌, ◌+◌, ℕ, IfOk, List as Items};
ghost use Rattle.sk_steps.specs.declared.Motion.{Motion as MotionOf};
ghost use Rattle.sk_steps.specs.MotionNesting.{IsMotionInside};
ghost use Rattle.sk_place.specs.declared.boxes.BoxAt.{BoxAt as BoxOfElement};
ghost use Rattle.sk_place.specs.Clusters.{nodes_of};
ghost use Rattle.sk_place.specs.Carrying.{carried_each, AnswersMove, FailsByRange};
ghost use Rattle.sk_place.specs.Nesting.{AreInside, KeepsMoved};

use crate::boxes::Boxes;
use crate::carry::carried_each;
use crate::fault::MoveError;
use crate::settling::PlaceBy;
use sk_interval::Grid;
use sk_steps::Motion;
use std::alloc::Global;

/// Each box, carried by the motion, or the fault of the first that has one.
pub fn moved<G: Grid>(
    alloc: Global,
    placing: PlaceBy,
    motion: &Motion<G>,
    boxes: &Boxes<G>,
) -> Result<Boxes<G>, MoveError>
    ensures moved { AnswersMove result (carried_each placing G.BITS motion.now boxes.now) }
    ensures nodes { IfOk result (λ bs. nodes_of bs ≡ nodes_of boxes.now) }
    ensures range { placing ≡ PlaceBy.Boxes → FailsByRange result }
    ensures nested { placing ≡ PlaceBy.Boxes → (k : ℕ) (fine : MotionOf G) (inside : Items (BoxOfElement G)) → IsMotionInside k fine motion.now → AreInside k inside boxes.now → KeepsMoved k (carried_each PlaceBy.Boxes (G.BITS + k) fine inside) result }
{
    all_moved(alloc, placing, motion, boxes)
}

/// Each box, carried by the motion.
fn all_moved<G: Grid>(
    alloc: Global,
    placing: PlaceBy,
    motion: &Motion<G>,
    boxes: &Boxes<G>,
) -> Result<Boxes<G>, MoveError>
    ensures { AnswersMove result (carried_each placing G.BITS motion.now boxes.now) }
{
    let list = carried_each(alloc, placing, motion, boxes.as_slice())?;
    Ok(Boxes::of(list))
}
