// A child's further boxes, carried to where the kept child lies.
ghost use Rattle.std.specs.Prelude.{◌≡◌};
ghost use Rattle.sk_steps.specs.Motions.{motion, AreAlike};
ghost use Rattle.sk_place.specs.Clusters.{Rise, Holds, comes_first};
ghost use Rattle.sk_place.specs.Settling.{settled_turn};
ghost use Rattle.sk_place.specs.Carrying.{faulty, pair_in, carried_each, moved, carried_child, AreShared, Answers, AnswersMove};

use crate::boxes::BoxAt;
use crate::fault::{MoveError, PlaceError, Stage, box_faulty, faulty, in_step};
use crate::lookup::{besides, box_of};
use crate::settling::{PlaceBy, settled_box, settled_turn};
use sk_base::{Elem, Kind, List};
use sk_interval::Grid;
use sk_steps::{Motion, Pair, carry, motion_by};
use std::alloc::Global;

/// Whether p comes before q: a point before a line, and of one kind the lesser number first.
pub(crate) fn comes_first<G: Grid>(boxes: &[BoxAt<G>], p: Elem, q: Elem) -> bool
    requires rises { Rise boxes.now }
    requires p_held { Holds boxes.now p }
    requires q_held { Holds boxes.now q }
    ensures { result ≡ comes_first boxes.now p q }
{
    match (box_of(boxes, p).kind(), box_of(boxes, q).kind()) {
        (Kind::Point, Kind::Line) => true,
        (Kind::Line, Kind::Point) => false,
        (Kind::Point, Kind::Point) | (Kind::Line, Kind::Line) => p.0 < q.0,
    }
}

/// The boxes of two elements.
fn pair_in<G: Grid>(boxes: &[BoxAt<G>], p: Elem, q: Elem) -> Pair<G>
    requires rises { Rise boxes.now }
    requires p_held { Holds boxes.now p }
    requires q_held { Holds boxes.now q }
    ensures { result ≡ pair_in boxes.now p q }
{
    Pair {
        p: box_of(boxes, p),
        q: box_of(boxes, q),
    }
}

/// The boxes in their order, each moved.
pub(crate) fn carried_each<G: Grid>(
    alloc: Global,
    placing: PlaceBy,
    motion: &Motion<G>,
    boxes: &[BoxAt<G>],
) -> Result<List<BoxAt<G>>, MoveError>
    ensures { AnswersMove result (carried_each placing G.BITS motion.now boxes.now) }
{
    let mut carried = List::new(alloc);
    for b in boxes {
        let made = carry(motion, &b.at);
        let at = box_faulty(b.elem, settled_box(placing, made))?;
        carried.push(BoxAt { elem: b.elem, at })?;
    }
    Ok(carried)
}

/// The motion that takes p and q from where they were to where they are.
fn motion_of<G: Grid>(
    placing: PlaceBy,
    stage: Stage,
    p: Elem,
    old: &Pair<G>,
    new: &Pair<G>,
) -> Result<Motion<G>, PlaceError>
    requires { AreAlike old.now new.now }
    ensures { Answers result (faulty stage.step stage.phase p (settled_turn placing G.BITS (motion G.BITS old.now new.now))) }
{
    faulty(stage, p, settled_turn(placing, motion_by(old, new)))
}

/// Some boxes, if there are any, moved as p and q are.
fn moved<G: Grid>(
    alloc: Global,
    placing: PlaceBy,
    stage: Stage,
    old: &Pair<G>,
    new: &Pair<G>,
    p: Elem,
    boxes: &[BoxAt<G>],
) -> Result<List<BoxAt<G>>, PlaceError>
    requires { AreAlike old.now new.now }
    ensures { Answers result (moved placing G.BITS stage.step stage.phase p old.now new.now boxes.now) }
{
    if boxes.is_empty() {
        return Ok(List::new(alloc));
    }
    let motion = motion_of(placing, stage, p, old, new)?;
    in_step(stage, carried_each(alloc, placing, &motion, boxes))
}

/// The child's boxes besides those of p and q, moved as p and q are from the child to where they
/// are now.
pub(crate) fn carried_child<G: Grid>(
    alloc: Global,
    placing: PlaceBy,
    stage: Stage,
    p: Elem,
    q: Elem,
    child: &[BoxAt<G>],
    now: &[BoxAt<G>],
) -> Result<List<BoxAt<G>>, PlaceError>
    requires { AreShared p q child.now now.now }
    ensures { Answers result (carried_child placing G.BITS stage.step stage.phase p q child.now now.now) }
{
    let further = besides(alloc, child, p, q)?;
    let (p, q) = if comes_first(child, p, q) {
        (p, q)
    } else {
        (q, p)
    };
    let (old, new) = (pair_in(child, p, q), pair_in(now, p, q));
    moved(alloc, placing, stage, &old, &new, p, further.as_slice())
}
