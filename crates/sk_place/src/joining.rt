// A step: one element is constructed, and two children are carried.
ghost use Rattle.std.specs.Prelude.{◌≡◌, IfOk};
ghost use Rattle.sk_steps.specs.Boxes.{kind_of};
ghost use Rattle.sk_steps.specs.ThirdElement.{third_element, IsConstructible};
ghost use Rattle.sk_place.specs.declared.fault.Phase.TheVariants.{Build};
ghost use Rattle.sk_place.specs.Clusters.{box_of, with_box};
ghost use Rattle.sk_place.specs.Settling.{settled_box};
ghost use Rattle.sk_place.specs.Carrying.{faulty, Answers};
ghost use Rattle.sk_place.specs.Steps.{setting, ordered, given, with_children, joined, HasCorners, HasKinds};

use crate::boxes::BoxAt;
use crate::carry::carried_child;
use crate::fault::{Phase, PlaceError, Stage, faulty};
use crate::lookup::{put, put_all};
use crate::setting::{Setting, given, ordered, setting_of};
use crate::settling::{PlaceBy, settled_box};
use sk_base::{List, Name};
use sk_interval::Grid;
use sk_steps::{BoxOf, third_element};
use sk_tree::PlanStep;
use std::alloc::Global;

/// The box of w.
fn built<G: Grid>(placing: PlaceBy, step: &PlanStep, t: &Setting<G>) -> Result<BoxOf<G>, PlaceError>
    requires corners { HasCorners t.now }
    requires constructible { IsConstructible (given step.now.choice t.now) }
    ensures value { Answers result (faulty step.now.step Build t.now.w (settled_box placing G.BITS (third_element G.BITS (given step.now.choice t.now)))) }
    ensures kind { IfOk result (λ w. kind_of w ≡ kind_of (box_of t.now.first t.now.w)) }
{
    let stage = Stage::of(step.step, Phase::Build);
    let made = third_element(&given(step.choice, t));
    faulty(stage, t.w, settled_box(placing, made))
}

/// The kept child's boxes, w's, and those of the other two children, carried.
fn with_children<G: Grid>(
    alloc: Global,
    placing: PlaceBy,
    step: Name,
    t: Setting<G>,
    w: BoxOf<G>,
) -> Result<List<BoxAt<G>>, PlaceError>
    requires corners { HasCorners t }
    requires kinds { HasKinds t w }
    ensures { Answers result (with_children placing G.BITS step t (with_box (record { elem = t.w; at = w }) t.kept)) }
{
    let (first, second) = (t.first, t.second);
    let mut now = t.kept;
    put(&mut now, BoxAt { elem: t.w, at: w })?;
    let here = now.as_slice();
    let stage = Stage::of(step, Phase::First);
    let xs = carried_child(alloc, placing, stage, t.u, t.w, first.as_slice(), here)?;
    let stage = Stage::of(step, Phase::Second);
    let ys = carried_child(alloc, placing, stage, t.v, t.w, second.as_slice(), here)?;
    put_all(&mut now, xs.as_slice())?;
    put_all(&mut now, ys.as_slice())?;
    Ok(now)
}

/// The boxes of a step, from those of its three children.
pub(crate) fn joined<G: Grid>(
    alloc: Global,
    placing: PlaceBy,
    step: &PlanStep,
    one: List<BoxAt<G>>,
    two: List<BoxAt<G>>,
    three: List<BoxAt<G>>,
) -> Result<List<BoxAt<G>>, PlaceError>
    requires corners { HasCorners (setting step.now one two three) }
    requires constructible { IsConstructible (given step.now.choice (ordered (setting step.now one two three))) }
    ensures { Answers result (joined placing G.BITS step.now one two three) }
{
    let t = ordered(setting_of(step, one, two, three));
    let w = built(placing, step, &t)?;
    with_children(alloc, placing, step.step, t, w)
}
