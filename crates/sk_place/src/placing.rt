// The steps of a plan, one after another.
ghost use Rattle.std.specs.Prelude.{ℕ, ◌≡◌, ◌≢◌, length, IfOk};
ghost use Rattle.sk_base.specs.SoundGraph.{IsSoundGraph};
ghost use Rattle.sk_tree.specs.LegalPlan.{IsLegalPlan};
ghost use Rattle.sk_place.specs.Clusters.{nodes_of};
ghost use Rattle.sk_place.specs.Placing.{lone_box, lone_boxes, IsPlaced};
ghost use Rattle.sk_place.specs.Nesting.{IsKept};
ghost use Rattle.sk_place.specs.Running.{held, CanJoin, IsStepOf, IsRun};
ghost use Rattle.sk_base.specs.declared.Name.{Name as OfName};

use crate::boxes::{BoxAt, Boxes};
use crate::fault::PlaceError;
use crate::joining::joined;
use crate::live::{Live, taken};
use crate::settling::PlaceBy;
use sk_base::{Graph, Kind, List, NoMemory};
use sk_interval::{Grid, Iv};
use sk_steps::BoxOf;
use sk_tree::{Plan, PlanStep, last_name};
use std::alloc::Global;

/// The boxes that the step makes of its three children, which are no longer live.
fn stepped<G: Grid>(
    alloc: Global,
    placing: PlaceBy,
    g: &Graph,
    live: &mut Live<G>,
    step: &PlanStep,
) -> Result<List<BoxAt<G>>, PlaceError>
    requires sound { IsSoundGraph g.now }
    requires possible { CanJoin G.BITS g.now live.old step.now }
    ensures value { IsStepOf placing G.BITS g.now live.old step.now result }
    ensures slots { IfOk result (λ bs. length live.new ≡ length live.old) }
    ensures others { IfOk result (λ bs. (n : OfName) → n ≢ step.now.one → n ≢ step.now.two → n ≢ step.now.three → held G.BITS g.now live.new n ≡ held G.BITS g.now live.old n) }
{
    let one = taken(alloc, g, live, step.one)?;
    let two = taken(alloc, g, live, step.two)?;
    let three = taken(alloc, g, live, step.three)?;
    joined(alloc, placing, step, one, two, three)
}

/// The boxes of the clusters that are live after all steps.
fn run<G: Grid>(
    alloc: Global,
    placing: PlaceBy,
    plan: &Plan,
    g: &Graph,
) -> Result<Live<G>, PlaceError>
    requires sound { IsSoundGraph g.now }
    requires legal { IsLegalPlan g.now plan.now }
    ensures { IsRun placing G.BITS g.now plan.now result }
{
    let mut live = Live::new(alloc)?;
    for step in plan.steps.as_slice() {
        let boxes = stepped(alloc, placing, g, &mut live, step)?;
        live.push(boxes)?;
    }
    Ok(live)
}

/// The box of an element alone.
fn lone_box<G: Grid>(kind: Kind) -> BoxOf<G>
    ensures { result ≡ lone_box G.BITS kind }
{
    let (zero, one) = (Iv::whole(0), Iv::whole(1));
    match kind {
        Kind::Point => BoxOf::Point { x: zero, y: zero },
        Kind::Line => BoxOf::Line {
            a: zero,
            b: one,
            c: zero,
        },
    }
}

/// The boxes of elements that no constraint joins.
fn lone_boxes<G: Grid>(alloc: Global, g: &Graph) -> Result<List<BoxAt<G>>, NoMemory>
    ensures { IfOk result (λ bs. bs ≡ lone_boxes G.BITS g.now) }
{
    let mut boxes = List::new(alloc);
    for node in g.nodes.as_slice() {
        boxes.push(BoxAt {
            elem: node.elem,
            at: lone_box(node.kind),
        })?;
    }
    Ok(boxes)
}

/// Where the plan places the elements of its graph: the boxes of its tree, or the tree's first fault.
pub fn place<G: Grid>(
    alloc: Global,
    placing: PlaceBy,
    plan: &Plan,
    g: &Graph,
) -> Result<Boxes<G>, PlaceError>
    requires sound { IsSoundGraph g.now }
    requires legal { IsLegalPlan g.now plan.now }
    ensures placed { IsPlaced placing G.BITS g.now plan.now result }
    ensures nodes { IfOk result (λ bs. nodes_of bs ≡ g.now.nodes) }
    ensures nested { placing ≡ PlaceBy.Boxes → (k : ℕ) → IsKept G.BITS k g.now plan.now result }
{
    match last_name(plan) {
        None => Ok(Boxes::of(lone_boxes(alloc, g)?)),
        Some(name) => {
            let mut live = run(alloc, placing, plan, g)?;
            Ok(Boxes::of(taken(alloc, g, &mut live, name)?))
        }
    }
}
