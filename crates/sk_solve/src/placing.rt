// A plan on a grid.
ghost use Rattle.std.specs.Prelude.{◌≡◌, IfOk, Ok};
ghost use Rattle.sk_base.specs.SoundGraph.{IsSoundGraph};
ghost use Rattle.sk_base.specs.SoundSketch.{IsSoundSketch};
ghost use Rattle.sk_graph.specs.SketchGraph.{graph_of};
ghost use Rattle.sk_tree.specs.LegalPlan.{IsLegalPlan};
ghost use Rattle.sk_place.specs.declared.BoxFault.{BoxFault as FaultOfBox};
ghost use Rattle.sk_place.specs.Clusters.{nodes_of};
ghost use Rattle.sk_place.specs.Placing.{IsPlaced};
ghost use Rattle.sk_measure.specs.Placing.{PlacesExactly};
ghost use Rattle.sk_solve.specs.Placements.{AnswersCarried, IsMeasured, IsPlacement, LiesWithinBounds};

use sk_base::{Graph, NoMemory, Placed, Sketch};
use sk_frame::{frame_motion, frame_of};
use sk_interval::Grid;
use sk_place::{
    BoxFault, Boxes, FrameBy, Layout, MoveError, PlaceError, StepFault, moved, place, round,
};
use sk_tolerance::{Beyond, Tolerance, Turned, Wanted, first_unlike, least, passed};
use sk_tree::Plan;
use std::alloc::Global;

/// How a plan is placed: what fails first, or else where the elements lie and within which tolerance
/// all holds.
#[derive(Drop)]
pub enum Placement {
    Fault(StepFault),
    Uncarried(BoxFault),
    Beyond(Beyond),
    Turned(Turned),
    Holds(Placed, Tolerance),
}

/// How the plan of the sketch is placed on the grid `G`, where no tolerance may be more than the limit,
/// and the signs of the steps are to be as they are drawn, or as the plan chooses them.
pub fn placed_on<G: Grid>(
    alloc: Global,
    placing: Layout,
    wanted: Wanted,
    limit: u64,
    s: &Sketch,
    g: &Graph,
    p: &Plan,
) -> Result<Placement, NoMemory>
    requires sketch { IsSoundSketch s.now }
    requires graph { g.now ≡ graph_of s.now }
    requires legal { IsLegalPlan g.now p.now }
    ensures placement { IfOk result (IsPlacement wanted G placing G.BITS limit s.now p.now) }
    ensures bounded { IfOk result LiesWithinBounds }
{
    match place::<G>(alloc, placing.by, p, g) {
        Ok(boxes) => placed_boxes(alloc, placing, wanted, limit, s, g, p, boxes),
        Err(PlaceError::Fault(fault)) => Ok(Placement::Fault(fault)),
        Err(PlaceError::NoMemory) => Err(NoMemory),
    }
}

/// What comes of the plan's boxes in the frame of the base.
fn placed_boxes<G: Grid>(
    alloc: Global,
    placing: Layout,
    wanted: Wanted,
    limit: u64,
    s: &Sketch,
    g: &Graph,
    p: &Plan,
    boxes: Boxes<G>,
) -> Result<Placement, NoMemory>
    requires sketch { IsSoundSketch s.now }
    requires graph { g.now ≡ graph_of s.now }
    requires sound { IsSoundGraph g.now }
    requires legal { IsLegalPlan g.now p.now }
    requires placed { IsPlaced placing.by G.BITS g.now p.now (Ok boxes) }
    requires nodes { nodes_of boxes ≡ g.now.nodes }
    ensures placement { IfOk result (IsPlacement wanted G placing G.BITS limit s.now p.now) }
    ensures bounded { IfOk result LiesWithinBounds }
{
    match carried(alloc, placing, s, g, p, boxes) {
        Ok(there) => {
            let at = round(alloc, &there)?;
            Ok(measured(wanted, limit, s, g, p, at))
        }
        Err(error) => uncarried(error),
    }
}

/// That a box can't be carried, unless memory ran out.
fn uncarried(error: MoveError) -> Result<Placement, NoMemory>
    ensures { IfOk result (λ q. (f : FaultOfBox) × (error ≡ MoveError.Fault f) × (q ≡ Placement.Uncarried f)) }
{
    match error {
        MoveError::Fault(fault) => Ok(Placement::Uncarried(fault)),
        MoveError::NoMemory => Err(NoMemory),
    }
}

/// The boxes in the frame that is wanted.
fn carried<G: Grid>(
    alloc: Global,
    placing: Layout,
    s: &Sketch,
    g: &Graph,
    p: &Plan,
    boxes: Boxes<G>,
) -> Result<Boxes<G>, MoveError>
    requires sketch { IsSoundSketch s.now }
    requires graph { g.now ≡ graph_of s.now }
    requires sound { IsSoundGraph g.now }
    ensures carried { AnswersCarried placing.frame placing.by G.BITS s.now p.now boxes result }
    ensures nodes { IfOk result (λ there. nodes_of there ≡ nodes_of boxes) }
{
    match placing.frame {
        FrameBy::Base => Ok(boxes),
        FrameBy::Drawn => {
            let motion = frame_motion(&frame_of(s, g, p));
            moved(alloc, placing.by, &motion, &boxes)
        }
    }
}

/// What is measured where elements lie.
fn measured(wanted: Wanted, limit: u64, s: &Sketch, g: &Graph, p: &Plan, at: Placed) -> Placement
    requires sketch { IsSoundSketch s.now }
    requires graph { g.now ≡ graph_of s.now }
    requires sound { IsSoundGraph g.now }
    requires legal { IsLegalPlan g.now p.now }
    requires placed { PlacesExactly g.now at }
    ensures { IsMeasured wanted limit s.now p.now at result }
{
    if let Some(beyond) = passed(&at, g, limit) {
        return Placement::Beyond(beyond);
    }
    if let Some(turned) = first_unlike(&at, s, p, wanted) {
        return Placement::Turned(turned);
    }
    let tolerance = least(&at, g);
    Placement::Holds(at, tolerance)
}
