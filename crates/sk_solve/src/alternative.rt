// Other drawings by the same plan.
ghost use Rattle.std.specs.Prelude.{◌≡◌, IfOk};
ghost use Rattle.sk_base.specs.SoundSketch.{IsSoundSketch};
ghost use Rattle.sk_graph.specs.SketchGraph.{graph_of};
ghost use Rattle.sk_tree.specs.LegalPlan.{IsLegalPlan};
ghost use Rattle.sk_solve.specs.Alternatives.{alternative_of, IsAlternative, AreAlternatives};

use crate::placing::{Placement, placed_on};
use sk_base::{Graph, List, Name, NoMemory, Placed, Sketch};
use sk_flips::{FlipError, flip_plan};
use sk_interval::Grid;
use sk_place::{BoxFault, Layout, StepFault};
use sk_tolerance::{Beyond, Tolerance, Turned, Wanted};
use sk_tree::Plan;
use std::alloc::Global;

/// What comes of turning the choices of some steps: where the elements lie then, and within which
/// tolerance all holds; or a step that has no choice, the first step with a fault, the first box that can't be carried to
/// the drawing, the first line or constraint beyond the limit, or the first sign that isn't placed as it is wanted: that of a step as
/// the turned plan chooses it, any other as it is drawn.
#[derive(Drop)]
pub enum Alternative {
    Found { at: Placed, tol: Tolerance },
    NoChoice(Name),
    Fault(StepFault),
    Uncarried(BoxFault),
    Passed(Beyond),
    Turned(Turned),
}

/// What comes of each list of steps, in order. The limit is in nanometres for lengths and heights, and
/// in parts per 10^9 for angles and normals.
pub fn alternatives<G: Grid>(
    alloc: Global,
    placing: Layout,
    s: &Sketch,
    g: &Graph,
    p: &Plan,
    lists: &List<List<Name>>,
    limit: u64,
) -> Result<List<Alternative>, NoMemory>
    requires sketch { IsSoundSketch s.now }
    requires graph { g.now ≡ graph_of s.now }
    requires legal { IsLegalPlan g.now p.now }
    ensures { IfOk result (AreAlternatives G placing G.BITS limit s.now p.now lists.now) }
{
    each::<G>(alloc, placing, s, g, p, lists.as_slice(), limit)
}

/// What comes of each list of steps, in order.
fn each<G: Grid>(
    alloc: Global,
    placing: Layout,
    s: &Sketch,
    g: &Graph,
    p: &Plan,
    lists: &[List<Name>],
    limit: u64,
) -> Result<List<Alternative>, NoMemory>
    requires sketch { IsSoundSketch s.now }
    requires graph { g.now ≡ graph_of s.now }
    requires legal { IsLegalPlan g.now p.now }
    ensures { IfOk result (AreAlternatives G placing G.BITS limit s.now p.now lists.now) }
{
    let mut alternatives = List::new(alloc);
    for names in lists {
        alternatives.push(turning::<G>(alloc, placing, s, g, p, names, limit)?)?;
    }
    Ok(alternatives)
}

/// What comes of turning the choices of these steps.
fn turning<G: Grid>(
    alloc: Global,
    placing: Layout,
    s: &Sketch,
    g: &Graph,
    p: &Plan,
    names: &List<Name>,
    limit: u64,
) -> Result<Alternative, NoMemory>
    requires sketch { IsSoundSketch s.now }
    requires graph { g.now ≡ graph_of s.now }
    requires legal { IsLegalPlan g.now p.now }
    ensures { IfOk result (IsAlternative G placing G.BITS limit s.now p.now names.now) }
{
    match flip_plan(alloc, p, names) {
        Ok(turned) => Ok(alternative_of(placed_on::<G>(
            alloc,
            placing,
            Wanted::Chosen,
            limit,
            s,
            g,
            &turned,
        )?)),
        Err(FlipError::NoChoice(name)) => Ok(Alternative::NoChoice(name)),
        Err(FlipError::NoMemory) => Err(NoMemory),
    }
}

/// What comes of a turned plan that is placed so.
fn alternative_of(placement: Placement) -> Alternative
    ensures { result ≡ alternative_of placement }
{
    match placement {
        Placement::Fault(fault) => Alternative::Fault(fault),
        Placement::Uncarried(fault) => Alternative::Uncarried(fault),
        Placement::Beyond(beyond) => Alternative::Passed(beyond),
        Placement::Turned(turned) => Alternative::Turned(turned),
        Placement::Holds(at, tol) => Alternative::Found { at, tol },
    }
}
