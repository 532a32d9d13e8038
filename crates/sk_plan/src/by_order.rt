// The plan of a sketch by an order of merges.
ghost use Rattle.std.specs.Prelude.{◌≡◌, ◌<◌, IfOk, IfErr, length};
ghost use Rattle.sk_base.specs.SoundSketch.{IsSoundSketch};
ghost use Rattle.sk_graph.specs.SketchGraph.{graph_of};
ghost use Rattle.sk_plan.specs.Judged.{TellsWhy};
ghost use Rattle.sk_plan.specs.PlanBy.{IsPlanBy};

use crate::error::PlanError;
use crate::making::plan_of;
use sk_base::{Graph, Sketch};
use sk_close_by_order::{Chosen, Order};
use sk_graph::reduce;
use sk_tree::Plan;
use std::alloc::Global;

/// The graph of a sketch, and a plan of it.
#[derive(Drop)]
pub struct Planned {
    pub graph: Graph,
    pub plan: Plan,
}

/// The graph of the sketch and its plan by the order of merges. There is a plan exactly where the verdict
/// is well; else the judgement tells why.
pub fn planned_by(alloc: Global, order: Order, s: &Sketch) -> Result<Planned, PlanError>
    requires sound { IsSoundSketch s.now }
    requires some { 0 < length s.now.elements }
    ensures graph { IfOk result (λ planned. planned.graph ≡ graph_of s.now) }
    ensures plan { IfOk result (λ planned. IsPlanBy order s.now planned.plan) }
    ensures not_well { IfErr result (λ error. TellsWhy (graph_of s.now) error) }
{
    let graph = reduce(alloc, s)?;
    let plan = plan_of(alloc, s, &graph, &mut Chosen::new(order))?;
    Ok(Planned { graph, plan })
}
