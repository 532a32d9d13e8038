// The plan of a sketch by the order of merges.
ghost use Rattle.std.specs.Prelude.{◌<◌, length, IfOk};
ghost use Rattle.sk_base.specs.SoundSketch.{IsSoundSketch};
ghost use Rattle.sk_cli.specs.Planning.{IsPlanning};

use sk_base::{Graph, NoMemory, Sketch, Text};
use sk_close_by_order::Order;
use sk_plan::{PlanError, Planned, planned_by};
use sk_report::check_text;
use sk_tree::Plan;
use std::alloc::Global;

/// What comes of planning a sketch.
#[derive(Drop)]
pub enum Planning {
    /// Its graph, and the plan of the run by the order.
    Planned { graph: Graph, plan: Plan },
    /// Its check report, since the verdict isn't well.
    NotWell(Text),
}

/// The plan of the sketch by the order, or the check report where the verdict isn't well.
pub(crate) fn plan_or_report(
    alloc: Global,
    order: Order,
    sketch: &Sketch,
) -> Result<Planning, NoMemory>
    requires sound { IsSoundSketch sketch.now }
    requires some { 0 < length sketch.now.elements }
    ensures { IfOk result (IsPlanning order sketch.now) }
{
    match planned_by(alloc, order, sketch) {
        Ok(Planned { graph, plan }) => Ok(Planning::Planned { graph, plan }),
        Err(PlanError::NotWell(judgement)) => {
            Ok(Planning::NotWell(check_text(alloc, sketch, &judgement)?))
        }
        Err(PlanError::NoMemory) => Err(NoMemory),
    }
}
