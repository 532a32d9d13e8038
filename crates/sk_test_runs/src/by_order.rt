// Plans by an order of merges, where the order decides.
ghost use Rattle.std.specs.Prelude.{◌<◌, length};
ghost use Rattle.sk_base.specs.SoundSketch.{IsSoundSketch};

use sk_base::{Sketch, Text};
use sk_close_by_order::Order;
use sk_plan::planned_by;
use sk_report::plan_text;
use std::alloc::Global;
use std::process::Abort;

/// The report of the drawing's plan by the order.
pub(crate) fn planned_told(rt: &impl Abort, alloc: Global, sketch: &Sketch, order: Order) -> Text
    requires sound { IsSoundSketch sketch.now }
    requires some { 0 < length sketch.now.elements }
{
    let planned = planned_by(alloc, order, sketch).expect(rt, "a drawing that is well");
    plan_text(alloc, sketch, &planned.plan).expect(rt, "memory")
}
