// Closing by the three rules, by a picker.
ghost use Rattle.sk_base.specs.SoundGraph.{IsSoundGraph};

use sk_base::{Graph, Sketch, Text};
use sk_close_by_angles::{derive, derive_text};
use sk_close_by_order::{Chosen, Order};
use std::alloc::Global;
use std::process::Abort;

/// The derived clusters to which the order's picks lead.
pub(crate) fn derived_told(
    rt: &impl Abort,
    alloc: Global,
    sketch: &Sketch,
    graph: &Graph,
    order: Order,
) -> Text
    requires { IsSoundGraph graph.now }
{
    let family = derive(alloc, graph, &mut Chosen::new(order)).expect(rt, "memory");
    derive_text(alloc, sketch, &family).expect(rt, "memory")
}
