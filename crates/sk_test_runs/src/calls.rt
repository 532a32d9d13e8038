// The calls below the top call, on drawings that are read.
ghost use Rattle.std.specs.Prelude.{◌≡◌, ◌<◌, ◌-◌, ◌*◌, length};
ghost use Rattle.sk_base.specs.SoundGraph.{IsSoundGraph};
ghost use Rattle.sk_base.specs.SoundSketch.{IsSoundSketch};
ghost use Rattle.sk_graph.specs.SketchGraph.{graph_of};
ghost use Rattle.sk_tree.specs.LegalPlan.{IsLegalPlan};

use crate::row::put_each;
use sk_base::{Graph, Sketch, Text, copy_constraint};
use sk_close_by_order::{Chosen, Order};
use sk_entry::constraint_text;
use sk_graph::reduce;
use sk_lang::{read_sketch, write_sketch};
use sk_plan::plan_of;
use sk_tree::Plan;
use std::alloc::Global;
use std::process::Abort;

/// The sketch that the text is read as.
pub(crate) fn sketch_of(rt: &impl Abort, alloc: Global, text: &str) -> Sketch
    ensures sound { IsSoundSketch result }
    ensures some { 0 < length result.elements }
{
    read_sketch(alloc, text.as_bytes()).expect(rt, "a sketch")
}

/// A drawing that is read, and its graph.
#[derive(Drop)]
pub(crate) struct Read {
    pub sketch: Sketch,
    pub graph: Graph,
}

/// What the text is read as.
pub(crate) fn read_of(rt: &impl Abort, alloc: Global, text: &str) -> Read
    ensures sketch { IsSoundSketch result.sketch }
    ensures some { 0 < length result.sketch.elements }
    ensures graph { IsSoundGraph result.graph }
    ensures is { result.graph ≡ graph_of result.sketch }
    ensures reduced { IsSoundGraph (graph_of result.sketch) }
{
    let sketch = sketch_of(rt, alloc, text);
    let graph = reduce(alloc, &sketch).expect(rt, "memory");
    Read { sketch, graph }
}

/// The plan of the sketch with that graph, whose first choice is taken always.
pub(crate) fn planned(rt: &impl Abort, alloc: Global, sketch: &Sketch, graph: &Graph) -> Plan
    requires sound { IsSoundSketch sketch.now }
    requires some { 0 < length sketch.now.elements }
    requires graph { graph.now ≡ graph_of sketch.now }
    ensures legal { IsLegalPlan (graph_of sketch.now) result }
    ensures steps { 2 * length result.steps ≡ length sketch.now.constraints - 1 }
{
    plan_of(alloc, sketch, graph, &mut Chosen::new(Order::First)).expect(rt, "a plan")
}

/// The order of that name.
pub(crate) fn order_of(rt: &impl Abort, word: &str) -> Order {
    match word {
        "first" => Order::First,
        "last" => Order::Last,
        "7" => Order::Stride(7),
        _ => panic!(rt; "an order"),
    }
}

/// The constraints of the graph of a drawing, a line each.
pub(crate) fn edges_told(rt: &impl Abort, alloc: Global, graph: &Graph) -> Text {
    let mut told = Text::new(alloc);
    put_each(rt, alloc, &mut told, graph.edges.as_slice());
    told
}

/// The canonical text of the drawing, and that of a copy of each constraint behind the copy's number, a line each.
pub(crate) fn written(rt: &impl Abort, alloc: Global, sketch: &Sketch) -> Text
    requires { IsSoundSketch sketch.now }
{
    let mut told = write_sketch(alloc, sketch).expect(rt, "memory");
    for constraint in sketch.constraints.as_slice() {
        let copy = copy_constraint(alloc, constraint).expect(rt, "memory");
        let line = constraint_text(alloc, sketch, &copy).expect(rt, "memory");
        put_each(rt, alloc, &mut told, &[copy.number]);
        told.put(line.as_bytes()).expect(rt, "memory");
        told.put(b"\n").expect(rt, "memory");
    }
    told
}
