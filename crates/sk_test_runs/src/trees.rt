// Trees of drawings' plans, of a constraint alone, and of no merge.
ghost use Rattle.std.specs.Prelude.{◌≡◌, ◌<◌, ◌^◌, length};
ghost use Rattle.sk_base.specs.SoundGraph.{IsSoundGraph};
ghost use Rattle.sk_base.specs.SoundSketch.{IsSoundSketch};
ghost use Rattle.sk_graph.specs.SketchGraph.{graph_of};
ghost use Rattle.sk_tree.specs.Trees.{step_count};

use crate::calls::planned;
use sk_base::{ConId, Graph, List, Sketch, Text};
use sk_plan::plan_tree;
use sk_tree::{Tree, build, height, leaf_tree, leaves, steps};
use std::alloc::Global;
use std::process::Abort;

/// The tree's leaves from left to right, how many joins it has, and how many of them stand above one another.
fn told(rt: &impl Abort, alloc: Global, tree: &Tree) -> Text
    requires { step_count tree.now < 2 ^ 32 }
{
    let leaves = leaves(alloc, tree).expect(rt, "memory");
    let mut text = Text::new(alloc);
    text.put(b"leaves").expect(rt, "memory");
    for leaf in leaves.as_slice() {
        let number = leaf.0;
        let word = format!(in alloc; " {number}").expect(rt, "memory");
        text.put(word.as_bytes()).expect(rt, "memory");
    }
    let (joins, high) = (steps(tree), height(tree));
    let end = format!(in alloc; " joins {joins} height {high}\n").expect(rt, "memory");
    text.put(end.as_bytes()).expect(rt, "memory");
    text
}

/// The tree of the drawing's plan.
pub(crate) fn tree_told(rt: &impl Abort, alloc: Global, sketch: &Sketch, graph: &Graph) -> Text
    requires sound { IsSoundSketch sketch.now }
    requires some { 0 < length sketch.now.elements }
    requires graph { graph.now ≡ graph_of sketch.now }
    requires reduced { IsSoundGraph (graph_of sketch.now) }
{
    let plan = planned(rt, alloc, sketch, graph);
    match plan_tree(alloc, &plan).expect(rt, "memory") {
        Some(tree) => told(rt, alloc, &tree),
        None => Text::new(alloc),
    }
}

/// The tree of a constraint alone; of no merge there is none.
pub(crate) fn leaf_told(rt: &impl Abort, alloc: Global) -> Text {
    match build(alloc, &List::new(alloc)).expect(rt, "memory") {
        Some(_) => panic!(rt; "a tree of no merge"),
        None => told(rt, alloc, &leaf_tree(ConId(7))),
    }
}
