// Where constraints start in the kept family: as an edge of the graph, or as a block.
ghost use Rattle.std.specs.Prelude.{◌≡◌, ◌+◌, ◌<◌, length, OnOk, OnErr, IfOk, IsSome};
ghost use Rattle.sk_base.specs.SoundSketch.{IsSoundSketch, IsSoundRule};
ghost use Rattle.sk_family.specs.Clusters.{IsSound};
ghost use Rattle.sk_family.specs.Starts.{HasStart, IsFree};
ghost use Rattle.sk_graph.specs.SketchGraph.{block_of};
ghost use Rattle.sk_plan.specs.ConstraintStarts.{constraint_start};
ghost use Rattle.sk_session.specs.Origins.{origin_start};

use sk_base::{Block, Constraint, Edge, NoMemory, Sketch};
use sk_family::Family;
use sk_graph::{block, edge};
use std::alloc::Global;

/// What the graph has for a constraint.
#[derive(Drop)]
pub(crate) enum Origin {
    Edge(Edge),
    Block(Block),
}

/// What the graph of the sketch has for the constraint.
pub(crate) fn origin_of(
    alloc: Global,
    sketch: &Sketch,
    constraint: &Constraint,
) -> Result<Origin, NoMemory>
    requires sound { IsSoundSketch sketch.now }
    requires rule { IsSoundRule sketch.now constraint.now.rule }
    ensures { IfOk result (λ origin. origin_start origin ≡ constraint_start constraint.now) }
{
    match edge(sketch, constraint) {
        Some(edge) => Ok(Origin::Edge(edge)),
        None => block_origin(alloc, constraint),
    }
}

fn block_origin(alloc: Global, constraint: &Constraint) -> Result<Origin, NoMemory>
    requires { IsSome (block_of constraint.now) }
    ensures { IfOk result (λ origin. origin_start origin ≡ constraint_start constraint.now) }
{
    match block(alloc, constraint)? {
        Some(block) => Ok(Origin::Block(block)),
        None => unreachable!(),
    }
}

/// Adds the starting cluster. After `NoMemory` the family is unchanged.
pub(crate) fn adopt(family: &mut Family, origin: &Origin) -> Result<(), NoMemory>
    requires free { IsFree family.old (origin_start origin.now).number }
    requires room { length family.old.live < 4294967295 }
    ensures ok { OnOk result (HasStart (origin_start origin.now) family.old family.new) }
    ensures count { OnOk result (length family.new.live ≡ length family.old.live + 1) }
    ensures err { OnErr result (family.new ≡ family.old) }
    ensures sound { IsSound family.new }
{
    match origin {
        Origin::Edge(edge) => family.adopt(edge),
        Origin::Block(block) => family.adopt_block(block),
    }
}
