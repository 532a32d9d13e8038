// The block of a constraint that is one.
ghost use Rattle.std.specs.Prelude.{◌≡◌, IfOk};
ghost use Rattle.sk_graph.specs.SketchGraph.{block_of};

use sk_base::{Block, Constraint, NoMemory, Rule, copy_constraint};
use std::alloc::Global;

/// The block of the constraint. A constraint between two elements has none.
pub fn block(alloc: Global, constraint: &Constraint) -> Result<Option<Block>, NoMemory>
    ensures { IfOk result (λ block. block ≡ block_of constraint.now) }
{
    let Constraint { number, rule } = copy_constraint(alloc, constraint)?;
    match rule {
        Rule::Block { pins } => Ok(Some(Block { id: number, pins })),
        _ => Ok(None),
    }
}
