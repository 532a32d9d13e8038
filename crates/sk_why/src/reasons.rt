// What a constraint that is left out follows from: of the kept ones, those that hold its elements together.
ghost use Rattle.std.specs.Prelude.{◌≡◌, IfOk, filter, List as Items};
ghost use Rattle.sk_base.specs.declared.ConId.{ConId as Number};
ghost use Rattle.sk_base.specs.SoundGraph.{IsSoundGraph};
ghost use Rattle.sk_excess.specs.LeftOut.{is_number, HasConstraint};
ghost use Rattle.sk_why.specs.Because.{FollowsFrom};
ghost use Rattle.sk_why.specs.KeptOf.{IsKept};
ghost use Rattle.sk_why.specs.Needed.{needed};

use crate::branches::Branch;
use crate::keeping::{Kept, kept_of};
use crate::leaving::holding;
use crate::owners::elements_at;
use crate::walking::add_needed;
use sk_base::{ConId, Elem, Graph, List, NoMemory};
use sk_spare::is_among;
use std::alloc::Global;

/// Those of the constraints that aren't left out which hold the elements of this one together, of a block all its pins:
/// they are looked at from the greatest number to the least, and each leaves where the elements lie in one cluster
/// without it. They rise.
pub fn because(
    alloc: Global,
    graph: &Graph,
    left: &[ConId],
    number: ConId,
) -> Result<List<ConId>, NoMemory>
    requires sound { IsSoundGraph graph.now }
    requires there { HasConstraint graph.now number }
    ensures { IfOk result (FollowsFrom graph.now left.now number) }
{
    let kept = kept_of(alloc, graph, left, None)?;
    reasons_of(alloc, graph, &kept, number)
}

/// The same of what is kept: by its tree where it has one, and by halves where it hasn't.
pub(crate) fn reasons_of(
    alloc: Global,
    graph: &Graph,
    kept: &Kept,
    number: ConId,
) -> Result<List<ConId>, NoMemory>
    requires sound { IsSoundGraph graph.now }
    requires there { HasConstraint graph.now number }
    requires kept { (left : Items Number) × IsKept graph.now left kept.now }
    ensures { IfOk result (λ because. (left : Items Number) → IsKept graph.now left kept.now → FollowsFrom graph.now left number because) }
{
    let elements = elements_at(kept.starts.clusters(), number);
    let numbers = kept.numbers.as_slice();
    match &kept.tree {
        Some(tree) => needed_of(alloc, numbers, tree, elements),
        None => holding(alloc, graph, numbers, elements),
    }
}

/// Those of the numbers that hold the elements together, as the tree tells it.
fn needed_of(
    alloc: Global,
    numbers: &[ConId],
    tree: &Branch,
    elements: &[Elem],
) -> Result<List<ConId>, NoMemory>
    ensures { IfOk result (λ group. group ≡ filter (is_number (needed tree.now elements.now)) numbers.now) }
{
    let mut found = List::new(alloc);
    add_needed(alloc, &mut found, tree, elements)?;
    those_of(alloc, numbers, found.as_slice())
}

/// Those of the numbers that are among the others.
fn those_of(alloc: Global, numbers: &[ConId], others: &[ConId]) -> Result<List<ConId>, NoMemory>
    ensures { IfOk result (λ those. those ≡ filter (is_number others.now) numbers.now) }
{
    let mut those = List::new(alloc);
    for number in numbers {
        if is_among(others, *number) {
            those.push(*number)?;
        }
    }
    Ok(those)
}
