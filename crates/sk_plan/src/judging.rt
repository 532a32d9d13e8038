// The judgement on a graph, and whether its verdict can be well.
ghost use Rattle.std.specs.Prelude.{◌≡◌, ◌↔◌, ◌<◌, IfOk, IsTrue, length};
ghost use Rattle.sk_base.specs.SoundGraph.{IsSoundGraph};
ghost use Rattle.sk_tree.specs.LegalPlan.{numbers_of};
ghost use Rattle.sk_plan.specs.Judged.{HoldsWhatIsDue, IsTheJudgement};

use sk_base::{ConId, Graph, NoMemory};
use sk_close_any_order::close_in_any_order;
use sk_family::initial;
use sk_rules::weight_of;
use sk_verdict::{Judgement, judge};
use std::alloc::Global;

/// The judgement on a normal family, and so on every one.
pub fn judgement_of(alloc: Global, graph: &Graph) -> Result<Judgement, NoMemory>
    requires sound { IsSoundGraph graph.now }
    requires some { 0 < length graph.now.nodes }
    ensures { IfOk result (IsTheJudgement graph.now) }
{
    let mut family = initial(alloc, graph)?;
    close_in_any_order(alloc, &mut family, graph)?;
    judge(alloc, &family, graph)
}

/// Whether all constraints together weigh just what is due for all elements. Where they don't, the verdict
/// isn't well; where they do, one part may hold too many and others too few.
pub(crate) fn holds_what_is_due(graph: &Graph, constraints: &[ConId]) -> bool
    requires sound { IsSoundGraph graph.now }
    requires all { constraints.now ≡ numbers_of graph.now }
    ensures { IsTrue result ↔ HoldsWhatIsDue graph.now }
{
    let due = (2 * graph.nodes.len()).saturating_sub(3);
    weight_of(graph, constraints) as usize == due
}
