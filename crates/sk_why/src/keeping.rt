// What is kept of a graph, told once for all constraints that are left out.
ghost use Rattle.std.specs.Prelude.{◌≡◌, None, IfOk, IfSome};
ghost use Rattle.sk_base.specs.SoundGraph.{IsSoundGraph};
ghost use Rattle.sk_base.specs.SoundSketch.{IsSoundSketch};
ghost use Rattle.sk_graph.specs.SketchGraph.{graph_of};
ghost use Rattle.sk_tree.specs.LegalPlan.{IsLegalPlan};
ghost use Rattle.sk_verdict.specs.OneCluster.{IsOneCluster};
ghost use Rattle.sk_excess.specs.LeftOut.{kept_graph};
ghost use Rattle.sk_why.specs.BranchOf.{IsTreeOfAll};
ghost use Rattle.sk_why.specs.KeptOf.{IsKept};

use crate::branches::{Branch, branch_of};
use sk_base::{ConId, Graph, List, NoMemory, Sketch};
use sk_close_by_order::Order;
use sk_excess::sketch_of_kept;
use sk_family::{Family, initial};
use sk_plan::{PlanError, plan_tree, planned_by};
use sk_spare::others_of;
use sk_tree::{Plan, numbers_of};
use std::alloc::Global;

/// The constraints that are kept, what each constraint of the whole graph starts with, and a tree of what is kept where
/// there is one.
#[derive(Drop)]
pub(crate) struct Kept {
    pub numbers: List<ConId>,
    pub starts: Family,
    pub tree: Option<Branch>,
}

/// What is kept of the graph where these are left out, with that tree.
pub(crate) fn kept_of(
    alloc: Global,
    graph: &Graph,
    left: &[ConId],
    tree: Option<Branch>,
) -> Result<Kept, NoMemory>
    requires sound { IsSoundGraph graph.now }
    requires tree { IfSome tree (λ t. IsTreeOfAll (kept_graph left.now graph.now) t) }
    ensures { IfOk result (λ kept. IsKept graph.now left.now kept) }
{
    let all = numbers_of(alloc, graph)?;
    let numbers = others_of(alloc, all.as_slice(), left)?;
    let starts = initial(alloc, graph)?;
    Ok(Kept {
        numbers,
        starts,
        tree,
    })
}

/// The tree of a plan of what is kept of the sketch. There is none where that is over.
pub(crate) fn tree_of_kept(
    alloc: Global,
    own: &Sketch,
    left: &[ConId],
) -> Result<Option<Branch>, NoMemory>
    requires sound { IsSoundSketch own.now }
    requires one { IsOneCluster (kept_graph left.now (graph_of own.now)) }
    ensures { IfOk result (λ tree. IfSome tree (λ t. IsTreeOfAll (kept_graph left.now (graph_of own.now)) t)) }
{
    let kept = sketch_of_kept(alloc, own, left)?;
    match planned_by(alloc, Order::First, &kept) {
        Ok(planned) => tree_by(alloc, &planned.graph, &planned.plan),
        Err(error) => no_tree(error),
    }
}

/// The tree of a plan of the graph.
fn tree_by(alloc: Global, graph: &Graph, plan: &Plan) -> Result<Option<Branch>, NoMemory>
    requires sound { IsSoundGraph graph.now }
    requires one { IsOneCluster graph.now }
    requires legal { IsLegalPlan graph.now plan.now }
    ensures { IfOk result (λ tree. IfSome tree (λ t. IsTreeOfAll graph.now t)) }
{
    match plan_tree(alloc, plan)? {
        Some(tree) => {
            let starts = initial(alloc, graph)?;
            Ok(Some(branch_of(alloc, starts.clusters(), &tree)?))
        }
        None => Ok(None),
    }
}

/// No tree where there is no plan, but for want of memory.
fn no_tree(error: PlanError) -> Result<Option<Branch>, NoMemory>
    ensures { IfOk result (λ tree. tree ≡ None) }
{
    match error {
        PlanError::NotWell(_) => Ok(None),
        PlanError::NoMemory => Err(NoMemory),
    }
}
