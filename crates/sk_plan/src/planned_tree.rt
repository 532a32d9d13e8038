// The tree of a plan.
ghost use Rattle.std.specs.Prelude.{◌≡◌, ◌↔◌, [], map, length, IfOk, IfSome, IsNone, slice_get};
ghost use Rattle.std.specs.Option.{option_map};
ghost use Rattle.sk_base.specs.declared.Graph.{Graph as OfGraph};
ghost use Rattle.sk_base.specs.SoundGraph.{IsSoundGraph};
ghost use Rattle.sk_tree.specs.Trees.{step_count};
ghost use Rattle.sk_tree.specs.LegalPlan.{taken_told, IsLegalPlan};
ghost use Rattle.sk_plan.specs.Leaves.{HasLeaves};
ghost use Rattle.sk_tree.specs.PlanTree.{IsPlanTree};

use sk_base::{ConId, List, NoMemory};
use sk_rules::{Merge, Shared, Taken};
use sk_tree::{Plan, PlanStep, Tree, build, leaf_tree};
use std::alloc::Global;

/// The merge tree of a plan that is legal for some graph. There is none exactly where the plan has no
/// leaf.
pub fn plan_tree(alloc: Global, plan: &Plan) -> Result<Option<Tree>, NoMemory>
    requires { (g : OfGraph) × IsSoundGraph g × IsLegalPlan g plan.now }
    ensures none { IfOk result (λ tree. IsNone tree ↔ (plan.now.leaves ≡ [])) }
    ensures tree { IfOk result (λ tree. IfSome tree (λ t. IsPlanTree plan.now t)) }
    ensures leaves { IfOk result (λ tree. IfSome tree (λ t. HasLeaves t plan.now.leaves)) }
    ensures steps { IfOk result (λ tree. IfSome tree (λ t. step_count t ≡ length plan.now.steps)) }
{
    let taken = merges_of(alloc, plan.steps.as_slice())?;
    match build(alloc, &taken)? {
        Some(tree) => Ok(Some(tree)),
        None => Ok(first_leaf(plan.leaves.as_slice())),
    }
}

/// The merges that the steps tell, in order.
fn merges_of(alloc: Global, steps: &[PlanStep]) -> Result<List<Taken>, NoMemory>
    ensures { IfOk result (λ taken. taken ≡ map taken_told steps.now) }
{
    let mut taken = List::new(alloc);
    for step in steps {
        taken.push(merge_of(step))?;
    }
    Ok(taken)
}

/// The merge that the step tells.
fn merge_of(step: &PlanStep) -> Taken
    ensures { result ≡ taken_told step.now }
{
    Taken {
        step: step.step,
        merge: Merge::Three(step.one, step.two, step.three),
        shared: Shared {
            a: step.a,
            b: step.b,
            c: Some(step.c),
        },
    }
}

/// The tree of the first of some constraints.
fn first_leaf(leaves: &[ConId]) -> Option<Tree>
    ensures { result ≡ option_map (λ k. Tree.Leaf k) (slice_get leaves.now 0) }
{
    let leaf = leaves.first()?;
    Some(leaf_tree(*leaf))
}
