// The plan of a picker's run.
ghost use Rattle.std.specs.Prelude.{◌≡◌, ◌-◌, ◌*◌, ◌<◌, [], All, IfOk, IfErr, OnOk, map, length};
ghost use Rattle.sk_base.specs.SoundGraph.{IsSoundGraph};
ghost use Rattle.sk_base.specs.SoundSketch.{IsSoundSketch};
ghost use Rattle.sk_family.specs.Clusters.{Clusters, initial_clusters};
ghost use Rattle.sk_graph.specs.SketchGraph.{graph_of};
ghost use Rattle.sk_rules.specs.Taking.{Leads};
ghost use Rattle.sk_close_by_order.specs.Run.{IsRun};
ghost use Rattle.sk_tree.specs.LegalPlan.{numbers_of, merge_told, taken_told, AreLegalSteps, IsLegalPlan, IsWhole};
ghost use Rattle.sk_tree.specs.declared.Tree.{Tree};
ghost use Rattle.sk_tree.specs.PlanTree.{IsPlanTree};
ghost use Rattle.sk_tree.specs.DrawnChoice.{HasDrawnChoice};
ghost use Rattle.sk_plan.specs.Judged.{HoldsWhatIsDue, IsWell, TellsWhy};
ghost use Rattle.sk_plan.specs.Leaves.{HasLeaves};
ghost use Rattle.sk_plan.specs.Runs.{EachTakesOnce};
ghost use Rattle.sk_plan.specs.Sparse.{IsSparse, HasFewAngles};

use crate::error::PlanError;
use crate::judging::{holds_what_is_due, judgement_of};
use crate::step::plan_step;
use sk_base::{Graph, List, NoMemory, Sketch};
use sk_close_by_order::{Picker, close_family};
use sk_family::initial;
use sk_rules::{Taken, do_merge};
use sk_tree::{Plan, PlanStep, numbers_of};
use sk_verdict::{Verdict, judge};
use std::alloc::Global;

/// The plan of the picker's run on the graph `g` of the sketch `s`. There is one exactly where the
/// verdict is well; else the judgement tells why. It has half as many steps as constraints but one, which
/// without blocks is two fewer than elements. Where there is one, among no k ≥ 2 different elements do
/// the constraints weigh more than 2k - 3, and no k ≥ 1 different lines have more than k - 1 angles. Where all
/// constraints together don't weigh just what is due, the picker isn't asked.
pub fn plan_of<P: Picker>(
    alloc: Global,
    s: &Sketch,
    g: &Graph,
    p: &mut P,
) -> Result<Plan, PlanError>
    requires sound { IsSoundSketch s.now }
    requires some { 0 < length s.now.elements }
    requires graph { g.now ≡ graph_of s.now }
    ensures legal { IfOk result (λ plan. IsLegalPlan g.now plan) }
    ensures run { IfOk result (λ plan. (end : Clusters) × IsRun P.answer P.after g.now (initial_clusters g.now) p.old (map merge_told plan.steps) end p.new) }
    ensures drawn { IfOk result (λ plan. All (λ step. HasDrawnChoice s.now step) plan.steps) }
    ensures steps { IfOk result (λ plan. 2 * length plan.steps ≡ length s.now.constraints - 1) }
    ensures without_blocks { IfOk result (λ plan. g.now.blocks ≡ [] → length plan.steps ≡ length s.now.elements - 2) }
    ensures leaves { IfOk result (λ plan. (t : Tree) → IsPlanTree plan t → HasLeaves t (numbers_of g.now)) }
    ensures sparse { OnOk result (IsSparse g.now) }
    ensures few_angles { OnOk result (HasFewAngles g.now) }
    ensures well { OnOk result (IsWell g.now) }
    ensures not_well { IfErr result (λ error. TellsWhy g.now error) }
    ensures unasked { (HoldsWhatIsDue g.now → ⊥) → p.new ≡ p.old }
{
    let leaves = numbers_of(alloc, g)?;
    if !holds_what_is_due(g, leaves.as_slice()) {
        return Err(PlanError::NotWell(judgement_of(alloc, g)?));
    }
    let mut family = initial(alloc, g)?;
    let taken = close_family(alloc, &mut family, g, p)?;
    let judgement = judge(alloc, &family, g)?;
    match judgement.verdict {
        Verdict::Well => {
            let steps = steps_of(alloc, s, g, taken.as_slice())?;
            Ok(Plan { leaves, steps })
        }
        Verdict::Over | Verdict::Several => Err(PlanError::NotWell(judgement)),
    }
}

/// A plan's step for each merge, in order.
fn steps_of(
    alloc: Global,
    sketch: &Sketch,
    graph: &Graph,
    taken: &[Taken],
) -> Result<List<PlanStep>, NoMemory>
    requires sketch { IsSoundSketch sketch.now }
    requires graph { graph.now ≡ graph_of sketch.now }
    requires sound { IsSoundGraph graph.now }
    requires leads { (end : Clusters) × Leads graph.now (initial_clusters graph.now) taken.now end × IsWhole graph.now end }
    requires once { EachTakesOnce graph.now (initial_clusters graph.now) taken.now }
    ensures legal { IfOk result (λ steps. AreLegalSteps graph.now (initial_clusters graph.now) steps) }
    ensures told { IfOk result (λ steps. map taken_told steps ≡ taken.now) }
    ensures drawn { IfOk result (λ steps. All (λ step. HasDrawnChoice sketch.now step) steps) }
{
    let mut family = initial(alloc, graph)?;
    let mut steps = List::new(alloc);
    for merging in taken {
        steps.push(plan_step(sketch, &family, *merging))?;
        do_merge(&mut family, graph, merging.merge)?;
    }
    Ok(steps)
}
