// The command `excess`.
ghost use Rattle.std.specs.Prelude.{◌≡◌, ◌⊎◌, ◌<◌, ◌++◌, length, ℕ, List as Items, Contains, IfOk, OnOk, IsSome};
ghost use Rattle.sk_base.specs.declared.ConId.{ConId as Number};
ghost use Rattle.sk_base.specs.SoundSketch.{IsSoundSketch};
ghost use Rattle.sk_graph.specs.SketchGraph.{graph_of};
ghost use Rattle.sk_measure.specs.Placing.{PlacesExactly};
ghost use Rattle.sk_verdict.specs.declared.Judgement.{Judgement};
ghost use Rattle.sk_plan.specs.Judged.{IsTheJudgement};
ghost use Rattle.sk_entry.specs.NumberedConstraint.{constraint_of};
ghost use Rattle.sk_verdict.specs.OneCluster.{IsOneCluster};
ghost use Rattle.sk_tolerance.specs.declared.OffBy.{OffBy as AnyOff};
ghost use Rattle.sk_report.specs.ExcessReport.{off_line, left_lines};
ghost use Rattle.sk_cli.specs.Solved.{IsPlacedPlan};
ghost use Rattle.sk_cli.specs.Solving.{LiesWithinBounds};
ghost use Rattle.sk_excess.specs.KeptSketch.{kept_sketch};
ghost use Rattle.sk_answers.specs.OffsThere.{IsOffThere};
ghost use Rattle.sk_cli.specs.ExcessReport.{AreOffsTold, IsMeasuredLeft, IsFaultyLeft, IsExcess, IsPartExcess, IsExcessReport};

use crate::placing::placed;
use crate::planning::{Planning, plan_or_report};
use crate::solving::{Report, placement_text};
use sk_base::{ConId, Graph, NoMemory, Placed, Sketch, Text};
use sk_entry::constraint_of;
use sk_excess::{left_out, sketch_of_kept};
use sk_graph::reduce;
use sk_parts::sketch_of_part;
use sk_plan::judgement_of;
use sk_report::{part_text, put_left, put_off};
use sk_request::Request;
use sk_solve::Placement;
use sk_tolerance::off;
use sk_tree::Plan;
use sk_verdict::Part;
use std::alloc::Global;

/// How many parts are over, and of each the constraints that a minimal choice leaves out, with how far
/// off each is where the elements lie by those that stay.
pub(crate) fn excesses(alloc: Global, request: Request, sketch: &Sketch) -> Result<Text, NoMemory>
    requires sound { IsSoundSketch sketch.now }
    requires some { 0 < length sketch.now.elements }
    ensures { IfOk result (IsExcessReport request sketch.now) }
{
    let graph = reduce(alloc, sketch)?;
    let judgement = judgement_of(alloc, &graph)?;
    let parts = judgement.parts.as_slice();
    let over = parts.iter().filter(|part| part.is_over()).count();
    let mut text = Text::new(alloc);
    text.put(format!(in alloc; "excess {over}\n")?.as_bytes())?;
    for (i, part) in parts.iter().enumerate() {
        text.put(part_excess(alloc, request, sketch, i + 1, part)?.as_bytes())?;
    }
    Ok(text)
}

/// What is told of a part: nothing where it isn't over.
fn part_excess(
    alloc: Global,
    request: Request,
    s: &Sketch,
    number: usize,
    part: &Part,
) -> Result<Text, NoMemory>
    requires sound { IsSoundSketch s.now }
    requires judged { (j : Judgement) × IsTheJudgement (graph_of s.now) j × Contains j.parts part.now }
    ensures { IfOk result (IsPartExcess request s.now number part.now) }
{
    if !part.is_over() {
        return Ok(Text::new(alloc));
    }
    let own = sketch_of_part(alloc, s, part.elements.as_slice())?;
    let mut text = part_text(alloc, s, number, part)?;
    text.put(excess(alloc, request, &own)?.as_bytes())?;
    Ok(text)
}

/// What is told of the own sketch of a part that is over.
fn excess(alloc: Global, request: Request, own: &Sketch) -> Result<Text, NoMemory>
    requires sound { IsSoundSketch own.now }
    requires some { 0 < length own.now.elements }
    requires one { IsOneCluster (graph_of own.now) }
    ensures { IfOk result (IsExcess request own.now) }
{
    let graph = reduce(alloc, own)?;
    let left = left_out(alloc, &graph)?;
    let kept = sketch_of_kept(alloc, own, left.as_slice())?;
    match plan_or_report(alloc, request.order, &kept)? {
        Planning::Planned {
            graph: kept_graph,
            plan,
        } => {
            let placement = placed(alloc, request, &kept, &kept_graph, &plan)?;
            placed_text(
                alloc,
                request,
                own,
                &graph,
                left.as_slice(),
                &kept,
                &plan,
                &placement,
            )
        }
        Planning::NotWell(_) => left_text(alloc, own, left.as_slice(), b"stays over\n"),
    }
}

/// What is told where the kept sketch is placed so: how far off each constraint is that is left out, or
/// what fails first.
fn placed_text(
    alloc: Global,
    request: Request,
    own: &Sketch,
    graph: &Graph,
    left: &[ConId],
    kept: &Sketch,
    plan: &Plan,
    placement: &Placement,
) -> Result<Text, NoMemory>
    requires own { IsSoundSketch own.now }
    requires graph { graph.now ≡ graph_of own.now }
    requires kept { kept.now ≡ kept_sketch left.now own.now }
    requires there { (k : Number) → Contains left.now k → IsSome (constraint_of own.now k) }
    requires placed { IsPlacedPlan request kept.now plan.now placement.now }
    requires bounded { LiesWithinBounds placement.now }
    ensures { IfOk result (λ text. IsMeasuredLeft request own.now left.now text ⊎ IsFaultyLeft request own.now left.now text) }
{
    match placement {
        Placement::Holds(at, _) => offs_text(alloc, request.within, own, graph, left, at),
        failed => {
            let bits = request.bits.count();
            let fault = placement_text(alloc, Report::Shape, bits, kept, plan, failed)?;
            left_text(alloc, own, left, fault.as_bytes())
        }
    }
}

/// A line for each constraint that is left out, with how far off it is.
fn offs_text(
    alloc: Global,
    limit: u64,
    own: &Sketch,
    graph: &Graph,
    left: &[ConId],
    at: &Placed,
) -> Result<Text, NoMemory>
    requires own { IsSoundSketch own.now }
    requires graph { graph.now ≡ graph_of own.now }
    requires placed { PlacesExactly graph.now at.now }
    requires there { (k : Number) → Contains left.now k → IsSome (constraint_of own.now k) }
    ensures { IfOk result (AreOffsTold limit own.now at.now left.now) }
{
    let mut text = Text::new(alloc);
    for number in left {
        put_one_off(alloc, &mut text, limit, own, graph, at, *number)?;
    }
    Ok(text)
}

/// Puts the line of a constraint that is left out, with how far off it is.
fn put_one_off(
    alloc: Global,
    text: &mut Text,
    limit: u64,
    own: &Sketch,
    graph: &Graph,
    at: &Placed,
    number: ConId,
) -> Result<(), NoMemory>
    requires own { IsSoundSketch own.now }
    requires graph { graph.now ≡ graph_of own.now }
    requires placed { PlacesExactly graph.now at.now }
    requires there { IsSome (constraint_of own.now number) }
    ensures { OnOk result ((off : AnyOff) × IsOffThere at.now own.now number off × (text.new ≡ text.old ++ off_line own.now limit number off)) }
{
    match constraint_of(own, number) {
        Some(constraint) => {
            let by = off(at, own, graph, constraint);
            put_off(alloc, text, own, limit, number, &by)
        }
        None => unreachable!(),
    }
}

/// A line for each constraint that is left out, and what stands behind them.
fn left_text(alloc: Global, own: &Sketch, left: &[ConId], behind: &[u8]) -> Result<Text, NoMemory>
    ensures { IfOk result (λ text. text ≡ left_lines own.now left.now ++ behind.now) }
{
    let mut text = Text::new(alloc);
    put_left(alloc, &mut text, own, left)?;
    text.put(behind)?;
    Ok(text)
}
