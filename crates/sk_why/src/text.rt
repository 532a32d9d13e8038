// The report on what the constraints that are left out follow from.
ghost use Rattle.std.specs.Prelude.{◌≡◌, ◌<◌, ◌++◌, length, ℕ, List as Items, Contains, IfOk, OnOk};
ghost use Rattle.sk_base.specs.declared.ConId.{ConId as Number};
ghost use Rattle.sk_base.specs.SoundSketch.{IsSoundSketch};
ghost use Rattle.sk_graph.specs.SketchGraph.{graph_of};
ghost use Rattle.sk_verdict.specs.declared.Judgement.{Judgement};
ghost use Rattle.sk_verdict.specs.OneCluster.{IsOneCluster};
ghost use Rattle.sk_plan.specs.Judged.{IsTheJudgement};
ghost use Rattle.sk_excess.specs.LeftOut.{HasConstraint};
ghost use Rattle.sk_why.specs.WhyLines.{follows_line};
ghost use Rattle.sk_why.specs.Because.{FollowsFrom};
ghost use Rattle.sk_why.specs.KeptOf.{IsKept};
ghost use Rattle.sk_why.specs.OverParts.{StandsForOver};
ghost use Rattle.sk_why.specs.WhyReport.{AreReasonsTold, AreGroupsTold, IsWhyReport};

use crate::keeping::{Kept, kept_of, tree_of_kept};
use crate::reason_lines::put_follows;
use crate::reasons::reasons_of;
use sk_base::{ConId, Graph, NoMemory, Sketch, Text};
use sk_excess::left_out;
use sk_graph::reduce;
use sk_parts::sketch_of_part;
use sk_plan::judgement_of;
use sk_report::part_text;
use sk_verdict::Part;
use std::alloc::Global;

/// How many parts are over; of each its line, and for each constraint that a minimal choice leaves out of it, in order,
/// the kept ones that it follows from.
pub fn why_text(alloc: Global, s: &Sketch) -> Result<Text, NoMemory>
    requires sound { IsSoundSketch s.now }
    requires some { 0 < length s.now.elements }
    ensures { IfOk result (IsWhyReport s.now) }
{
    let graph = reduce(alloc, s)?;
    let judgement = judgement_of(alloc, &graph)?;
    let parts = judgement.parts.as_slice();
    let over = parts.iter().filter(|part| part.is_over()).count();
    let mut text = Text::new(alloc);
    text.put(format!(in alloc; "why {over}\n")?.as_bytes())?;
    for (i, part) in parts.iter().enumerate() {
        text.put(part_groups(alloc, s, i + 1, part)?.as_bytes())?;
    }
    Ok(text)
}

/// What is told of a part: nothing where it isn't over.
fn part_groups(alloc: Global, s: &Sketch, number: usize, part: &Part) -> Result<Text, NoMemory>
    requires sound { IsSoundSketch s.now }
    requires judged { (j : Judgement) × IsTheJudgement (graph_of s.now) j × Contains j.parts part.now }
    ensures { IfOk result (StandsForOver AreGroupsTold s.now number part.now) }
{
    if !part.is_over() {
        return Ok(Text::new(alloc));
    }
    let own = sketch_of_part(alloc, s, part.elements.as_slice())?;
    let mut text = part_text(alloc, s, number, part)?;
    text.put(groups(alloc, &own)?.as_bytes())?;
    Ok(text)
}

/// What is told of the own sketch of a part that is over.
fn groups(alloc: Global, own: &Sketch) -> Result<Text, NoMemory>
    requires sound { IsSoundSketch own.now }
    requires one { IsOneCluster (graph_of own.now) }
    ensures { IfOk result (AreGroupsTold own.now) }
{
    let graph = reduce(alloc, own)?;
    let left = left_out(alloc, &graph)?;
    let tree = tree_of_kept(alloc, own, left.as_slice())?;
    let kept = kept_of(alloc, &graph, left.as_slice(), tree)?;
    reasons_text(alloc, own, &graph, &kept, left.as_slice())
}

/// A line for each constraint that is left out.
fn reasons_text(
    alloc: Global,
    own: &Sketch,
    graph: &Graph,
    kept: &Kept,
    left: &[ConId],
) -> Result<Text, NoMemory>
    requires sound { IsSoundSketch own.now }
    requires graph { graph.now ≡ graph_of own.now }
    requires there { (k : Number) → Contains left.now k → HasConstraint graph.now k }
    requires kept { IsKept graph.now left.now kept.now }
    ensures { IfOk result (AreReasonsTold own.now left.now left.now) }
{
    let mut text = Text::new(alloc);
    for number in left {
        put_reasons(alloc, &mut text, own, graph, kept, *number)?;
    }
    Ok(text)
}

/// Puts the line of a constraint that is left out.
fn put_reasons(
    alloc: Global,
    text: &mut Text,
    own: &Sketch,
    graph: &Graph,
    kept: &Kept,
    number: ConId,
) -> Result<(), NoMemory>
    requires sound { IsSoundSketch own.now }
    requires graph { graph.now ≡ graph_of own.now }
    requires there { HasConstraint graph.now number }
    requires kept { (left : Items Number) × IsKept graph.now left kept.now }
    ensures { OnOk result ((reasons : Items Number) × ((left : Items Number) → IsKept graph.now left kept.now → FollowsFrom graph.now left number reasons) × (text.new ≡ text.old ++ follows_line own.now number reasons)) }
{
    let reasons = reasons_of(alloc, graph, kept, number)?;
    put_follows(alloc, text, own, number, reasons.as_slice())
}
