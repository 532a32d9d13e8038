// The command `parts`.
ghost use Rattle.std.specs.Prelude.{◌≡◌, ◌<◌, ◌++◌, length, ℕ, List as Items, Contains, IfOk, OnOk};
ghost use Rattle.sk_base.specs.SoundSketch.{IsSoundSketch};
ghost use Rattle.sk_graph.specs.SketchGraph.{graph_of};
ghost use Rattle.sk_verdict.specs.declared.Judgement.{Judgement};
ghost use Rattle.sk_plan.specs.Judged.{IsTheJudgement};
ghost use Rattle.sk_report.specs.CheckReport.{part_line};
ghost use Rattle.sk_cli.specs.PartsReport.{ArePartsTold, IsBelowPart, IsPartsReport};

use crate::solving::{Report, solved};
use sk_base::{NoMemory, Sketch, Text};
use sk_graph::reduce;
use sk_parts::sketch_of_part;
use sk_plan::judgement_of;
use sk_report::{part_text, parts_head_text};
use sk_request::Request;
use sk_verdict::Part;
use std::alloc::Global;

/// The verdict on the sketch, its parts, and below each part that isn't over where the elements of its
/// own sketch lie, or what fails first there.
pub(crate) fn shapes(alloc: Global, request: Request, sketch: &Sketch) -> Result<Text, NoMemory>
    requires sound { IsSoundSketch sketch.now }
    requires some { 0 < length sketch.now.elements }
    ensures { IfOk result (IsPartsReport request sketch.now) }
{
    let graph = reduce(alloc, sketch)?;
    let judgement = judgement_of(alloc, &graph)?;
    let mut text = parts_head_text(alloc, &judgement)?;
    put_parts(
        alloc,
        request,
        &mut text,
        sketch,
        judgement.parts.as_slice(),
    )?;
    Ok(text)
}

/// Puts what is told of each part, numbered from 1.
fn put_parts(
    alloc: Global,
    request: Request,
    text: &mut Text,
    s: &Sketch,
    parts: &[Part],
) -> Result<(), NoMemory>
    requires sound { IsSoundSketch s.now }
    requires judged { (j : Judgement) × IsTheJudgement (graph_of s.now) j × (j.parts ≡ parts.now) }
    ensures { OnOk result ((lines : Items ℕ) × ArePartsTold request s.now 1 parts.now lines × (text.new ≡ text.old ++ lines)) }
{
    for (i, part) in parts.iter().enumerate() {
        put_part(alloc, request, text, s, i + 1, part)?;
    }
    Ok(())
}

/// Puts the line of a part, and what is told below it.
fn put_part(
    alloc: Global,
    request: Request,
    text: &mut Text,
    s: &Sketch,
    number: usize,
    part: &Part,
) -> Result<(), NoMemory>
    requires sound { IsSoundSketch s.now }
    requires judged { (j : Judgement) × IsTheJudgement (graph_of s.now) j × Contains j.parts part.now }
    ensures { OnOk result ((below : Items ℕ) × IsBelowPart request s.now part.now below × (text.new ≡ text.old ++ (part_line s.now number part.now ++ below))) }
{
    let below = below_part(alloc, request, s, part)?;
    text.put(part_text(alloc, s, number, part)?.as_bytes())?;
    text.put(below.as_bytes())
}

/// What is told below the line of a part: nothing where it is over, since its sketch has no plan then.
fn below_part(alloc: Global, request: Request, s: &Sketch, part: &Part) -> Result<Text, NoMemory>
    requires sound { IsSoundSketch s.now }
    requires judged { (j : Judgement) × IsTheJudgement (graph_of s.now) j × Contains j.parts part.now }
    ensures { IfOk result (IsBelowPart request s.now part.now) }
{
    if part.is_over() {
        return Ok(Text::new(alloc));
    }
    let own = sketch_of_part(alloc, s, part.elements.as_slice())?;
    Ok(solved(alloc, request, Report::Shape, &own)?.text)
}
