// Completions of a sketch. A search proposes one, and the judgement decides. So of the search it is only known that it adds
// sound constraints with drawn values.
ghost use Rattle.std.specs.Prelude.{◌≡◌, ◌≢◌, ◌↔◌, ◌<◌, ◌≤◌, length, IfOk, IfSome, IsTrue};
ghost use Rattle.sk_base.specs.SoundSketch.{IsSoundSketch};
ghost use Rattle.sk_graph.specs.SketchGraph.{graph_of};
ghost use Rattle.sk_plan.specs.Judged.{IsTheJudgement, IsWell};
ghost use Rattle.sk_complete.specs.Weights.{weight_together, due_for as due};
ghost use Rattle.sk_complete.specs.Rings.{HasRing};
ghost use Rattle.sk_complete.specs.Completions.{Completes, HasLinesAlone, HasVerdict, IsCompletionOf};

use crate::draft::copy_sketch;
use crate::hindrance::{due_for, hindrance, weight_of};
use crate::proposal::{bases_of, propose};
use crate::rings::has_ring;
use sk_base::{NoMemory, Sketch};
use sk_graph::reduce;
use sk_plan::judgement_of;
use sk_triangles::lines_of;
use sk_verdict::{Judgement, Part, Verdict};
use std::alloc::Global;

/// Why there is no completion.
#[derive(Clone, Copy, Debug, PartialEq, Eq)]
pub enum Reason {
    /// Some part holds too many constraints.
    Over,
    /// All elements are lines, and there are more than two: no constraint keeps lines in their places.
    Lines,
    /// Two parts tell the angle of the same two lines, or more parts do in a ring.
    Angles,
    /// The constraints weigh what is due or more, but leave several parts.
    Enough,
    /// The search found no completion. There may be one.
    Stuck,
}

/// A completed sketch, or why none is given.
#[derive(Drop)]
pub enum Completion {
    Done(Sketch),
    Without(Reason),
}

/// A completion of the sketch, which has an element: the sketch itself where its verdict is well. Else there is none for the
/// first reason that holds: the verdict is over; more than two elements are lines alone; its parts tell an angle twice; the
/// constraints weigh what is due or more. Where none of these holds the search decides.
pub fn complete(alloc: Global, s: &Sketch) -> Result<Completion, NoMemory>
    requires sound { IsSoundSketch s.now }
    requires some { 0 < length s.now.elements }
    ensures completes { IfOk result (IsCompletionOf s.now) }
    ensures over { IfOk result (λ c. (c ≡ Completion.Without Reason.Over) ↔ HasVerdict (graph_of s.now) Verdict.Over) }
    ensures lines { IfOk result (λ c. (c ≡ Completion.Without Reason.Lines) ↔ ((¬ HasVerdict (graph_of s.now) Verdict.Over) × HasLinesAlone s.now)) }
    ensures angles { IfOk result (λ c. (c ≡ Completion.Without Reason.Angles) ↔ (HasVerdict (graph_of s.now) Verdict.Several × (¬ HasLinesAlone s.now) × HasRing s.now)) }
    ensures enough { IfOk result (λ c. (c ≡ Completion.Without Reason.Enough) ↔ (HasVerdict (graph_of s.now) Verdict.Several × (¬ HasLinesAlone s.now) × (¬ HasRing s.now) × (due s.now ≤ weight_together s.now.constraints))) }
{
    let judgement = judged(alloc, s)?;
    match judgement.verdict {
        Verdict::Over => Ok(Completion::Without(Reason::Over)),
        Verdict::Well => {
            let whole = copy_sketch(alloc, s)?;
            Ok(Completion::Done(whole))
        }
        Verdict::Several => completed(alloc, s, &judgement),
    }
}

/// A completion of a sketch of several parts.
fn completed(alloc: Global, s: &Sketch, judgement: &Judgement) -> Result<Completion, NoMemory>
    requires sound { IsSoundSketch s.now }
    requires some { 0 < length s.now.elements }
    requires judged { IsTheJudgement (graph_of s.now) judgement.now }
    requires several { judgement.now.verdict ≡ Verdict.Several }
    ensures completes { IfOk result (IsCompletionOf s.now) }
    ensures not_over { IfOk result (λ c. c ≢ Completion.Without Reason.Over) }
    ensures lines { IfOk result (λ c. (c ≡ Completion.Without Reason.Lines) ↔ HasLinesAlone s.now) }
    ensures angles { IfOk result (λ c. (c ≡ Completion.Without Reason.Angles) ↔ ((¬ HasLinesAlone s.now) × HasRing s.now)) }
    ensures enough { IfOk result (λ c. (c ≡ Completion.Without Reason.Enough) ↔ ((¬ HasLinesAlone s.now) × (¬ HasRing s.now) × (due s.now ≤ weight_together s.now.constraints))) }
{
    let graph = reduce(alloc, s)?;
    let lines = lines_of(alloc, graph.nodes.as_slice())?;
    let parts = judgement.parts.as_slice();
    let is_told_twice = has_ring(alloc, &graph, parts)?;
    let missing = due_for(s).saturating_sub(weight_of(s.constraints.as_slice()));
    if let Some(reason) = hindrance(s, is_told_twice, missing) {
        return Ok(Completion::Without(reason));
    }
    match first_completed(alloc, s, parts, lines.as_slice(), missing)? {
        Some(whole) => Ok(Completion::Done(whole)),
        None => Ok(Completion::Without(Reason::Stuck)),
    }
}

/// The first completion that the search proposes, base by base.
fn first_completed(
    alloc: Global,
    s: &Sketch,
    parts: &[Part],
    lines: &[bool],
    missing: usize,
) -> Result<Option<Sketch>, NoMemory>
    requires sound { IsSoundSketch s.now }
    requires some { 0 < length s.now.elements }
    ensures { IfOk result (λ found. IfSome found (Completes s.now)) }
{
    let bases = bases_of(alloc, s, parts)?;
    for base in bases.as_slice() {
        if let Some(part) = parts.get(base.place) {
            let first = part.elements.as_slice();
            let t = propose(alloc, s, parts, lines, first, missing)?;
            if is_well(alloc, &t)? {
                return Ok(Some(t));
            }
        }
    }
    Ok(None)
}

/// Whether the verdict on the sketch is well.
fn is_well(alloc: Global, s: &Sketch) -> Result<bool, NoMemory>
    requires sound { IsSoundSketch s.now }
    requires some { 0 < length s.now.elements }
    ensures { IfOk result (λ well. IsTrue well ↔ IsWell (graph_of s.now)) }
{
    let judgement = judged(alloc, s)?;
    match judgement.verdict {
        Verdict::Well => Ok(true),
        Verdict::Over => Ok(false),
        Verdict::Several => Ok(false),
    }
}

/// The judgement on the sketch.
fn judged(alloc: Global, s: &Sketch) -> Result<Judgement, NoMemory>
    requires sound { IsSoundSketch s.now }
    requires some { 0 < length s.now.elements }
    ensures { IfOk result (IsTheJudgement (graph_of s.now)) }
{
    let graph = reduce(alloc, s)?;
    judgement_of(alloc, &graph)
}
