// The command `flips`.
ghost use Rattle.std.specs.Prelude.{◌≡◌, ◌<◌, ◌≤◌, length, IfOk};
ghost use Rattle.sk_base.specs.SoundSketch.{IsSoundSketch};
ghost use Rattle.sk_solve.specs.Alternatives.{AreAlternatives};
ghost use Rattle.sk_graph.specs.SketchGraph.{graph_of};
ghost use Rattle.sk_tree.specs.LegalPlan.{IsLegalPlan};
ghost use Rattle.sk_cli.specs.FlipsReport.{alternatives_from, IsFlipped, IsFlipsAnswer};
ghost use Rattle.sk_request.specs.Grids.{grid_of, digits_of};

use crate::alternative::alternative_text;
use crate::planning::{Planning, plan_or_report};
use sk_answers::{Answer, Status, refused};
use sk_base::{Graph, List, Name, NoMemory, Sketch, Text};
use sk_flips::read_flips;
use sk_interval::{G16, G27, G38};
use sk_lang::read_sketch_front;
use sk_lines::ReadError;
use sk_request::{Bits, Request};
use sk_solve::{Alternative, alternatives};
use sk_tree::Plan;
use std::alloc::Global;

/// The answer of `flips` to an input.
pub fn flips(alloc: Global, request: Request, bytes: &[u8]) -> Result<Answer, NoMemory>
    ensures { IfOk result (λ answer. IsFlipsAnswer request bytes.now answer.status answer.text) }
{
    let front = match read_sketch_front(alloc, bytes) {
        Ok(front) => front,
        Err(ReadError::Refused(refusal)) => return refused(alloc, &refusal),
        Err(ReadError::NoMemory) => return Err(NoMemory),
    };
    match read_flips(alloc, &bytes[front.used as usize..], front.lines) {
        Ok(lists) => flipped(alloc, request, &front.sketch, &lists),
        Err(ReadError::Refused(refusal)) => refused(alloc, &refusal),
        Err(ReadError::NoMemory) => Err(NoMemory),
    }
}

/// What comes of each list of steps, or the check report where the verdict isn't well.
fn flipped(
    alloc: Global,
    request: Request,
    s: &Sketch,
    lists: &List<List<Name>>,
) -> Result<Answer, NoMemory>
    requires sound { IsSoundSketch s.now }
    requires some { 0 < length s.now.elements }
    requires few { length lists.now ≤ 64 }
    ensures { IfOk result (λ answer. IsFlipped request s.now lists.now answer.status answer.text) }
{
    match plan_or_report(alloc, request.order, s)? {
        Planning::Planned { graph, plan } => {
            let found = alternatives_on(alloc, request, s, &graph, &plan, lists)?;
            Ok(Answer {
                status: Status::Done,
                text: alternatives_text(alloc, s, request.bits.count(), found.as_slice())?,
            })
        }
        Planning::NotWell(text) => Ok(Answer {
            status: Status::NotWell,
            text,
        }),
    }
}

/// What comes of each list of steps, in the layout and on the grid of the request, where no tolerance may
/// be more than its limit.
fn alternatives_on(
    alloc: Global,
    request: Request,
    s: &Sketch,
    g: &Graph,
    p: &Plan,
    lists: &List<List<Name>>,
) -> Result<List<Alternative>, NoMemory>
    requires sketch { IsSoundSketch s.now }
    requires graph { g.now ≡ graph_of s.now }
    requires legal { IsLegalPlan g.now p.now }
    ensures { IfOk result (AreAlternatives (grid_of request.bits) request.layout (digits_of request.bits) request.within s.now p.now lists.now) }
{
    match request.bits {
        Bits::Sixteen => alternatives::<G16>(alloc, request.layout, s, g, p, lists, request.within),
        Bits::TwentySeven => alternatives::<G27>(
            alloc,
            request.layout,
            s,
            g,
            p,
            lists,
            request.within,
        ),
        Bits::ThirtyEight => alternatives::<G38>(
            alloc,
            request.layout,
            s,
            g,
            p,
            lists,
            request.within,
        ),
    }
}

/// What is told of alternatives, one behind another.
fn alternatives_text(
    alloc: Global,
    s: &Sketch,
    bits: u32,
    found: &[Alternative],
) -> Result<Text, NoMemory>
    requires { length found.now ≤ 64 }
    ensures { IfOk result (λ text. text ≡ alternatives_from s.now bits 1 found.now) }
{
    let mut text = Text::new(alloc);
    let mut number = 0;
    for alternative in found {
        number += 1;
        text.put(alternative_text(alloc, s, number, bits, alternative)?.as_bytes())?;
    }
    Ok(text)
}
