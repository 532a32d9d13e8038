// The command `verify`.
ghost use Rattle.std.specs.Prelude.{IfOk};
ghost use Rattle.sk_base.specs.SoundSketch.{IsSoundSketch};
ghost use Rattle.sk_graph.specs.SketchGraph.{graph_of};
ghost use Rattle.sk_claims.specs.Claims.{IsFitting};
ghost use Rattle.sk_answers.specs.VerifyAnswer.{IsVerifyAnswer, IsJudged};

use crate::answer::{Answer, refused};
use crate::status::Status;
use sk_base::{NoMemory, Sketch};
use sk_claims::{Claim, read_claim};
use sk_graph::reduce;
use sk_lang::read_sketch_front;
use sk_lines::ReadError;
use sk_verify::{VerifyError, failure_text, verified_text, verify};
use std::alloc::Global;

/// The answer of `verify` to an input.
pub fn claimed(alloc: Global, bytes: &[u8]) -> Result<Answer, NoMemory>
    ensures { IfOk result (λ answer. IsVerifyAnswer bytes.now answer.status answer.text) }
{
    let front = match read_sketch_front(alloc, bytes) {
        Ok(front) => front,
        Err(ReadError::Refused(refusal)) => return refused(alloc, &refusal),
        Err(ReadError::NoMemory) => return Err(NoMemory),
    };
    match read_claim(
        alloc,
        &front.sketch,
        &bytes[front.used as usize..],
        front.lines,
    ) {
        Ok(claim) => judged(alloc, &front.sketch, &claim),
        Err(ReadError::Refused(refusal)) => refused(alloc, &refusal),
        Err(ReadError::NoMemory) => Err(NoMemory),
    }
}

/// Whether the claim is right, and what fails first, on a line.
fn judged(alloc: Global, sketch: &Sketch, claim: &Claim) -> Result<Answer, NoMemory>
    requires sound { IsSoundSketch sketch.now }
    requires fits { IsFitting (graph_of sketch.now) claim.now }
    ensures { IfOk result (λ answer. IsJudged sketch.now claim.now answer.status answer.text) }
{
    let graph = reduce(alloc, sketch)?;
    match verify(alloc, sketch, &graph, claim) {
        Ok(()) => Ok(Answer {
            status: Status::Done,
            text: verified_text(alloc, claim)?,
        }),
        Err(VerifyError::Fails(failure)) => Ok(Answer {
            status: Status::NotVerified,
            text: failure_text(alloc, sketch, &failure)?,
        }),
        Err(VerifyError::NoMemory) => Err(NoMemory),
    }
}
