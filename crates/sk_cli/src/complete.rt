// The command `complete`.
ghost use Rattle.std.specs.Prelude.{◌≡◌, ◌<◌, length, IfOk};
ghost use Rattle.sk_base.specs.SoundSketch.{IsSoundSketch};
ghost use Rattle.sk_cli.specs.CompleteAnswer.{completion_status, IsCompletedOrNot, IsCompleteAnswer};

use sk_answers::{Answer, Status, refused};
use sk_base::{NoMemory, Sketch};
use sk_complete::{Completion, complete, complete_text};
use sk_graph::reduce;
use sk_lang::read_sketch;
use sk_lines::ReadError;
use sk_plan::judgement_of;
use std::alloc::Global;

/// The answer of `complete` to an input.
pub fn completed(alloc: Global, bytes: &[u8]) -> Result<Answer, NoMemory>
    ensures { IfOk result (λ answer. IsCompleteAnswer bytes.now answer.status answer.text) }
{
    match read_sketch(alloc, bytes) {
        Ok(sketch) => completed_or_not(alloc, &sketch),
        Err(ReadError::Refused(refusal)) => refused(alloc, &refusal),
        Err(ReadError::NoMemory) => Err(NoMemory),
    }
}

/// A completion of the sketch, or why none is given.
fn completed_or_not(alloc: Global, s: &Sketch) -> Result<Answer, NoMemory>
    requires sound { IsSoundSketch s.now }
    requires some { 0 < length s.now.elements }
    ensures { IfOk result (λ answer. IsCompletedOrNot s.now answer.status answer.text) }
{
    let graph = reduce(alloc, s)?;
    let judgement = judgement_of(alloc, &graph)?;
    let completion = complete(alloc, s)?;
    Ok(Answer {
        status: status_of(&completion),
        text: complete_text(alloc, s, &judgement, &completion)?,
    })
}

/// Done where a completion is given.
fn status_of(completion: &Completion) -> Status
    ensures { result ≡ completion_status completion.now }
{
    match completion {
        Completion::Done(_) => Status::Done,
        Completion::Without(_) => Status::NotWell,
    }
}
