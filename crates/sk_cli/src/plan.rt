// The command `plan`.
ghost use Rattle.std.specs.Prelude.{◌<◌, length, IfOk};
ghost use Rattle.sk_base.specs.SoundSketch.{IsSoundSketch};
ghost use Rattle.sk_cli.specs.Outcome.{IsPlanAnswer, IsPlanOrReport};

use crate::planning::{Planning, plan_or_report};
use sk_answers::{Answer, Status, refused};
use sk_base::{NoMemory, Sketch};
use sk_close_by_order::Order;
use sk_lang::read_sketch;
use sk_lines::ReadError;
use sk_report::plan_text;
use std::alloc::Global;

/// The answer of `plan` to an input.
pub fn plan(alloc: Global, order: Order, bytes: &[u8]) -> Result<Answer, NoMemory>
    ensures { IfOk result (λ answer. IsPlanAnswer order bytes.now answer.status answer.text) }
{
    match read_sketch(alloc, bytes) {
        Ok(sketch) => planned(alloc, order, &sketch),
        Err(ReadError::Refused(refusal)) => refused(alloc, &refusal),
        Err(ReadError::NoMemory) => Err(NoMemory),
    }
}

/// The plan report of the sketch, or the check report where the verdict isn't well.
fn planned(alloc: Global, order: Order, sketch: &Sketch) -> Result<Answer, NoMemory>
    requires sound { IsSoundSketch sketch.now }
    requires some { 0 < length sketch.now.elements }
    ensures { IfOk result (λ answer. IsPlanOrReport order sketch.now answer.status answer.text) }
{
    match plan_or_report(alloc, order, sketch)? {
        Planning::Planned { plan, .. } => Ok(Answer {
            status: Status::Done,
            text: plan_text(alloc, sketch, &plan)?,
        }),
        Planning::NotWell(text) => Ok(Answer {
            status: Status::NotWell,
            text,
        }),
    }
}
