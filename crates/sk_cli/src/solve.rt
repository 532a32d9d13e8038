// The commands `solve` and `dxf`.
ghost use Rattle.std.specs.Prelude.{IfOk};
ghost use Rattle.sk_cli.specs.Outcome.{IsSolveAnswer};

use crate::solving::{Report, solved};
use sk_answers::{Answer, refused};
use sk_base::NoMemory;
use sk_lang::read_sketch;
use sk_lines::ReadError;
use sk_request::Request;
use std::alloc::Global;

/// The answer to an input whose sketch is placed, with this report.
pub fn solve(
    alloc: Global,
    request: Request,
    report: Report,
    bytes: &[u8],
) -> Result<Answer, NoMemory>
    ensures { IfOk result (λ answer. IsSolveAnswer report request bytes.now answer.status answer.text) }
{
    match read_sketch(alloc, bytes) {
        Ok(sketch) => solved(alloc, request, report, &sketch),
        Err(ReadError::Refused(refusal)) => refused(alloc, &refusal),
        Err(ReadError::NoMemory) => Err(NoMemory),
    }
}
