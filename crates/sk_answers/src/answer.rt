// What a command answers.
ghost use Rattle.std.specs.Prelude.{◌≡◌, IfOk};
ghost use Rattle.sk_report.specs.RefusalLine.{refusal_line};

use crate::status::Status;
use sk_base::{NoMemory, Text};
use sk_lines::Refusal;
use sk_report::refused_text;
use std::alloc::Global;

/// A status, and the text that is written with it.
#[derive(Drop)]
pub struct Answer {
    pub status: Status,
    pub text: Text,
}

/// The answer where an input is refused.
pub fn refused(alloc: Global, refusal: &Refusal) -> Result<Answer, NoMemory>
    ensures status { IfOk result (λ answer. answer.status ≡ Status.Refused) }
    ensures text { IfOk result (λ answer. answer.text ≡ refusal_line refusal.now) }
{
    Ok(Answer {
        status: Status::Refused,
        text: refused_text(alloc, refusal)?,
    })
}
