// The text of a completion.
ghost use Rattle.std.specs.Prelude.{◌≡◌, ◌++◌, IfOk};
ghost use Rattle.sk_report.specs.CheckReport.{check_report};
ghost use Rattle.sk_complete.specs.CompletionText.{reason_word, no_completion, completion_text};

use crate::completion::{Completion, Reason};
use sk_base::{NoMemory, Sketch, Text};
use sk_lang::write_sketch;
use sk_report::check_text;
use sk_verdict::Judgement;
use std::alloc::Global;

/// The canonical text of a completion of the sketch. Where there is none, the line that says why, and behind it the
/// check report of the sketch by this judgement.
pub fn complete_text(
    alloc: Global,
    s: &Sketch,
    judgement: &Judgement,
    completion: &Completion,
) -> Result<Text, NoMemory>
    ensures { IfOk result (λ text. text ≡ completion_text s.now judgement.now completion.now) }
{
    match completion {
        Completion::Done(whole) => write_sketch(alloc, whole),
        Completion::Without(reason) => without_text(alloc, s, judgement, *reason),
    }
}

/// Why there is no completion, and the check report.
fn without_text(
    alloc: Global,
    s: &Sketch,
    judgement: &Judgement,
    reason: Reason,
) -> Result<Text, NoMemory>
    ensures { IfOk result (λ text. text ≡ no_completion reason ++ check_report s.now judgement.now) }
{
    let word = reason_word(reason);
    let mut text = Text::new(alloc);
    text.put(format!(in alloc; "no completion {word}\n")?.as_bytes())?;
    text.put(check_text(alloc, s, judgement)?.as_bytes())?;
    Ok(text)
}

fn reason_word(reason: Reason) -> &'static str
    ensures { result.now ≡ reason_word reason }
{
    match reason {
        Reason::Over => "over",
        Reason::Lines => "lines",
        Reason::Angles => "angles",
        Reason::Enough => "enough",
        Reason::Stuck => "stuck",
    }
}
