// What an offer is answered.
ghost use Rattle.std.specs.Prelude.{◌≡◌, IfOk, string_bytes};
ghost use Rattle.sk_report.specs.AnswerLine.{answer_words, answer_line};

use sk_base::{NoMemory, Text};
use sk_offers::Answer;
use sk_text::cluster_name;
use std::alloc::Global;

/// The one line that answers an offer of that worker.
pub fn answer_text(alloc: Global, worker: u8, a: &Answer) -> Result<Text, NoMemory>
    ensures { IfOk result (λ text. text ≡ answer_line worker a.now) }
{
    let words = answer_words(alloc, *a)?;
    let line = format!(in alloc; "offer {worker} {words}\n")?;
    let mut text = Text::new(alloc);
    text.put(line.as_bytes())?;
    Ok(text)
}

fn answer_words(alloc: Global, answer: Answer) -> Result<String, NoMemory>
    ensures { IfOk result (λ words. string_bytes words ≡ answer_words answer) }
{
    match answer {
        Answer::Taken(name) => {
            let name = cluster_name(alloc, name)?;
            Ok(format!(in alloc; "taken {name}")?)
        }
        Answer::Stale(name) => {
            let name = cluster_name(alloc, name)?;
            Ok(format!(in alloc; "stale {name}")?)
        }
        Answer::Idle => Ok(format!(in alloc; "idle")?),
    }
}
