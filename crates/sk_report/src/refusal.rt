// The refusal of a line.
ghost use Rattle.std.specs.Prelude.{◌≡◌, IfOk};
ghost use Rattle.sk_report.specs.RefusalLine.{refusal_line};

use sk_base::{NoMemory, Text};
use sk_lines::Refusal;
use std::alloc::Global;

/// The one line that says which line is refused, and why.
pub fn refused_text(alloc: Global, r: &Refusal) -> Result<Text, NoMemory>
    ensures { IfOk result (λ text. text ≡ refusal_line r.now) }
{
    let line = r.line;
    let code = r.code.text();
    let word = r.code.word();
    let refusal = format!(in alloc; "refused line {line} {code} {word}\n")?;
    let mut text = Text::new(alloc);
    text.put(refusal.as_bytes())?;
    Ok(text)
}
