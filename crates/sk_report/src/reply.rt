// What the lines of a session are answered.
ghost use Rattle.std.specs.Prelude.{◌≡◌, IfOk};
ghost use Rattle.sk_report.specs.ReplyLines.{done_line, declared_line, constrained_line, refused_line};

use sk_base::{ConId, Elem, NoMemory, Sketch, Text};
use sk_lines::Code;
use sk_text::put_name;
use std::alloc::Global;

/// The answer to a change or an undo.
pub fn done_text(alloc: Global) -> Result<Text, NoMemory>
    ensures { IfOk result (λ text. text ≡ done_line) }
{
    let mut text = Text::new(alloc);
    text.put(b"ok\n")?;
    Ok(text)
}

/// The answer to an element line.
pub fn declared_text(alloc: Global, s: &Sketch, e: Elem) -> Result<Text, NoMemory>
    ensures { IfOk result (λ text. text ≡ declared_line s.now e) }
{
    let mut text = Text::new(alloc);
    text.put(b"ok")?;
    put_name(&mut text, s, e)?;
    text.put(b"\n")?;
    Ok(text)
}

/// The answer to a constraint line.
pub fn constrained_text(alloc: Global, k: ConId) -> Result<Text, NoMemory>
    ensures { IfOk result (λ text. text ≡ constrained_line k) }
{
    let number = k.0;
    let line = format!(in alloc; "ok c{number}\n")?;
    let mut text = Text::new(alloc);
    text.put(line.as_bytes())?;
    Ok(text)
}

/// The answer to a line with that code.
pub fn code_text(alloc: Global, code: Code) -> Result<Text, NoMemory>
    ensures { IfOk result (λ text. text ≡ refused_line code) }
{
    let letters = code.text();
    let word = code.word();
    let line = format!(in alloc; "refused {letters} {word}\n")?;
    let mut text = Text::new(alloc);
    text.put(line.as_bytes())?;
    Ok(text)
}
