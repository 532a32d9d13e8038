// The check report.
ghost use Rattle.std.specs.Prelude.{◌≡◌, ◌++◌, IfOk, OnOk};
ghost use Rattle.sk_report.specs.CheckReport.{verdict_word, part_word, part_head, part_line, part_lines, parts_head, check_head, check_report};

use sk_base::{NoMemory, Sketch, Text};
use sk_text::put_names;
use sk_verdict::{Judgement, Part, Verdict};
use std::alloc::Global;

/// The check report: the verdict, three counts, and a line for each part.
pub fn check_text(alloc: Global, s: &Sketch, j: &Judgement) -> Result<Text, NoMemory>
    ensures { IfOk result (λ text. text ≡ check_report s.now j.now) }
{
    let mut text = Text::new(alloc);
    put_head(alloc, &mut text, s, j)?;
    put_parts(alloc, &mut text, s, j.parts.as_slice())?;
    Ok(text)
}

/// The head of a report on parts: the verdict, and how many parts there are.
pub fn parts_head_text(alloc: Global, j: &Judgement) -> Result<Text, NoMemory>
    ensures { IfOk result (λ text. text ≡ parts_head j.now) }
{
    let verdict = verdict_word(j.verdict);
    let parts = j.parts.len();
    let head = format!(in alloc; "verdict {verdict}\nparts {parts}\n")?;
    let mut text = Text::new(alloc);
    text.put(head.as_bytes())?;
    Ok(text)
}

/// The line of a part, as it stands in the check report with this number.
pub fn part_text(alloc: Global, s: &Sketch, number: usize, part: &Part) -> Result<Text, NoMemory>
    ensures { IfOk result (λ text. text ≡ part_line s.now number part.now) }
{
    let mut text = Text::new(alloc);
    put_part(alloc, &mut text, s, number, part)?;
    Ok(text)
}

/// Puts the four lines before those of the parts.
fn put_head(alloc: Global, text: &mut Text, s: &Sketch, j: &Judgement) -> Result<(), NoMemory>
    ensures { OnOk result (text.new ≡ text.old ++ check_head s.now j.now) }
{
    let verdict = verdict_word(j.verdict);
    let elements = s.elements.len();
    let constraints = s.constraints.len();
    let parts = j.parts.len();
    let head = format!(in alloc;
        "verdict {verdict}\nelements {elements}\nconstraints {constraints}\nparts {parts}\n"
    )?;
    text.put(head.as_bytes())
}

/// Puts a line for each part, numbered from 1.
fn put_parts(alloc: Global, text: &mut Text, s: &Sketch, parts: &[Part]) -> Result<(), NoMemory>
    ensures { OnOk result (text.new ≡ text.old ++ part_lines s.now 1 parts.now) }
{
    for (i, part) in parts.iter().enumerate() {
        put_part(alloc, text, s, i + 1, part)?;
    }
    Ok(())
}

fn put_part(
    alloc: Global,
    text: &mut Text,
    s: &Sketch,
    number: usize,
    part: &Part,
) -> Result<(), NoMemory>
    ensures { OnOk result (text.new ≡ text.old ++ part_line s.now number part.now) }
{
    put_part_head(alloc, text, number, part)?;
    put_names(text, s, part.elements.as_slice())?;
    text.put(b"\n")
}

/// Puts what stands before the names of a part.
fn put_part_head(alloc: Global, text: &mut Text, number: usize, part: &Part) -> Result<(), NoMemory>
    ensures { OnOk result (text.new ≡ text.old ++ part_head number part.now) }
{
    let word = part_word(part);
    let elements = part.elements.len();
    let held = part.held;
    let due = part.due;
    let head = format!(in alloc;
        "part {number} {word} elements {elements} held {held} due {due} :"
    )?;
    text.put(head.as_bytes())
}

fn verdict_word(verdict: Verdict) -> &'static str
    ensures { result.now ≡ verdict_word verdict }
{
    match verdict {
        Verdict::Well => "well",
        Verdict::Over => "over",
        Verdict::Several => "open",
    }
}

fn part_word(part: &Part) -> &'static str
    ensures { result.now ≡ part_word part.now }
{
    if part.is_over() { "over" } else { "sound" }
}
