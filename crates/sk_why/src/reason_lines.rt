// The line on what a constraint follows from.
ghost use Rattle.std.specs.Prelude.{◌≡◌, ◌++◌, OnOk};
ghost use Rattle.std.specs.List.{flat_map};
ghost use Rattle.sk_why.specs.WhyLines.{because_word, follows_line};

use sk_base::{ConId, NoMemory, Sketch, Text};
use sk_report::put_left_words;
use std::alloc::Global;

/// Puts the line of a constraint that is left out, with the numbers of those that it follows from.
pub(crate) fn put_follows(
    alloc: Global,
    text: &mut Text,
    s: &Sketch,
    number: ConId,
    because: &[ConId],
) -> Result<(), NoMemory>
    ensures { OnOk result (text.new ≡ text.old ++ follows_line s.now number because.now) }
{
    put_left_words(alloc, text, s, number)?;
    text.put(b" follows from")?;
    put_numbers(alloc, text, because)?;
    text.put(b"\n")
}

fn put_numbers(alloc: Global, text: &mut Text, numbers: &[ConId]) -> Result<(), NoMemory>
    ensures { OnOk result (text.new ≡ text.old ++ flat_map because_word numbers.now) }
{
    for number in numbers {
        let digits = number.0;
        text.put(format!(in alloc; " c{digits}")?.as_bytes())?;
    }
    Ok(())
}
