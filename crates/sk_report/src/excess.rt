// The lines on what a drawing says too much.
ghost use Rattle.std.specs.Prelude.{◌≡◌, ◌++◌, OnOk};
ghost use Rattle.sk_report.specs.ExcessReport.{left_words, left_lines, is_repeat, repeat_word, off_unit, turned_words, line_of_off, off_line};

use crate::fault::sign_text;
use crate::solve::put_number;
use sk_base::{ConId, NoMemory, Sketch, Text};
use sk_entry::put_constraint_words;
use sk_tolerance::{OffBy, Turned};
use std::alloc::Global;

/// Puts a line for each constraint that is left out.
pub fn put_left(alloc: Global, text: &mut Text, s: &Sketch, left: &[ConId]) -> Result<(), NoMemory>
    ensures { OnOk result (text.new ≡ text.old ++ left_lines s.now left.now) }
{
    for number in left {
        put_left_words(alloc, text, s, *number)?;
        text.put(b"\n")?;
    }
    Ok(())
}

/// Puts the constraint by its number and its line.
pub fn put_left_words(
    alloc: Global,
    text: &mut Text,
    s: &Sketch,
    number: ConId,
) -> Result<(), NoMemory>
    ensures { OnOk result (text.new ≡ text.old ++ left_words s.now number) }
{
    let digits = number.0;
    text.put(format!(in alloc; "c{digits} : ")?.as_bytes())?;
    put_constraint_words(text, s, number)
}

/// Puts the line of a constraint that is left out and off by so much: that it repeats what the others
/// say, where it isn't turned and is off by no more than the limit, and else that it contradicts them.
pub fn put_off(
    alloc: Global,
    text: &mut Text,
    s: &Sketch,
    limit: u64,
    number: ConId,
    off: &OffBy,
) -> Result<(), NoMemory>
    ensures { OnOk result (text.new ≡ text.old ++ off_line s.now limit number off.now) }
{
    put_line_of_off(alloc, text, s, repeat_word(limit, off), number, off)
}

/// Puts the line of a constraint: these words, by how much it is off, and its sign where that is turned over.
pub fn put_line_of_off(
    alloc: Global,
    text: &mut Text,
    s: &Sketch,
    words: &str,
    number: ConId,
    off: &OffBy,
) -> Result<(), NoMemory>
    ensures { OnOk result (text.new ≡ text.old ++ line_of_off s.now words.now number off.now) }
{
    put_left_words(alloc, text, s, number)?;
    text.put(words.as_bytes())?;
    put_number(text, i128::from(off.off))?;
    text.put(off_unit(off.length).as_bytes())?;
    put_turned(alloc, text, off.turned)?;
    text.put(b"\n")
}

/// Whether the constraint repeats what the others say, or contradicts them.
fn repeat_word(limit: u64, off: &OffBy) -> &'static str
    ensures { result.now ≡ repeat_word (is_repeat limit off.now) }
{
    if off.turned.is_none() && off.off.unsigned_abs() <= limit {
        " repeat off"
    } else {
        " conflict off"
    }
}

fn off_unit(length: bool) -> &'static str
    ensures { result.now ≡ off_unit length }
{
    if length { " nm" } else { " ppb" }
}

/// Puts the sign that isn't placed as it is drawn.
fn put_turned(alloc: Global, text: &mut Text, turned: Option<Turned>) -> Result<(), NoMemory>
    ensures { OnOk result (text.new ≡ text.old ++ turned_words turned) }
{
    match turned {
        None => Ok(()),
        Some(turned) => {
            let drawn = sign_text(turned.drawn);
            text.put(format!(in alloc; " turned drawn {drawn} placed")?.as_bytes())?;
            put_number(text, i128::from(turned.placed))?;
            Ok(())
        }
    }
}
