// The lines on how far given places are off.
ghost use Rattle.std.specs.Prelude.{◌≡◌, ◌++◌, IfOk, OnOk};
ghost use Rattle.sk_answers.specs.MeasureReport.{measured_line, unplaced_line};

use sk_base::{ConId, Elem, NoMemory, Sketch, Text};
use sk_report::put_line_of_off;
use sk_text::put_name;
use sk_tolerance::OffBy;
use std::alloc::Global;

/// Puts the line of a constraint that is off by so much where the elements are said to lie.
pub(crate) fn put_measured(
    alloc: Global,
    text: &mut Text,
    s: &Sketch,
    number: ConId,
    off: &OffBy,
) -> Result<(), NoMemory>
    ensures { OnOk result (text.new ≡ text.old ++ measured_line s.now number off.now) }
{
    put_line_of_off(alloc, text, s, " off", number, off)
}

/// The one line that names an element without a place, or a circle with another radius than its own.
pub(crate) fn unplaced_text(alloc: Global, s: &Sketch, elem: Elem) -> Result<Text, NoMemory>
    ensures { IfOk result (λ text. text ≡ unplaced_line s.now elem) }
{
    let mut text = Text::new(alloc);
    text.put(b"measure fails element")?;
    put_name(&mut text, s, elem)?;
    text.put(b"\n")?;
    Ok(text)
}
