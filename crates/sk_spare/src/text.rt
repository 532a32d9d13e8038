// The report of spare constraints.
ghost use Rattle.std.specs.Prelude.{◌≡◌, ◌++◌, IfOk, OnOk, codes};
ghost use Rattle.std.specs.List.{flat_map};
ghost use Rattle.std.specs.Fmt.{decimal};
ghost use Rattle.sk_spare.specs.SpareReport.{spare_line, spare_report};

use sk_base::{ConId, List, NoMemory, Sketch, Text};
use sk_entry::put_constraint_words;
use std::alloc::Global;

/// How many constraints may go, and a line for each.
pub fn spare_text(alloc: Global, s: &Sketch, spares: &List<ConId>) -> Result<Text, NoMemory>
    ensures { IfOk result (λ text. text ≡ spare_report s.now spares.now) }
{
    let mut text = Text::new(alloc);
    put_count(alloc, &mut text, spares.len())?;
    put_spares(alloc, &mut text, s, spares.as_slice())?;
    Ok(text)
}

fn put_count(alloc: Global, text: &mut Text, count: usize) -> Result<(), NoMemory>
    ensures { OnOk result (text.new ≡ text.old ++ (codes "spare " ++ (decimal count ++ codes "\n"))) }
{
    let line = format!(in alloc; "spare {count}\n")?;
    text.put(line.as_bytes())
}

fn put_spares(alloc: Global, text: &mut Text, s: &Sketch, spares: &[ConId]) -> Result<(), NoMemory>
    ensures { OnOk result (text.new ≡ text.old ++ flat_map (spare_line s.now) spares.now) }
{
    for number in spares {
        put_spare(alloc, text, s, *number)?;
    }
    Ok(())
}

fn put_spare(alloc: Global, text: &mut Text, s: &Sketch, number: ConId) -> Result<(), NoMemory>
    ensures { OnOk result (text.new ≡ text.old ++ spare_line s.now number) }
{
    let digits = number.0;
    let head = format!(in alloc; "c{digits} : ")?;
    text.put(head.as_bytes())?;
    put_constraint_words(text, s, number)?;
    text.put(b"\n")
}
