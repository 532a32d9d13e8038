ghost use Rattle.std.specs.Prelude.{◌≡◌, ◌<◌, ◌≤◌, length, take, IfOk, IfErr};
ghost use Rattle.sk_base.specs.SoundSketch.{IsSoundSketch};
ghost use Rattle.sk_lang.specs.Front.{ReadsFront};
ghost use Rattle.sk_lang.specs.declared.progress.Progress.TheVariants.{Before, After};
ghost use Rattle.sk_lines.specs.Lines.{lines_in};
ghost use Rattle.sk_lang.specs.Reading.{progress_along, Reads, IsRefusalOf};

use crate::front::{Opened, read_front};
use crate::header::behind_end;
use sk_base::Sketch;
use sk_lines::{ReadError, split_line};
use std::alloc::Global;

/// The sketch that the text is read as: all bytes are read, and only blank lines follow its `end`.
pub fn read_sketch(alloc: Global, bytes: &[u8]) -> Result<Sketch, ReadError>
    ensures reads { IfOk result (Reads bytes.now) }
    ensures sound { IfOk result IsSoundSketch }
    ensures some { IfOk result (λ s. 0 < length s.elements) }
    ensures refuses { IfErr result (IsRefusalOf bytes.now) }
{
    let opened = read_front(alloc, bytes)?;
    read_behind(alloc, bytes, opened)
}

/// Reads on behind the `end` of the sketch, where only blank lines may stand.
fn read_behind(alloc: Global, bytes: &[u8], opened: Opened) -> Result<Sketch, ReadError>
    requires front { ReadsFront bytes.now opened.front }
    requires version { progress_along Before (lines_in (take opened.front.used bytes.now)) ≡ After opened.version opened.front.sketch }
    requires few { opened.front.lines ≤ opened.front.used }
    ensures reads { IfOk result (Reads bytes.now) }
    ensures refuses { IfErr result (IsRefusalOf bytes.now) }
{
    let Opened { version, front } = opened;
    let mut number = front.lines;
    let mut rest = &bytes[front.used as usize..];
    while !rest.is_empty() {
        let (line, after) = split_line(rest);
        number += 1;
        match behind_end(alloc, version, line) {
            Ok(()) => rest = after,
            Err(error) => return Err(error.at_line(number)),
        }
    }
    Ok(front.sketch)
}
