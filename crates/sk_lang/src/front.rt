ghost use Rattle.std.specs.Prelude.{◌≡◌, ◌+◌, ◌<◌, ◌≤◌, length, take, drop, None, Err, IfOk, IfErr};
ghost use Rattle.sk_base.specs.SoundSketch.{IsSoundSketch};
ghost use Rattle.sk_lines.specs.Lines.{lines_in};
ghost use Rattle.sk_lang.specs.Codes.{code_of};
ghost use Rattle.sk_lang.specs.Progress.{progress_after, size_of};
ghost use Rattle.sk_lines.specs.Refusals.{IsRefusal};
ghost use Rattle.sk_lang.specs.declared.progress.Progress.TheVariants.{Before, After};
ghost use Rattle.sk_lang.specs.Reading.{progress_along};
ghost use Rattle.sk_lang.specs.Front.{without_end, ReadsFront, IsFrontRefusal};

use crate::header::{after_header, after_last};
use crate::progress::Progress;
use crate::within::after_entry;
use sk_base::Sketch;
use sk_lines::{Code, EntryError, ReadError, Version, split_line};
use std::alloc::Global;

/// The most bytes of a text.
const MOST_BYTES: usize = 1_048_576;

/// A sketch at the front of a text: how many bytes and lines it takes up to its `end`, with the line
/// feed behind it where one stands.
#[derive(Drop)]
pub struct Front {
    pub sketch: Sketch,
    pub used: u32,
    pub lines: u32,
}

/// A front, and the version of its text.
#[derive(Drop)]
pub(crate) struct Opened {
    pub(crate) version: Version,
    pub(crate) front: Front,
}

/// Reads a text up to the `end` of its sketch. What follows is not looked at, but counts among the bytes
/// of the text, of which there may be 1,048,576.
pub fn read_sketch_front(alloc: Global, bytes: &[u8]) -> Result<Front, ReadError>
    ensures reads { IfOk result (ReadsFront bytes.now) }
    ensures sound { IfOk result (λ front. IsSoundSketch front.sketch) }
    ensures some { IfOk result (λ front. 0 < length front.sketch.elements) }
    ensures lines { IfOk result (λ front. front.lines + length (lines_in (drop front.used bytes.now)) ≤ length bytes.now) }
    ensures refuses { IfErr result (IsFrontRefusal bytes.now) }
{
    Ok(read_front(alloc, bytes)?.front)
}

/// Reads the lines one after another, up to `end`.
pub(crate) fn read_front(alloc: Global, bytes: &[u8]) -> Result<Opened, ReadError>
    ensures reads { IfOk result (λ opened. ReadsFront bytes.now opened.front) }
    ensures version { IfOk result (λ opened. progress_along Before (lines_in (take opened.front.used bytes.now)) ≡ After opened.version opened.front.sketch) }
    ensures few { IfOk result (λ opened. opened.front.lines ≤ opened.front.used) }
    ensures refuses { IfErr result (IsFrontRefusal bytes.now) }
{
    if bytes.len() > MOST_BYTES {
        return Err(ReadError::refused(0, Code::E20));
    }
    let mut progress = Progress::Before;
    let mut lines = 0;
    let mut rest = bytes;
    while !rest.is_empty() {
        let (line, after) = split_line(rest);
        lines += 1;
        let further = match after_line(alloc, progress, line) {
            Ok(further) => further,
            Err(error) => return Err(error.at_line(lines)),
        };
        match further {
            Progress::After(version, sketch) => {
                let used = (bytes.len() - after.len()) as u32;
                let front = Front {
                    sketch,
                    used,
                    lines,
                };
                return Ok(Opened { version, front });
            }
            unended => progress = unended,
        }
        rest = after;
    }
    Err(without_end(progress, lines))
}

/// The refusal of a text that ends before its sketch does.
fn without_end(progress: Progress, lines: u32) -> ReadError
    requires { lines < 4294967295 }
    ensures { result ≡ without_end progress lines }
{
    match progress {
        Progress::Before => ReadError::refused(0, Code::E18),
        _ => ReadError::refused(lines + 1, Code::E16),
    }
}

/// How far the text has been read behind the next line.
fn after_line(alloc: Global, progress: Progress, line: &[u8]) -> Result<Progress, EntryError>
    requires { size_of progress < 4294967295 }
    ensures clean { IfOk result (λ _. code_of progress line.now ≡ None) }
    ensures progress { IfOk result (λ after. after ≡ progress_after progress line.now) }
    ensures size { IfOk result (λ after. size_of after ≤ size_of progress + 1) }
    ensures refused { IfErr result (IsRefusal (code_of progress line.now)) }
{
    match progress {
        Progress::Before => after_header(alloc, line),
        Progress::Within(version, draft) => after_entry(alloc, version, draft, line),
        Progress::After(version, sketch) => after_last(alloc, version, sketch, line),
    }
}
