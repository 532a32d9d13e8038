ghost use Rattle.std.specs.Prelude.{◌≡◌, ◌+◌, ◌≤◌, ◌<◌, length, map, [], None, IfOk, IfErr};
ghost use Rattle.sk_lines.specs.Words.{bytes_of, StandInOrder};
ghost use Rattle.sk_lines.specs.Comments.{words_under};
ghost use Rattle.sk_lang.specs.Header.{version_in, version_of};
ghost use Rattle.sk_lang.specs.declared.progress.Progress.TheVariants.{Before, After};
ghost use Rattle.sk_base.specs.declared.Sketch.{Sketch};
ghost use Rattle.sk_lang.specs.Codes.{code_of};
ghost use Rattle.sk_lang.specs.Progress.{progress_after, size_of};
ghost use Rattle.sk_lines.specs.Refusals.{IsRefusal};

use crate::draft::Draft;
use crate::progress::Progress;
use sk_base::Sketch;
use sk_lines::{Code, EntryError, Version, Word, is_word, split_words, word, words_under};
use std::alloc::Global;

/// How far the text has been read behind a line before which no line has a word.
pub(crate) fn after_header(alloc: Global, line: &[u8]) -> Result<Progress, EntryError>
    ensures clean { IfOk result (λ _. code_of Before line.now ≡ None) }
    ensures progress { IfOk result (λ after. after ≡ progress_after Before line.now) }
    ensures size { IfOk result (λ after. size_of after ≤ 1) }
    ensures refused { IfErr result (IsRefusal (code_of Before line.now)) }
{
    let words = split_words(alloc, line)?;
    if words.items.is_empty() {
        return Ok(Progress::Before);
    }
    match version_in(line, words.items.as_slice()) {
        None => Err(EntryError::Refused(Code::E1)),
        Some(version) => Ok(Progress::Within(version, Draft::new(alloc))),
    }
}

/// The version that the words of a header name.
fn version_in(line: &[u8], words: &[Word]) -> Option<Version>
    requires { StandInOrder 0 words.now (length line.now) }
    ensures { result ≡ version_in (map (bytes_of line.now) words.now) }
{
    if words.len() != 2 || !is_word(word(line, words, 0), "sketch") {
        return None;
    }
    version_of(word(line, words, 1))
}

fn version_of(word: &[u8]) -> Option<Version>
    ensures { result ≡ version_of word.now }
{
    if is_word(word, "1") {
        return Some(Version::One);
    }
    if is_word(word, "2") {
        return Some(Version::Two);
    }
    None
}

/// How far the text has been read behind a line that follows the `end` of its sketch.
pub(crate) fn after_last(
    alloc: Global,
    version: Version,
    sketch: Sketch,
    line: &[u8],
) -> Result<Progress, EntryError>
    ensures clean { IfOk result (λ _. code_of (After version sketch) line.now ≡ None) }
    ensures progress { IfOk result (λ after. after ≡ progress_after (After version sketch) line.now) }
    ensures size { IfOk result (λ after. size_of after ≤ size_of (After version sketch) + 1) }
    ensures refused { IfErr result (IsRefusal (code_of (After version sketch) line.now)) }
{
    match behind_end(alloc, version, line) {
        Ok(()) => Ok(Progress::After(version, sketch)),
        Err(error) => Err(error),
    }
}

/// Tests a line that follows the `end` of a sketch.
pub(crate) fn behind_end(alloc: Global, version: Version, line: &[u8]) -> Result<(), EntryError>
    ensures clean { IfOk result (λ _. (s : Sketch) → code_of (After version s) line.now ≡ None) }
    ensures blank { IfOk result (λ _. words_under version line.now ≡ []) }
    ensures refused { IfErr result (λ error. (s : Sketch) → IsRefusal (code_of (After version s) line.now) error) }
{
    let words = words_under(alloc, version, line)?;
    if words.items.is_empty() {
        return Ok(());
    }
    Err(EntryError::Refused(Code::E17))
}
