ghost use Rattle.std.specs.Prelude.{◌≡◌, ◌+◌, ◌≤◌, ◌<◌, length, map, None, IfOk, IfErr, MatchResult};
ghost use Rattle.sk_lines.specs.Words.{StandInOrder, bytes_of};
ghost use Rattle.sk_lang.specs.declared.progress.Progress.TheVariants.{Within, After};
ghost use Rattle.sk_lang.specs.Codes.{code_of, other_rows};
ghost use Rattle.sk_lines.specs.FirstCode.{first_code};
ghost use Rattle.sk_lang.specs.Progress.{progress_after, size_of};
ghost use Rattle.sk_lines.specs.Refusals.{IsRefusal};

use crate::draft::Draft;
use crate::progress::Progress;
use sk_base::{ConId, Elem, Sketch};
use sk_entry::{Entry, Scope, entry_in};
use sk_lines::{Code, EntryError, Version, Word, is_word, word};
use std::alloc::Global;

/// How far the text has been read behind a line within the sketch.
pub(crate) fn after_entry(
    alloc: Global,
    version: Version,
    draft: Draft,
    line: &[u8],
) -> Result<Progress, EntryError>
    requires { size_of (Within version draft) < 4294967295 }
    ensures clean { IfOk result (λ _. code_of (Within version draft) line.now ≡ None) }
    ensures progress { IfOk result (λ after. after ≡ progress_after (Within version draft) line.now) }
    ensures size { IfOk result (λ after. size_of after ≤ size_of (Within version draft) + 1) }
    ensures refused { IfErr result (IsRefusal (code_of (Within version draft) line.now)) }
{
    let elem = Elem(draft.sketch().elements.len() as u32 + 1);
    let con = ConId(draft.sketch().constraints.len() as u32 + 1);
    match entry_in(alloc, version, &draft, line, elem, con)? {
        Entry::Blank => Ok(Progress::Within(version, draft)),
        Entry::Element(element) => Ok(Progress::Within(version, draft.with_element(element)?)),
        Entry::Constraint(constraint) => Ok(Progress::Within(
            version,
            draft.with_constraint(constraint)?,
        )),
        Entry::Other(words) => after_end(
            version,
            draft.into_sketch(),
            line,
            words.items.as_slice(),
        ),
    }
}

/// How far the text has been read behind a line whose first word is no keyword.
fn after_end(
    version: Version,
    sketch: Sketch,
    line: &[u8],
    words: &[Word],
) -> Result<Progress, EntryError>
    requires some { 0 < length words.now }
    requires order { StandInOrder 0 words.now (length line.now) }
    ensures { let ws = map (bytes_of line.now) words.now in MatchResult result
        (λ after. (first_code (other_rows sketch ws) ≡ None) × (after ≡ After version sketch))
        (IsRefusal (first_code (other_rows sketch ws))) }
{
    if !is_word(word(line, words, 0), "end") {
        return Err(EntryError::Refused(Code::E2));
    }
    if words.len() != 1 {
        return Err(EntryError::Refused(Code::E3));
    }
    if sketch.elements.is_empty() {
        return Err(EntryError::Refused(Code::E18));
    }
    Ok(Progress::After(version, sketch))
}
