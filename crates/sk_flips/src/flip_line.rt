// One line among flips.
ghost use Rattle.std.specs.Prelude.{◌≡◌, ◌<◌, [], ◌∷◌, ◌++◌, length, map, drop, Some, None, IfOk, IfErr, MatchResult, false};
ghost use Rattle.std.specs.List.{list_any};
ghost use Rattle.sk_lines.specs.Words.{bytes_of, StandInOrder};
ghost use Rattle.sk_lines.specs.declared.Code.TheVariants.{E4};
ghost use Rattle.sk_lines.specs.ClusterWords.{has_twins};
ghost use Rattle.sk_lines.specs.FirstCode.{first_code};
ghost use Rattle.sk_lines.specs.Refusals.{IsRefusal};
ghost use Rattle.sk_flips.specs.FlipLines.{step_of, step_named, is_no_step, flip_rows, word_rows, code_of};
ghost use Rattle.sk_flips.specs.FlipReading.{among, AddsWords, Adds, IsNameRefusal};

use sk_base::{List, Name};
use sk_lines::{
    Code, EntryError, LineReader, Word, check_end, cluster_named, is_word, split_words, word,
};
use std::alloc::Global;

/// The most lines of flips.
const MOST_FLIPS: usize = 64;

/// The most words of a line of flips: the first word, and 16 names.
const MOST_WORDS: usize = 17;

/// Where a line stands: among the flips, or past their `end`.
#[derive(Clone, Copy, Debug, PartialEq, Eq)]
pub(crate) enum Place {
    Among,
    Past,
}

/// The flips that were read, and where the next line stands.
#[derive(Drop)]
pub(crate) struct SoFar {
    pub(crate) place: Place,
    pub(crate) flips: List<List<Name>>,
}

/// The lines of flips, up to their `end`.
pub(crate) struct FlipLines;

impl LineReader for FlipLines {
    type SoFar = SoFar;

    ghost code_of = { λ _ so_far line. code_of so_far line };

    ghost adds = { λ _ so_far line after. Adds so_far line after };

    fn after_line(&self, alloc: Global, so_far: SoFar, line: &[u8]) -> Result<SoFar, EntryError> {
        let words = split_words(alloc, line)?;
        let words = words.items.as_slice();
        if words.is_empty() {
            return Ok(so_far);
        }
        match so_far.place {
            Place::Among => after_words(alloc, so_far.flips, line, words),
            Place::Past => Err(EntryError::Refused(Code::E17)),
        }
    }
}

/// What was read behind the words of a line among the flips.
fn after_words(
    alloc: Global,
    flips: List<List<Name>>,
    line: &[u8],
    words: &[Word],
) -> Result<SoFar, EntryError>
    requires some { 0 < length words.now }
    requires order { StandInOrder 0 words.now (length line.now) }
    ensures { let ws = map (bytes_of line.now) words.now in let so_far = among flips in MatchResult result
        (AddsWords so_far ws)
        (IsRefusal (first_code (word_rows so_far ws))) }
{
    if is_word(word(line, words, 0), "flip") {
        return with_flip(alloc, flips, line, words);
    }
    check_end(line, words).map_err(EntryError::Refused)?;
    Ok(SoFar {
        place: Place::Past,
        flips,
    })
}

/// The flips with the steps of a line at their end.
fn with_flip(
    alloc: Global,
    mut flips: List<List<Name>>,
    line: &[u8],
    words: &[Word],
) -> Result<SoFar, EntryError>
    requires some { 0 < length words.now }
    requires order { StandInOrder 0 words.now (length line.now) }
    ensures { let rest = drop 1 (map (bytes_of line.now) words.now) in MatchResult result
        (λ after. (first_code (flip_rows flips rest) ≡ None) × (after ≡ among (flips ++ map step_named rest ∷ [])))
        (IsRefusal (first_code (flip_rows flips rest))) }
{
    if words.len() > MOST_WORDS {
        return Err(EntryError::Refused(Code::E3));
    }
    let names = names_behind(alloc, line, words)?;
    if has_twins(names.as_slice()) {
        return Err(EntryError::Refused(Code::E10));
    }
    if flips.len() >= MOST_FLIPS {
        return Err(EntryError::Refused(Code::E21));
    }
    flips.push(names)?;
    Ok(SoFar {
        place: Place::Among,
        flips,
    })
}

/// The steps that the words behind the first name.
fn names_behind(alloc: Global, line: &[u8], words: &[Word]) -> Result<List<Name>, EntryError>
    requires some { 0 < length words.now }
    requires order { StandInOrder 0 words.now (length line.now) }
    ensures { let rest = drop 1 (map (bytes_of line.now) words.now) in MatchResult result
        (λ names. (list_any is_no_step rest ≡ false) × (names ≡ map step_named rest))
        (IsNameRefusal (list_any is_no_step rest)) }
{
    let mut names = List::new(alloc);
    for i in 1..words.len() {
        match step_of(word(line, words, i)) {
            Ok(name) => names.push(name)?,
            Err(code) => return Err(EntryError::Refused(code)),
        }
    }
    Ok(names)
}

/// The step that a word names.
fn step_of(word: &[u8]) -> Result<Name, Code>
    ensures { MatchResult result
        (λ name. step_of word.now ≡ Some name)
        (λ code. (step_of word.now ≡ None) × (code ≡ E4)) }
{
    match cluster_named(word)? {
        Name::Step(number) => Ok(Name::Step(number)),
        Name::Con(_) => Err(Code::E4),
    }
}

/// Whether two of the names are one.
fn has_twins(names: &[Name]) -> bool
    ensures { result ≡ has_twins names.now }
{
    for i in 0..names.len() {
        if names[i].is_among(&names[i + 1..]) {
            return true;
        }
    }
    false
}
