// One line among the places of elements.
ghost use Rattle.std.specs.Prelude.{◌≡◌, ◌<◌, length, map, Some, MatchResult};
ghost use Rattle.sk_lines.specs.Words.{bytes_of, StandInOrder};
ghost use Rattle.sk_lines.specs.FirstCode.{first_code};
ghost use Rattle.sk_lines.specs.Refusals.{IsRefusal};
ghost use Rattle.sk_claims.specs.PlaceLines.{among, word_rows, code_of};
ghost use Rattle.sk_claims.specs.PlaceReading.{AddsWords, Adds};

use crate::claim_line::{SoFar, with_element};
use crate::first_word::figure_of;
use sk_base::Sketch;
use sk_lines::{Code, EntryError, LineReader, Word, check_end, split_words, word};
use std::alloc::Global;

/// Where a line stands: among the places, or past their `end`.
#[derive(Clone, Copy, Debug, PartialEq, Eq)]
pub(crate) enum Stage {
    Among,
    Past,
}

/// The places that were read, as a claim that says no more yet, and where the next line stands.
#[derive(Drop)]
pub(crate) struct PlacesSoFar {
    pub(crate) stage: Stage,
    pub(crate) claim: SoFar,
}

/// The lines that place elements of the sketch, up to their `end`.
#[derive(Drop)]
pub(crate) struct PlaceReader<'a> {
    pub(crate) sketch: &'a Sketch,
}

impl<'a> LineReader for PlaceReader<'a> {
    type SoFar = PlacesSoFar;

    ghost code_of = { λ reader so_far line. code_of reader.sketch.now so_far line };

    ghost adds = { λ reader so_far line after. Adds reader.sketch.now so_far line after };

    fn after_line(
        &self,
        alloc: Global,
        so_far: PlacesSoFar,
        line: &[u8],
    ) -> Result<PlacesSoFar, EntryError> {
        let words = split_words(alloc, line)?;
        let words = words.items.as_slice();
        if words.is_empty() {
            return Ok(so_far);
        }
        match so_far.stage {
            Stage::Among => after_words(self.sketch, so_far.claim, line, words),
            Stage::Past => Err(EntryError::Refused(Code::E17)),
        }
    }
}

/// What was read behind the words of a line among the places.
fn after_words(
    s: &Sketch,
    claim: SoFar,
    line: &[u8],
    words: &[Word],
) -> Result<PlacesSoFar, EntryError>
    requires some { 0 < length words.now }
    requires order { StandInOrder 0 words.now (length line.now) }
    ensures { let ws = map (bytes_of line.now) words.now in let so_far = among claim in MatchResult result
        (AddsWords s.now so_far ws)
        (IsRefusal (first_code (word_rows s.now so_far ws))) }
{
    match figure_of(word(line, words, 0)) {
        Some(figure) => Ok(PlacesSoFar {
            stage: Stage::Among,
            claim: with_element(s, claim, figure, line, words)?,
        }),
        None => {
            check_end(line, words).map_err(EntryError::Refused)?;
            Ok(PlacesSoFar {
                stage: Stage::Past,
                claim,
            })
        }
    }
}
