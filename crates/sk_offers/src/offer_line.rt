// One line among offers.
ghost use Rattle.std.specs.Prelude.{◌≡◌, ◌<◌, [], ◌∷◌, length, map, drop, Some, None, IfOk, IfErr, MatchResult};
ghost use Rattle.sk_lines.specs.Words.{bytes_of, StandInOrder};
ghost use Rattle.sk_lines.specs.FirstCode.{first_code};
ghost use Rattle.sk_lines.specs.Refusals.{IsRefusal};
ghost use Rattle.sk_lines.specs.declared.Code.TheVariants.{E8};
ghost use Rattle.sk_offers.specs.OfferLines.{worker_of, offer_rows, word_rows, code_of, IsOfferOf};
ghost use Rattle.sk_offers.specs.OfferReading.{AddsWords, Adds, IsWithOffer};
ghost use Rattle.sk_offers.specs.declared.offer_line.Place.TheVariants.{Among};

use sk_base::List;
use sk_lines::{
    Code, EntryError, LineReader, Word, check_end, cluster_named, is_word, plain_number,
    split_words, word,
};
use sk_rules::Merge;
use std::alloc::Global;

/// The greatest worker.
const MOST_WORKER: u64 = 64;

/// A merge that a worker, from 1 to 64, offers.
#[derive(Clone, Copy, Debug, PartialEq, Eq)]
pub struct OfferLine {
    pub worker: u8,
    pub merge: Merge,
}

/// Where a line stands: among the offers, or past their `end`.
#[derive(Clone, Copy, Debug, PartialEq, Eq)]
pub(crate) enum Place {
    Among,
    Past,
}

/// The offers that were read, and where the next line stands.
#[derive(Drop)]
pub(crate) struct SoFar {
    pub(crate) place: Place,
    pub(crate) offers: List<OfferLine>,
}

/// The lines of offers, up to their `end`.
pub(crate) struct OfferReader;

impl LineReader for OfferReader {
    type SoFar = SoFar;

    ghost code_of = { λ _ so_far line. code_of so_far.place line };

    ghost adds = { λ _ so_far line after. Adds so_far line after };

    fn after_line(&self, alloc: Global, so_far: SoFar, line: &[u8]) -> Result<SoFar, EntryError> {
        let words = split_words(alloc, line)?;
        let words = words.items.as_slice();
        if words.is_empty() {
            return Ok(so_far);
        }
        match so_far.place {
            Place::Among => after_words(so_far.offers, line, words),
            Place::Past => Err(EntryError::Refused(Code::E17)),
        }
    }
}

/// What was read behind the words of a line among the offers.
fn after_words(offers: List<OfferLine>, line: &[u8], words: &[Word]) -> Result<SoFar, EntryError>
    requires some { 0 < length words.now }
    requires order { StandInOrder 0 words.now (length line.now) }
    ensures { let ws = map (bytes_of line.now) words.now in MatchResult result
        (AddsWords (record { place = Among; offers = offers }) ws)
        (IsRefusal (first_code (word_rows Among ws))) }
{
    if is_word(word(line, words, 0), "offer") {
        return with_offer(offers, line, words);
    }
    check_end(line, words).map_err(EntryError::Refused)?;
    Ok(SoFar {
        place: Place::Past,
        offers,
    })
}

/// The offers with that of a line at their end.
fn with_offer(mut offers: List<OfferLine>, line: &[u8], words: &[Word]) -> Result<SoFar, EntryError>
    requires some { 0 < length words.now }
    requires order { StandInOrder 0 words.now (length line.now) }
    ensures { let rest = drop 1 (map (bytes_of line.now) words.now) in MatchResult result
        (IsWithOffer offers rest)
        (IsRefusal (first_code (offer_rows rest))) }
{
    match offer_of(line, words) {
        Ok(offer) => {
            offers.push(offer)?;
            Ok(SoFar {
                place: Place::Among,
                offers,
            })
        }
        Err(code) => Err(EntryError::Refused(code)),
    }
}

/// What a line offers that begins with `offer`.
fn offer_of(line: &[u8], words: &[Word]) -> Result<OfferLine, Code>
    requires some { 0 < length words.now }
    requires order { StandInOrder 0 words.now (length line.now) }
    ensures { let rest = drop 1 (map (bytes_of line.now) words.now) in MatchResult result
        (λ offer. (first_code (offer_rows rest) ≡ None) × IsOfferOf rest offer)
        (λ code. first_code (offer_rows rest) ≡ Some code) }
{
    if words.len() != 4 && words.len() != 5 {
        return Err(Code::E3);
    }
    let worker = word(line, words, 1);
    let x = word(line, words, 2);
    let y = word(line, words, 3);
    if words.len() == 4 {
        return offer_of_two(worker, x, y);
    }
    let z = word(line, words, 4);
    offer_of_three(worker, x, y, z)
}

/// The offer of two clusters, by the words of its line.
fn offer_of_two(worker: &[u8], x: &[u8], y: &[u8]) -> Result<OfferLine, Code>
    ensures { let rest = worker.now ∷ x.now ∷ y.now ∷ [] in MatchResult result
        (λ offer. (first_code (offer_rows rest) ≡ None) × IsOfferOf rest offer)
        (λ code. first_code (offer_rows rest) ≡ Some code) }
{
    let worker = worker_of(worker)?;
    let x = cluster_named(x)?;
    let y = cluster_named(y)?;
    let merge = Merge::two(x, y).ok_or(Code::E10)?;
    Ok(OfferLine { worker, merge })
}

/// The offer of three clusters, by the words of its line.
fn offer_of_three(worker: &[u8], x: &[u8], y: &[u8], z: &[u8]) -> Result<OfferLine, Code>
    ensures { let rest = worker.now ∷ x.now ∷ y.now ∷ z.now ∷ [] in MatchResult result
        (λ offer. (first_code (offer_rows rest) ≡ None) × IsOfferOf rest offer)
        (λ code. first_code (offer_rows rest) ≡ Some code) }
{
    let worker = worker_of(worker)?;
    let x = cluster_named(x)?;
    let y = cluster_named(y)?;
    let z = cluster_named(z)?;
    let merge = Merge::three(x, y, z).ok_or(Code::E10)?;
    Ok(OfferLine { worker, merge })
}

/// The worker that a word is.
fn worker_of(word: &[u8]) -> Result<u8, Code>
    ensures { MatchResult result
        (λ worker. worker_of word.now ≡ Some worker)
        (λ code. (worker_of word.now ≡ None) × (code ≡ E8)) }
{
    match plain_number(2, word) {
        Some(worker) if worker <= MOST_WORKER => Ok(worker as u8),
        _ => Err(Code::E8),
    }
}
