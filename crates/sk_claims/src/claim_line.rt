// One line of a claim.
ghost use Rattle.std.specs.Prelude.{◌≡◌, ◌<◌, [], ◌∷◌, length, map, drop, Some, None, IfOk, IfErr, MatchResult};
ghost use Rattle.sk_lines.specs.Words.{bytes_of, StandInOrder};
ghost use Rattle.sk_claims.specs.declared.first_word.First.TheVariants as begins;
ghost use Rattle.sk_claims.specs.declared.first_word.Figure.TheVariants as figure;
ghost use Rattle.sk_claims.specs.ClaimLines.{tolerance, tolerance_rows, word_rows, rows_behind, code_of, tolerances_said, with_words};
ghost use Rattle.sk_claims.specs.ClaimReading.{nothing_yet, AddsWords, Adds};
ghost use Rattle.sk_lines.specs.FirstCode.{first_code, unless};
ghost use Rattle.sk_lines.specs.Refusals.{IsRefusal};

use crate::claim::Radius;
use crate::element_line::{circle_of, line_of, point_of};
use crate::first_word::{Figure, First, first_of};
use crate::number::count_of;
use crate::step_line::step_of;
use sk_base::{List, Placed, Sketch};
use sk_lines::{Code, EntryError, LineReader, Word, split_words, word};
use sk_tree::PlanStep;
use std::alloc::Global;

/// The greatest tolerance.
const TOLERANCE_LIMIT: u64 = 1 << 62;

/// The tolerances that a claim ends with, as in it.
#[derive(Clone, Copy, Debug, PartialEq, Eq)]
pub(crate) struct Tolerances {
    pub(crate) t: u64,
    pub(crate) w: u64,
}

/// The claim as far as it was read. Its tolerances are the last of it.
#[derive(Drop)]
pub(crate) struct SoFar {
    pub(crate) steps: List<PlanStep>,
    pub(crate) at: Placed,
    pub(crate) radii: List<Radius>,
    pub(crate) tolerances: Option<Tolerances>,
}

/// A claim of which nothing is read yet.
pub(crate) fn nothing_yet(alloc: Global) -> SoFar
    ensures { result ≡ nothing_yet }
{
    SoFar {
        steps: List::new(alloc),
        at: Placed {
            spots: List::new(alloc),
        },
        radii: List::new(alloc),
        tolerances: None,
    }
}

/// The lines of a claim of the sketch, up to its tolerances.
#[derive(Drop)]
pub(crate) struct ClaimReader<'a> {
    pub(crate) sketch: &'a Sketch,
}

impl<'a> LineReader for ClaimReader<'a> {
    type SoFar = SoFar;

    ghost code_of = { λ reader so_far line. code_of reader.sketch.now so_far line };

    ghost adds = { λ reader so_far line after. Adds reader.sketch.now so_far line after };

    fn after_line(&self, alloc: Global, so_far: SoFar, line: &[u8]) -> Result<SoFar, EntryError> {
        let words = split_words(alloc, line)?;
        let words = words.items.as_slice();
        if words.is_empty() {
            return Ok(so_far);
        }
        after_words(self.sketch, so_far, line, words)
    }
}

/// What is claimed with the words of the next line.
fn after_words(s: &Sketch, so_far: SoFar, line: &[u8], words: &[Word]) -> Result<SoFar, EntryError>
    requires some { 0 < length words.now }
    requires order { StandInOrder 0 words.now (length line.now) }
    ensures { let ws = map (bytes_of line.now) words.now in MatchResult result
        (AddsWords s.now so_far ws)
        (IsRefusal (first_code (word_rows s.now so_far ws))) }
{
    if so_far.tolerances.is_some() {
        return Err(EntryError::Refused(Code::E17));
    }
    match first_of(word(line, words, 0)) {
        None => Err(EntryError::Refused(Code::E2)),
        Some(First::Step) => with_step(s, so_far, line, words),
        Some(First::Element(figure)) => with_element(s, so_far, figure, line, words),
        Some(First::Tolerance) => with_tolerances(so_far, line, words),
    }
}

/// The claim with a further step.
fn with_step(
    s: &Sketch,
    mut so_far: SoFar,
    line: &[u8],
    words: &[Word],
) -> Result<SoFar, EntryError>
    requires some { 0 < length words.now }
    requires order { StandInOrder 0 words.now (length line.now) }
    ensures { let rest = drop 1 (map (bytes_of line.now) words.now) in MatchResult result
        (λ after. (first_code (rows_behind s.now so_far (Some begins.Step) rest) ≡ None) × (after ≡ with_words s.now so_far (Some begins.Step) rest))
        (IsRefusal (first_code (rows_behind s.now so_far (Some begins.Step) rest))) }
{
    let step = step_of(s, line, words).map_err(EntryError::Refused)?;
    so_far.steps.push(step)?;
    Ok(so_far)
}

/// The claim with the place of a further element.
pub(crate) fn with_element(
    s: &Sketch,
    so_far: SoFar,
    figure: Figure,
    line: &[u8],
    words: &[Word],
) -> Result<SoFar, EntryError>
    requires some { 0 < length words.now }
    requires order { StandInOrder 0 words.now (length line.now) }
    ensures { let rest = drop 1 (map (bytes_of line.now) words.now) in MatchResult result
        (λ after. (first_code (rows_behind s.now so_far (Some (begins.Element figure)) rest) ≡ None) × (after ≡ with_words s.now so_far (Some (begins.Element figure)) rest))
        (IsRefusal (first_code (rows_behind s.now so_far (Some (begins.Element figure)) rest))) }
{
    match figure {
        Figure::Point => with_placed_point(s, so_far, line, words),
        Figure::Circle => with_placed_circle(s, so_far, line, words),
        Figure::Line => with_placed_line(s, so_far, line, words),
    }
}

/// The claim with the place of a further point.
fn with_placed_point(
    s: &Sketch,
    mut so_far: SoFar,
    line: &[u8],
    words: &[Word],
) -> Result<SoFar, EntryError>
    requires some { 0 < length words.now }
    requires order { StandInOrder 0 words.now (length line.now) }
    ensures { let rest = drop 1 (map (bytes_of line.now) words.now) in MatchResult result
        (λ after. (first_code (rows_behind s.now so_far (Some (begins.Element figure.Point)) rest) ≡ None) × (after ≡ with_words s.now so_far (Some (begins.Element figure.Point)) rest))
        (IsRefusal (first_code (rows_behind s.now so_far (Some (begins.Element figure.Point)) rest))) }
{
    let spot = point_of(s, &so_far.at, line, words).map_err(EntryError::Refused)?;
    so_far.at.spots.push(spot)?;
    Ok(so_far)
}

/// The claim with the place and the radius of a further circle.
fn with_placed_circle(
    s: &Sketch,
    mut so_far: SoFar,
    line: &[u8],
    words: &[Word],
) -> Result<SoFar, EntryError>
    requires some { 0 < length words.now }
    requires order { StandInOrder 0 words.now (length line.now) }
    ensures { let rest = drop 1 (map (bytes_of line.now) words.now) in MatchResult result
        (λ after. (first_code (rows_behind s.now so_far (Some (begins.Element figure.Circle)) rest) ≡ None) × (after ≡ with_words s.now so_far (Some (begins.Element figure.Circle)) rest))
        (IsRefusal (first_code (rows_behind s.now so_far (Some (begins.Element figure.Circle)) rest))) }
{
    let (spot, radius) = circle_of(s, &so_far.at, line, words).map_err(EntryError::Refused)?;
    so_far.at.spots.push(spot)?;
    so_far.radii.push(radius)?;
    Ok(so_far)
}

/// The claim with the place of a further line.
fn with_placed_line(
    s: &Sketch,
    mut so_far: SoFar,
    line: &[u8],
    words: &[Word],
) -> Result<SoFar, EntryError>
    requires some { 0 < length words.now }
    requires order { StandInOrder 0 words.now (length line.now) }
    ensures { let rest = drop 1 (map (bytes_of line.now) words.now) in MatchResult result
        (λ after. (first_code (rows_behind s.now so_far (Some (begins.Element figure.Line)) rest) ≡ None) × (after ≡ with_words s.now so_far (Some (begins.Element figure.Line)) rest))
        (IsRefusal (first_code (rows_behind s.now so_far (Some (begins.Element figure.Line)) rest))) }
{
    let spot = line_of(s, &so_far.at, line, words).map_err(EntryError::Refused)?;
    so_far.at.spots.push(spot)?;
    Ok(so_far)
}

/// The claim with its tolerances.
fn with_tolerances(mut so_far: SoFar, line: &[u8], words: &[Word]) -> Result<SoFar, EntryError>
    requires some { 0 < length words.now }
    requires order { StandInOrder 0 words.now (length line.now) }
    ensures { let rest = drop 1 (map (bytes_of line.now) words.now) in MatchResult result
        (λ after. (first_code (tolerance_rows rest) ≡ None) × (after ≡ record so_far { tolerances = tolerances_said rest }))
        (IsRefusal (first_code (tolerance_rows rest))) }
{
    let tolerances = tolerances_of(line, words).map_err(EntryError::Refused)?;
    so_far.tolerances = Some(tolerances);
    Ok(so_far)
}

/// The tolerances that a line says.
fn tolerances_of(line: &[u8], words: &[Word]) -> Result<Tolerances, Code>
    requires some { 0 < length words.now }
    requires order { StandInOrder 0 words.now (length line.now) }
    ensures { let rest = drop 1 (map (bytes_of line.now) words.now) in MatchResult result
        (λ tolerances. (first_code (tolerance_rows rest) ≡ None) × (tolerances_said rest ≡ Some tolerances))
        (λ code. first_code (tolerance_rows rest) ≡ Some code) }
{
    if words.len() != 3 {
        return Err(Code::E3);
    }
    let t = word(line, words, 1);
    let w = word(line, words, 2);
    tolerances_said(t, w)
}

/// The tolerances that the words are.
fn tolerances_said(t: &[u8], w: &[u8]) -> Result<Tolerances, Code>
    ensures { result ≡ unless (first_code (tolerance_rows (t.now ∷ w.now ∷ []))) (record { t = tolerance t.now; w = tolerance w.now }) }
{
    let t = count_of(TOLERANCE_LIMIT, t).ok_or(Code::E8)?;
    let w = count_of(TOLERANCE_LIMIT, w).ok_or(Code::E8)?;
    Ok(Tolerances { t, w })
}
