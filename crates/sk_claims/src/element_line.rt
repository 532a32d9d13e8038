// The place of an element, by the words of its line.
ghost use Rattle.std.specs.Prelude.{◌≡◌, ◌<◌, ◌≤◌, ◌^◌, [], ◌∷◌, length, map, drop, is_some, false, true, None, Some, MatchResult};
ghost use Rattle.sk_base.specs.declared.At.TheVariants as at;
ghost use Rattle.sk_base.specs.Places.{place_of};
ghost use Rattle.sk_lines.specs.Words.{bytes_of, StandInOrder};
ghost use Rattle.sk_claims.specs.declared.first_word.Figure.TheVariants as figure;
ghost use Rattle.sk_claims.specs.ClaimLines.{name_rows, fits_shape, whole_of, whole, length_limit, normal_limit, element_rows, spot_said, radius_said};
ghost use Rattle.sk_entry.specs.Named.{element_named, number_named};
ghost use Rattle.sk_lines.specs.FirstCode.{first_code, unless};
ghost use Rattle.sk_lines.specs.declared.Code.TheVariants.{E5, E7, E8};

use crate::claim::Radius;
use crate::first_word::{Figure, fits_shape};
use crate::number::whole_of;
use sk_base::{At, Elem, Element, Placed, Sketch, Spot};
use sk_entry::{element_named, label};
use sk_lines::{Code, Word, word};

/// The greatest length, in nanometres.
const LENGTH_LIMIT: u64 = 1 << 60;

/// The greatest part of a normal, in parts per 10^9.
const NORMAL_LIMIT: u64 = 2_000_000_000;

/// The place of a point, by the words of its line.
pub(crate) fn point_of(
    s: &Sketch,
    placed: &Placed,
    line: &[u8],
    words: &[Word],
) -> Result<Spot, Code>
    requires some { 0 < length words.now }
    requires order { StandInOrder 0 words.now (length line.now) }
    ensures { let rest = drop 1 (map (bytes_of line.now) words.now) in MatchResult result
        (λ spot. (first_code (element_rows s.now placed.now figure.Point rest) ≡ None) × (spot_said s.now figure.Point rest ≡ spot ∷ []))
        (λ code. first_code (element_rows s.now placed.now figure.Point rest) ≡ Some code) }
{
    if words.len() != 4 {
        return Err(Code::E3);
    }
    let name = word(line, words, 1);
    let x = word(line, words, 2);
    let y = word(line, words, 3);
    point_said(s, placed, name, x, y)
}

/// The place of a circle's centre, with its radius, by the words of its line.
pub(crate) fn circle_of(
    s: &Sketch,
    placed: &Placed,
    line: &[u8],
    words: &[Word],
) -> Result<(Spot, Radius), Code>
    requires some { 0 < length words.now }
    requires order { StandInOrder 0 words.now (length line.now) }
    ensures { let rest = drop 1 (map (bytes_of line.now) words.now) in MatchResult result
        (λ both. (first_code (element_rows s.now placed.now figure.Circle rest) ≡ None) × (spot_said s.now figure.Circle rest ≡ both.0 ∷ []) × (radius_said s.now figure.Circle rest ≡ both.1 ∷ []))
        (λ code. first_code (element_rows s.now placed.now figure.Circle rest) ≡ Some code) }
{
    if words.len() != 5 {
        return Err(Code::E3);
    }
    let name = word(line, words, 1);
    let x = word(line, words, 2);
    let y = word(line, words, 3);
    let r = word(line, words, 4);
    circle_said(s, placed, name, x, y, r)
}

/// The place of a line, by the words of its line.
pub(crate) fn line_of(
    s: &Sketch,
    placed: &Placed,
    line: &[u8],
    words: &[Word],
) -> Result<Spot, Code>
    requires some { 0 < length words.now }
    requires order { StandInOrder 0 words.now (length line.now) }
    ensures { let rest = drop 1 (map (bytes_of line.now) words.now) in MatchResult result
        (λ spot. (first_code (element_rows s.now placed.now figure.Line rest) ≡ None) × (spot_said s.now figure.Line rest ≡ spot ∷ []))
        (λ code. first_code (element_rows s.now placed.now figure.Line rest) ≡ Some code) }
{
    if words.len() != 5 {
        return Err(Code::E3);
    }
    let name = word(line, words, 1);
    let a = word(line, words, 2);
    let b = word(line, words, 3);
    let c = word(line, words, 4);
    line_said(s, placed, name, a, b, c)
}

/// The place of a point.
fn point_said(s: &Sketch, placed: &Placed, name: &[u8], x: &[u8], y: &[u8]) -> Result<Spot, Code>
    ensures { result ≡ unless (first_code (element_rows s.now placed.now figure.Point (name.now ∷ x.now ∷ y.now ∷ [])))
        (record { elem = number_named s.now name.now; at = at.Point (whole length_limit x.now) (whole length_limit y.now) }) }
{
    let elem = named(s, Figure::Point, name)?;
    let x = within(LENGTH_LIMIT, x)?;
    let y = within(LENGTH_LIMIT, y)?;
    free(placed, elem)?;
    Ok(Spot {
        elem,
        at: At::Point { x, y },
    })
}

/// The place of a circle's centre, with its radius.
fn circle_said(
    s: &Sketch,
    placed: &Placed,
    name: &[u8],
    x: &[u8],
    y: &[u8],
    r: &[u8],
) -> Result<(Spot, Radius), Code>
    ensures { result ≡ unless (first_code (element_rows s.now placed.now figure.Circle (name.now ∷ x.now ∷ y.now ∷ r.now ∷ []))) (
      record { elem = number_named s.now name.now; at = at.Point (whole length_limit x.now) (whole length_limit y.now) },
      record { elem = number_named s.now name.now; nm = whole length_limit r.now },
    ) }
{
    let elem = named(s, Figure::Circle, name)?;
    let x = within(LENGTH_LIMIT, x)?;
    let y = within(LENGTH_LIMIT, y)?;
    let nm = within(LENGTH_LIMIT, r)?;
    free(placed, elem)?;
    let centre = At::Point { x, y };
    Ok((Spot { elem, at: centre }, Radius { elem, nm }))
}

/// The place of a line.
fn line_said(
    s: &Sketch,
    placed: &Placed,
    name: &[u8],
    a: &[u8],
    b: &[u8],
    c: &[u8],
) -> Result<Spot, Code>
    ensures { result ≡ unless (first_code (element_rows s.now placed.now figure.Line (name.now ∷ a.now ∷ b.now ∷ c.now ∷ [])))
        (record { elem = number_named s.now name.now; at = at.Line (whole normal_limit a.now) (whole normal_limit b.now) (whole length_limit c.now) }) }
{
    let elem = named(s, Figure::Line, name)?;
    let a = within(NORMAL_LIMIT, a)?;
    let b = within(NORMAL_LIMIT, b)?;
    let c = within(LENGTH_LIMIT, c)?;
    free(placed, elem)?;
    Ok(Spot {
        elem,
        at: At::Line { a, b, c },
    })
}

/// The element of that name, which is placed so.
fn named(s: &Sketch, figure: Figure, name: &[u8]) -> Result<Elem, Code>
    ensures { result ≡ unless (first_code (name_rows s.now figure name.now)) (number_named s.now name.now) }
{
    let name = label(name)?;
    let element = element_named(s, name)?;
    fitting(figure, element)?;
    Ok(element.number)
}

/// Tests that the element is placed so.
fn fitting(figure: Figure, element: &Element) -> Result<(), Code>
    ensures { MatchResult result
        (λ _. fits_shape figure element.now.shape ≡ true)
        (λ code. (fits_shape figure element.now.shape ≡ false) × (code ≡ E7)) }
{
    if fits_shape(figure, &element.shape) {
        return Ok(());
    }
    Err(Code::E7)
}

/// The whole number that a word is, at most so much in absolute value.
fn within(most: u64, word: &[u8]) -> Result<i64, Code>
    requires { most ≤ 2 ^ 62 }
    ensures { MatchResult result
        (λ n. whole_of most word.now ≡ Some n)
        (λ code. (whole_of most word.now ≡ None) × (code ≡ E8)) }
{
    whole_of(most, word).ok_or(Code::E8)
}

/// Tests that the element isn't placed yet.
fn free(placed: &Placed, elem: Elem) -> Result<(), Code>
    ensures { MatchResult result
        (λ _. is_some (place_of placed.now elem) ≡ false)
        (λ code. (is_some (place_of placed.now elem) ≡ true) × (code ≡ E5)) }
{
    match placed.at(elem) {
        None => Ok(()),
        Some(_) => Err(Code::E5),
    }
}
