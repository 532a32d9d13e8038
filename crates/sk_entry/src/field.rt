ghost use Rattle.std.specs.Prelude.{◌≡◌, ◌==◌, nat_le, length, Some, None, is_some, is_none, true, false, Ok, Err, IfOk, MatchResult, bytes_eq};
ghost use Rattle.sk_base.specs.Bounds.{IsFromTo};
ghost use Rattle.sk_base.specs.Labels.{is_name};
ghost use Rattle.sk_base.specs.Millimetres.{mm_of};
ghost use Rattle.sk_entry.specs.Kinds.{takes, is_circle};
ghost use Rattle.sk_lines.specs.Quantities.{length_of, not_negative, is_zero};
ghost use Rattle.sk_entry.specs.Named.{element_named};
ghost use Rattle.sk_lines.specs.declared.Code.TheVariants.{E4, E5, E6, E7, E8, E9, E10, E13, E14};

use crate::scope::Scope;
use sk_base::{Element, Label, Shape, Sketch, Um, parse_mm};
use sk_lines::{Code, Keyword};

/// The most elements of a sketch.
const MOST_ELEMENTS: usize = 2000;

/// The most constraints of a sketch.
const MOST_CONSTRAINTS: usize = 4000;

/// The name that a word is.
pub fn label(word: &[u8]) -> Result<Label, Code>
    ensures { MatchResult result
        (λ label. (is_name word.now ≡ true) × (label ≡ word.now))
        (λ code. (is_name word.now ≡ false) × (code ≡ E4)) }
{
    Label::new(word).ok_or(Code::E4)
}

/// Tests that no element has the name.
pub(crate) fn free<S: Scope>(s: &S, name: Label) -> Result<(), Code>
    ensures { MatchResult result
        (λ _. element_named (S.so_far s.now) name ≡ None)
        (λ code. (is_some (element_named (S.so_far s.now) name) ≡ true) × (code ≡ E5)) }
{
    match s.named(name) {
        None => Ok(()),
        Some(_) => Err(Code::E5),
    }
}

/// The element that has the name.
pub(crate) fn declared<'a, S: Scope>(s: &'a S, name: Label) -> Result<&'a Element, Code>
    ensures { MatchResult result
        (λ element. element_named (S.so_far s.now) name ≡ Some element.now)
        (λ code. (element_named (S.so_far s.now) name ≡ None) × (code ≡ E6)) }
{
    s.named(name).ok_or(Code::E6)
}

/// The element of the sketch that has the name.
pub fn element_named(s: &Sketch, name: Label) -> Result<&Element, Code>
    ensures { MatchResult result
        (λ element. element_named s.now name ≡ Some element.now)
        (λ code. (element_named s.now name ≡ None) × (code ≡ E6)) }
{
    declared(s, name)
}

/// A coordinate.
pub(crate) fn coordinate(word: &[u8]) -> Result<Um, Code>
    ensures { MatchResult result (λ um. mm_of word.now ≡ Some um.0) (λ code. (mm_of word.now ≡ None) × (code ≡ E8)) }
{
    parse_mm(word).map_err(|_| Code::E8)
}

/// A length or a radius, which isn't negative.
pub fn length(word: &[u8]) -> Result<Um, Code>
    ensures read { MatchResult result
        (λ um. (mm_of word.now ≡ Some um.0) × (length_of word.now ≡ not_negative um.0) × (is_none (length_of word.now) ≡ false))
        (λ code. (length_of word.now ≡ None) × (code ≡ E8)) }
    ensures limits { IfOk result (λ um. IsFromTo 0 1000000000 um.0) }
{
    match parse_mm(word) {
        Ok(um) if um.0 >= 0 => Ok(um),
        _ => Err(Code::E8),
    }
}

/// Room for one more element.
pub(crate) fn room_for_element<S: Scope>(s: &S) -> Result<(), Code>
    ensures { MatchResult result
        (λ _. nat_le 2000 (length (S.so_far s.now).elements) ≡ false)
        (λ code. (nat_le 2000 (length (S.so_far s.now).elements) ≡ true) × (code ≡ E13)) }
{
    if s.sketch().elements.len() >= MOST_ELEMENTS {
        return Err(Code::E13);
    }
    Ok(())
}

/// Tests that a length or a radius isn't 0.
pub fn not_zero(um: Um) -> Result<(), Code>
    ensures { MatchResult result
        (λ _. is_zero (not_negative um.0) ≡ false)
        (λ code. (is_zero (not_negative um.0) ≡ true) × (code ≡ E9)) }
{
    if um.0 == 0 {
        return Err(Code::E9);
    }
    Ok(())
}

/// Room for one more constraint.
pub(crate) fn room_for_constraint<S: Scope>(s: &S) -> Result<(), Code>
    ensures { MatchResult result
        (λ _. nat_le 4000 (length (S.so_far s.now).constraints) ≡ false)
        (λ code. (nat_le 4000 (length (S.so_far s.now).constraints) ≡ true) × (code ≡ E14)) }
{
    if s.sketch().constraints.len() >= MOST_CONSTRAINTS {
        return Err(Code::E14);
    }
    Ok(())
}

/// Tests that the elements have the kinds that a constraint takes.
pub(crate) fn kinds(keyword: Keyword, u: &Element, v: &Element) -> Result<(), Code>
    ensures { MatchResult result
        (λ _. takes keyword u.now.shape v.now.shape ≡ true)
        (λ code. (takes keyword u.now.shape v.now.shape ≡ false) × (code ≡ E7)) }
{
    if takes(keyword, &u.shape, &v.shape) {
        return Ok(());
    }
    Err(Code::E7)
}

/// Whether a constraint takes these kinds of elements.
fn takes(keyword: Keyword, u: &Shape, v: &Shape) -> bool
    ensures { result ≡ takes keyword u.now v.now }
{
    match keyword {
        Keyword::Distance => !(u.is_line() && v.is_line()),
        Keyword::On => !u.is_line() && (v.is_line() || (!is_circle(u) && is_circle(v))),
        Keyword::Tangent => (u.is_line() && is_circle(v)) || (is_circle(u) && v.is_line()),
        Keyword::Outside | Keyword::Inside => is_circle(u) && is_circle(v),
        Keyword::Angle => u.is_line() && v.is_line(),
        Keyword::Point | Keyword::Line | Keyword::Circle | Keyword::Block => false,
    }
}

fn is_circle(shape: &Shape) -> bool
    ensures { result ≡ is_circle shape.now }
{
    matches!(shape, Shape::Circle { .. })
}

/// Tests that the names differ.
pub(crate) fn different(u: &[u8], v: &[u8]) -> Result<(), Code>
    ensures { MatchResult result
        (λ _. bytes_eq u.now v.now ≡ false)
        (λ code. (bytes_eq u.now v.now ≡ true) × (code ≡ E10)) }
{
    if u == v {
        return Err(Code::E10);
    }
    Ok(())
}
