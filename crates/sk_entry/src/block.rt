// A block, by the words of its line.
ghost use Rattle.std.specs.Prelude.{◌≡◌, ◌≤◌, ◌<◌, ◌∷◌, length, map, None, is_none, true, false, MatchOption, MatchResult};
ghost use Rattle.std.specs.List.{list_any};
ghost use Rattle.sk_base.specs.Labels.{is_name};
ghost use Rattle.sk_lines.specs.Words.{bytes_of, StandInOrder};
ghost use Rattle.sk_lines.specs.declared.Code.TheVariants.{E4, E8};
ghost use Rattle.sk_lines.specs.Refusals.{IsRefusal};
ghost use Rattle.sk_lines.specs.FirstCode.{first_code, coded};
ghost use Rattle.sk_entry.specs.PinCodes.{said_by, lacks_name, lacks_place, lacks_element, names_line, share_place, share_name, pin_told, pin_rows, block_told};
ghost use Rattle.sk_entry.specs.PinLines.{pins_in, some_two};

use crate::field::{label, room_for_constraint};
use crate::scope::Scope;
use sk_base::{ConId, Constraint, Label, List, Pin, Rule, Um, parse_mm};
use sk_lines::{Code, EntryError, Word, bytes_at};
use std::alloc::Global;

/// What the three words of a pin say.
#[derive(Clone, Copy)]
pub(crate) struct PinSaid {
    name: Label,
    x: Option<Um>,
    y: Option<Um>,
}

/// A block, by the words behind the first of its line.
pub(crate) fn read_block<S: Scope>(
    alloc: Global,
    s: &S,
    line: &[u8],
    words: &[Word],
    number: ConId,
) -> Result<Constraint, EntryError>
    requires { StandInOrder 0 words.now (length line.now) }
    ensures { let pins = pins_in (map (bytes_of line.now) words.now) in MatchResult result
        (λ block. (first_code (pin_rows (S.so_far s.now) pins) ≡ None) × (block ≡ block_told (S.so_far s.now) number pins))
        (IsRefusal (first_code (pin_rows (S.so_far s.now) pins))) }
{
    let said = pins_said(alloc, line, words)?;
    if has_unknown(s, said.as_slice()) {
        return Err(EntryError::Refused(Code::E6));
    }
    if has_line(s, said.as_slice()) {
        return Err(EntryError::Refused(Code::E7));
    }
    let pins = pins_of(alloc, s, said.as_slice())?;
    if have_one_place(pins.as_slice()) {
        return Err(EntryError::Refused(Code::E9));
    }
    if have_one_name(said.as_slice()) {
        return Err(EntryError::Refused(Code::E10));
    }
    room_for_constraint(s)?;
    Ok(Constraint {
        number,
        rule: Rule::Block { pins },
    })
}

/// What the words of all pins say, each with a name.
fn pins_said(alloc: Global, line: &[u8], words: &[Word]) -> Result<List<PinSaid>, EntryError>
    requires { StandInOrder 0 words.now (length line.now) }
    ensures { let pins = pins_in (map (bytes_of line.now) words.now) in MatchResult result
        (λ said. (list_any lacks_name pins ≡ false) × (said ≡ map said_by pins))
        (IsRefusal (coded (list_any lacks_name pins) E4)) }
{
    let mut said = List::new(alloc);
    let mut rest = words;
    while let Some((name, x, y, more)) = first_pin(rest) {
        said.push(pin_said(line, name, x, y)?)?;
        rest = more;
    }
    Ok(said)
}

/// The three words of the first pin, and the words behind them.
fn first_pin(words: &[Word]) -> Option<(Word, Word, Word, &[Word])>
    ensures { MatchOption result (length words.now < 3) (λ pin. words.now ≡ pin.0 ∷ pin.1 ∷ pin.2 ∷ pin.3.now) }
{
    match words {
        [name, x, y, more @ ..] => Some((*name, *x, *y, more)),
        _ => None,
    }
}

/// What the three words of a pin say.
fn pin_said(line: &[u8], name: Word, x: Word, y: Word) -> Result<PinSaid, Code>
    requires name { (name.start ≤ name.end) × (name.end ≤ length line.now) }
    requires x { (x.start ≤ x.end) × (x.end ≤ length line.now) }
    requires y { (y.start ≤ y.end) × (y.end ≤ length line.now) }
    ensures { MatchResult result
        (λ said. (is_name (bytes_of line.now name) ≡ true) × (said ≡ said_by (record { name = bytes_of line.now name; x = bytes_of line.now x; y = bytes_of line.now y })))
        (λ code. (is_name (bytes_of line.now name) ≡ false) × (code ≡ E4)) }
{
    Ok(PinSaid {
        name: label(bytes_at(line, name))?,
        x: parse_mm(bytes_at(line, x)).ok(),
        y: parse_mm(bytes_at(line, y)).ok(),
    })
}

/// Whether a pin's name isn't declared.
fn has_unknown<S: Scope>(s: &S, said: &[PinSaid]) -> bool
    ensures { result ≡ list_any (lacks_element (S.so_far s.now)) said.now }
{
    said.iter().any(|pin| s.named(pin.name).is_none())
}

/// Whether a pin's name is that of a line.
fn has_line<S: Scope>(s: &S, said: &[PinSaid]) -> bool
    ensures { result ≡ list_any (names_line (S.so_far s.now)) said.now }
{
    said.iter().any(|pin| match s.named(pin.name) {
        Some(element) => element.shape.is_line(),
        None => false,
    })
}

/// The pins that were said, each of an element that is declared, and with a place.
fn pins_of<S: Scope>(alloc: Global, s: &S, said: &[PinSaid]) -> Result<List<Pin>, EntryError>
    requires { list_any (lacks_element (S.so_far s.now)) said.now ≡ false }
    ensures { MatchResult result
        (λ pins. (list_any lacks_place said.now ≡ false) × (pins ≡ map (pin_told (S.so_far s.now)) said.now))
        (IsRefusal (coded (list_any lacks_place said.now) E8)) }
{
    let mut pins = List::new(alloc);
    for pin in said {
        pins.push(pin_of(s, pin)?)?;
    }
    Ok(pins)
}

/// The pin that was said, of an element that is declared.
fn pin_of<S: Scope>(s: &S, said: &PinSaid) -> Result<Pin, Code>
    requires { lacks_element (S.so_far s.now) said.now ≡ false }
    ensures { MatchResult result
        (λ pin. (lacks_place said.now ≡ false) × (pin ≡ pin_told (S.so_far s.now) said.now))
        (λ code. (lacks_place said.now ≡ true) × (code ≡ E8)) }
{
    let Some(x) = said.x else {
        return Err(Code::E8);
    };
    let Some(y) = said.y else {
        return Err(Code::E8);
    };
    match s.named(said.name) {
        Some(element) => Ok(Pin {
            elem: element.number,
            x,
            y,
        }),
        None => unreachable!(),
    }
}

/// Whether two pins are at one place.
fn have_one_place(pins: &[Pin]) -> bool
    ensures { result ≡ some_two share_place pins.now }
{
    let mut rest = pins;
    while let Some((pin, more)) = rest.split_first() {
        if shares_place(pin, more) {
            return true;
        }
        rest = more;
    }
    false
}

fn shares_place(pin: &Pin, others: &[Pin]) -> bool
    ensures { result ≡ list_any (share_place pin.now) others.now }
{
    others
        .iter()
        .any(|other| pin.x == other.x && pin.y == other.y)
}

/// Whether two pins have one name.
fn have_one_name(said: &[PinSaid]) -> bool
    ensures { result ≡ some_two share_name said.now }
{
    let mut rest = said;
    while let Some((pin, more)) = rest.split_first() {
        if shares_name(pin, more) {
            return true;
        }
        rest = more;
    }
    false
}

fn shares_name(pin: &PinSaid, others: &[PinSaid]) -> bool
    ensures { result ≡ list_any (share_name pin.now) others.now }
{
    others
        .iter()
        .any(|other| pin.name.as_bytes() == other.name.as_bytes())
}
