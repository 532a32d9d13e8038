ghost use Rattle.std.specs.Prelude.{◌≡◌, ◌<◌, length, map, drop, All, Some, None, IfOk, IfErr, MatchResult};
ghost use Rattle.sk_base.specs.SoundSketch.{IsSoundSketch};
ghost use Rattle.sk_lines.specs.Words.{bytes_of, StandInOrder};
ghost use Rattle.sk_lines.specs.Keywords.{places, pin_count};
ghost use Rattle.sk_entry.specs.Conditions.{lacks_radius};
ghost use Rattle.sk_entry.specs.EntryCodes.{entry_rows};
ghost use Rattle.sk_lines.specs.FirstCode.{first_code};
ghost use Rattle.sk_entry.specs.Meaning.{entry_made, added};
ghost use Rattle.sk_entry.specs.Entry.{told, entry_code, IsEntryOf, StandsOn, IsNumbered};
ghost use Rattle.sk_entry.specs.declared.entry.Entry.TheVariants as entry;
ghost use Rattle.sk_lines.specs.Refusals.{IsRefusal};

use crate::block::read_block;
use crate::constraint::{read_angle, read_distance, read_inside, read_pair};
use crate::element::{read_circle, read_line, read_point};
use crate::entry::Entry;
use crate::scope::Scope;
use sk_base::{ConId, Constraint, Elem, Element, Sketch};
use sk_lines::{Code, EntryError, Keyword, Version, Word, keyword_of, word, words_under};
use std::alloc::Global;

/// What a line of the version says within the sketch: the declared element gets the number `elem`, the declared
/// constraint the number `con`. The line comes without its line end.
pub fn read_entry(
    alloc: Global,
    v: Version,
    s: &Sketch,
    line: &[u8],
    elem: Elem,
    con: ConId,
) -> Result<Entry, EntryError>
    requires sound { IsSoundSketch s.now }
    requires elem_above { All (λ x. x.number.0 < elem.0) s.now.elements }
    requires con_above { All (λ x. x.number.0 < con.0) s.now.constraints }
    ensures clean { IfOk result (λ _. entry_code v s.now line.now ≡ None) }
    ensures entry { IfOk result (IsEntryOf v s.now line.now elem con) }
    ensures stands_on { IfOk result (StandsOn v line.now) }
    ensures numbered { IfOk result (IsNumbered elem con) }
    ensures sound { IfOk result (λ entry. IsSoundSketch (added s.now (Some entry))) }
    ensures refused { IfErr result (IsRefusal (entry_code v s.now line.now)) }
{
    entry_in(alloc, v, s, line, elem, con)
}

/// What a line says, by the names of a scope.
pub fn entry_in<S: Scope>(
    alloc: Global,
    v: Version,
    s: &S,
    line: &[u8],
    elem: Elem,
    con: ConId,
) -> Result<Entry, EntryError>
    ensures clean { IfOk result (λ _. entry_code v (S.so_far s.now) line.now ≡ None) }
    ensures entry { IfOk result (IsEntryOf v (S.so_far s.now) line.now elem con) }
    ensures refused { IfErr result (IsRefusal (entry_code v (S.so_far s.now) line.now)) }
{
    let words = words_under(alloc, v, line)?;
    if words.items.is_empty() {
        return Ok(Entry::Blank);
    }
    match keyword_of(v, word(line, words.items.as_slice(), 0)) {
        None => Ok(Entry::Other(words)),
        Some(keyword) => entry_of(alloc, s, keyword, line, words.items.as_slice(), elem, con),
    }
}

/// What a line says that begins with a keyword.
fn entry_of<S: Scope>(
    alloc: Global,
    s: &S,
    keyword: Keyword,
    line: &[u8],
    words: &[Word],
    elem: Elem,
    con: ConId,
) -> Result<Entry, EntryError>
    requires first { 0 < length words.now }
    requires order { StandInOrder 0 words.now (length line.now) }
    ensures { let rest = drop 1 (map (bytes_of line.now) words.now) in MatchResult result
        (λ entry. (first_code (entry_rows (S.so_far s.now) keyword rest) ≡ None) × (entry_made (S.so_far s.now) keyword rest elem con ≡ Some entry))
        (IsRefusal (first_code (entry_rows (S.so_far s.now) keyword rest))) }
{
    let count = words.len() - 1;
    if lacks_radius(keyword, count) {
        return Err(EntryError::Refused(Code::E12));
    }
    if count != places(keyword, count) {
        return Err(EntryError::Refused(Code::E3));
    }
    let first = word(line, words, 1);
    let second = word(line, words, 2);
    match keyword {
        Keyword::Point => {
            let third = word(line, words, 3);
            element(read_point(s, first, second, third, elem))
        }
        Keyword::Line => {
            let third = word(line, words, 3);
            let fourth = word(line, words, 4);
            let fifth = word(line, words, 5);
            element(read_line(s, first, second, third, fourth, fifth, elem))
        }
        Keyword::Circle => {
            let third = word(line, words, 3);
            let fourth = word(line, words, 4);
            element(read_circle(s, first, second, third, fourth, elem))
        }
        Keyword::Distance => {
            let third = word(line, words, 3);
            constraint(read_distance(s, first, second, third, con))
        }
        Keyword::On => constraint(read_pair(s, Keyword::On, first, second, con)),
        Keyword::Tangent => constraint(read_pair(s, Keyword::Tangent, first, second, con)),
        Keyword::Outside => constraint(read_pair(s, Keyword::Outside, first, second, con)),
        Keyword::Inside => constraint(read_inside(s, first, second, con)),
        Keyword::Angle => {
            let third = word(line, words, 3);
            constraint(read_angle(s, first, second, third, con))
        }
        Keyword::Block => match read_block(alloc, s, line, &words[1..], con) {
            Ok(block) => Ok(Entry::Constraint(block)),
            Err(error) => Err(error),
        },
    }
}

fn element(read: Result<Element, Code>) -> Result<Entry, EntryError>
    ensures { result ≡ told entry.Element read }
{
    match read {
        Ok(element) => Ok(Entry::Element(element)),
        Err(code) => Err(EntryError::Refused(code)),
    }
}

fn constraint(read: Result<Constraint, Code>) -> Result<Entry, EntryError>
    ensures { result ≡ told entry.Constraint read }
{
    match read {
        Ok(constraint) => Ok(Entry::Constraint(constraint)),
        Err(code) => Err(EntryError::Refused(code)),
    }
}

/// How many words stand behind a keyword, where so many do.
fn places(keyword: Keyword, count: usize) -> usize
    ensures { result ≡ length (places keyword count) }
{
    match keyword {
        Keyword::Point => 3,
        Keyword::Line => 5,
        Keyword::Circle => 4,
        Keyword::Distance => 3,
        Keyword::On => 2,
        Keyword::Tangent => 2,
        Keyword::Outside => 2,
        Keyword::Inside => 2,
        Keyword::Angle => 3,
        Keyword::Block => 3 * pin_count(count),
    }
}

/// How many pins so many words are: at least two, and at most sixteen.
fn pin_count(count: usize) -> usize
    ensures { result ≡ pin_count count }
{
    match count / 3 {
        0 | 1 => 2,
        pins if pins > 16 => 16,
        pins => pins,
    }
}

/// Whether a circle's line ends before its radius.
fn lacks_radius(keyword: Keyword, count: usize) -> bool
    ensures { result ≡ lacks_radius keyword count }
{
    match keyword {
        Keyword::Circle => count == 3,
        _ => false,
    }
}
