// The lines of a text, and the words of a line.
ghost use Rattle.std.specs.Prelude.{◌≡◌, ◌<◌, ◌≤◌, [], ◌∷◌, length, map, position, bytes_eq, None, Some, IfSome, IfOk, IfErr, MatchResult};
ghost use Rattle.std.specs.List.{slice_index_or, slice_range};
ghost use Rattle.std.specs.Str.Lines.{strip_carriage_return};
ghost use Rattle.sk_lines.specs.Words.{bytes_of, words_in, StandInOrder};
ghost use Rattle.sk_lines.specs.Comments.{words_under};
ghost use Rattle.sk_lines.specs.Lines.{is_line_feed, lines_in, IsFirstLine};
ghost use Rattle.sk_lines.specs.ByteCodes.{byte_rows};
ghost use Rattle.sk_lines.specs.EndLine.{ending_rows};
ghost use Rattle.sk_lines.specs.FirstCode.{first_code};
ghost use Rattle.sk_lines.specs.Refusals.{IsRefusal};

use crate::code::Code;
use crate::error::EntryError;
use crate::split::words_before;
use crate::version::{Version, len_before_comment};
use crate::words::{LexFault, Word, Words};
use std::alloc::Global;

/// The first line without its line end, and what follows it.
pub fn split_line(bytes: &[u8]) -> (&[u8], &[u8])
    requires { 0 < length bytes.now }
    ensures first { IsFirstLine bytes.now result.0.now result.1.now }
    ensures lines { lines_in bytes.now ≡ result.0.now ∷ lines_in result.1.now }
    ensures shorter { length result.1.now < length bytes.now }
{
    match first_line_feed(bytes) {
        None => (without_return(bytes), &[]),
        Some(end) => (without_return(&bytes[..end]), &bytes[end + 1..]),
    }
}

/// The place of the first line feed.
fn first_line_feed(bytes: &[u8]) -> Option<usize>
    ensures value { result ≡ position is_line_feed bytes.now }
    ensures below { IfSome result (λ end. end < length bytes.now) }
{
    bytes.iter().position(|b| *b == b'\n')
}

/// The line without the one carriage return at its end.
fn without_return(line: &[u8]) -> &[u8]
    ensures { result.now ≡ strip_carriage_return line.now }
{
    match line {
        [rest @ .., b'\r'] => rest,
        _ => line,
    }
}

/// The words of a line without comments, which comes without its line end.
pub fn split_words(alloc: Global, line: &[u8]) -> Result<Words, EntryError>
    ensures words { IfOk result (λ words. map (bytes_of line.now) words.items ≡ words_in line.now) }
    ensures order { IfOk result (λ words. StandInOrder 0 words.items (length line.now)) }
    ensures fine { IfOk result (λ _. first_code (byte_rows line.now) ≡ None) }
    ensures refused { IfErr result (IsRefusal (first_code (byte_rows line.now))) }
{
    words_under(alloc, Version::One, line)
}

/// The words of a line of the version, which comes without its line end.
pub fn words_under(alloc: Global, version: Version, line: &[u8]) -> Result<Words, EntryError>
    ensures words { IfOk result (λ words. map (bytes_of line.now) words.items ≡ words_under version line.now) }
    ensures order { IfOk result (λ words. StandInOrder 0 words.items (length line.now)) }
    ensures fine { IfOk result (λ _. first_code (byte_rows line.now) ≡ None) }
    ensures refused { IfErr result (IsRefusal (first_code (byte_rows line.now))) }
{
    match words_before(alloc, line, len_before_comment(version, line)) {
        Ok(words) => Ok(words),
        Err(LexFault::LineTooLong) => Err(EntryError::Refused(Code::E15)),
        Err(LexFault::NotAscii) => Err(EntryError::Refused(Code::E19)),
        Err(LexFault::NoMemory) => Err(EntryError::NoMemory),
    }
}

/// The bytes of the word at a place of the words of a line.
pub fn word<'a>(line: &'a [u8], words: &[Word], i: usize) -> &'a [u8]
    requires below { i < length words.now }
    requires order { StandInOrder 0 words.now (length line.now) }
    ensures { result.now ≡ slice_index_or (map (bytes_of line.now) words.now) i [] }
{
    let word = words[i];
    between(line, word.start as usize, word.end as usize)
}

/// The bytes of a word of the line.
pub fn bytes_at(line: &[u8], word: Word) -> &[u8]
    requires rising { word.start ≤ word.end }
    requires within { word.end ≤ length line.now }
    ensures { result.now ≡ bytes_of line.now word }
{
    between(line, word.start as usize, word.end as usize)
}

fn between(line: &[u8], start: usize, end: usize) -> &[u8]
    requires rising { start ≤ end }
    requires within { end ≤ length line.now }
    ensures { result.now ≡ slice_range line.now start end }
{
    &line[start..end]
}

/// Whether the word is this text.
pub fn is_word(word: &[u8], text: &str) -> bool
    ensures { result ≡ bytes_eq word.now text.now }
{
    word == text.as_bytes()
}

/// Tells that the words are `end` alone: else E2 where another word is the first, and E3 where more follow.
pub fn check_end(line: &[u8], words: &[Word]) -> Result<(), Code>
    requires some { 0 < length words.now }
    requires order { StandInOrder 0 words.now (length line.now) }
    ensures { let ws = map (bytes_of line.now) words.now in MatchResult result
        (λ _. first_code (ending_rows ws) ≡ None)
        (λ code. first_code (ending_rows ws) ≡ Some code) }
{
    if !is_word(word(line, words, 0), "end") {
        return Err(Code::E2);
    }
    if words.len() != 1 {
        return Err(Code::E3);
    }
    Ok(())
}
