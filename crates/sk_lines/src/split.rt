ghost use Rattle.std.specs.Prelude.{◌≡◌, ◌≤◌, length, map, take, IfOk, IfErr, false};
ghost use Rattle.std.specs.List.{position, position_or_len};
ghost use Rattle.sk_lines.specs.Words.{is_too_long, has_wrong_byte, is_blank, words_in, bytes_of, StandInOrder, IsFaultOf};

use crate::words::{LexFault, Word, Words};
use sk_base::{List, NoMemory};
use std::alloc::Global;

/// The most bytes of a line.
const MOST_BYTES: usize = 200;

/// The words of a line, which are its parts between blanks: spaces and tabs.
pub fn words_of(alloc: Global, line: &[u8]) -> Result<Words, LexFault>
    ensures words { IfOk result (λ words. map (bytes_of line.now) words.items ≡ words_in line.now) }
    ensures order { IfOk result (λ words. StandInOrder 0 words.items (length line.now)) }
    ensures fits { IfOk result (λ _. is_too_long line.now ≡ false) }
    ensures ascii { IfOk result (λ _. has_wrong_byte line.now ≡ false) }
    ensures fault { IfErr result (IsFaultOf line.now) }
{
    words_before(alloc, line, line.len())
}

/// The words of a line that stand before a place. The whole line is tested.
pub(crate) fn words_before(alloc: Global, line: &[u8], end: usize) -> Result<Words, LexFault>
    requires { end ≤ length line.now }
    ensures words { IfOk result (λ words. map (bytes_of line.now) words.items ≡ words_in (take end line.now)) }
    ensures order { IfOk result (λ words. StandInOrder 0 words.items end) }
    ensures fits { IfOk result (λ _. is_too_long line.now ≡ false) }
    ensures ascii { IfOk result (λ _. has_wrong_byte line.now ≡ false) }
    ensures fault { IfErr result (IsFaultOf line.now) }
{
    if line.len() > MOST_BYTES {
        return Err(LexFault::LineTooLong);
    }
    if has_wrong_byte(line) {
        return Err(LexFault::NotAscii);
    }
    Ok(words_between_blanks(alloc, &line[..end])?)
}

/// Whether a byte is neither 0x20 to 0x7E nor a tab.
fn has_wrong_byte(line: &[u8]) -> bool
    ensures { result ≡ has_wrong_byte line.now }
{
    line.iter()
        .any(|b| !((32 <= *b && *b <= 126) || *b == b'\t'))
}

/// The words of a line that is short enough.
fn words_between_blanks(alloc: Global, line: &[u8]) -> Result<Words, NoMemory>
    requires { length line.now ≤ 200 }
    ensures words { IfOk result (λ words. map (bytes_of line.now) words.items ≡ words_in line.now) }
    ensures order { IfOk result (λ words. StandInOrder 0 words.items (length line.now)) }
{
    let mut items = List::new(alloc);
    let mut at = 0;
    while at < line.len() {
        let word_len = len_to_blank(&line[at..]);
        if word_len == 0 {
            at += 1;
        } else {
            let end = at + word_len;
            items.push(Word {
                start: at as u32,
                end: end as u32,
            })?;
            at = end;
        }
    }
    Ok(Words { items })
}

/// How many bytes stand before the first blank.
fn len_to_blank(bytes: &[u8]) -> usize
    ensures value { result ≡ position_or_len is_blank bytes.now }
    ensures bound { result ≤ length bytes.now }
{
    match first_blank(bytes) {
        Some(place) => place,
        None => bytes.len(),
    }
}

fn first_blank(bytes: &[u8]) -> Option<usize>
    ensures { result ≡ position is_blank bytes.now }
{
    bytes.iter().position(|b| is_blank(*b))
}

/// Whether the byte is a space or a tab.
fn is_blank(b: u8) -> bool
    ensures { result ≡ is_blank b }
{
    b == b' ' || b == b'\t'
}
