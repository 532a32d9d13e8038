ghost use Rattle.std.specs.Prelude.{◌≡◌, ◌≤◌, ◌<◌, length, Some, None, is_none, false, IfOk, MatchResult, IfSome, pos, position};
ghost use Rattle.std.specs.Option.{option_map};
ghost use Rattle.std.specs.Ordering.{int_eq};
ghost use Rattle.sk_base.specs.Bounds.{IsWithin, IsFromTo};
ghost use Rattle.sk_lines.specs.Quantities.{is_slash, part_of_ratio, unsigned_ratio, ratio_of, ratio, is_zero};
ghost use Rattle.sk_lines.specs.declared.code.Code.TheVariants.{E8};

use crate::code::Code;
use sk_base::{Ratio, digits_of, split_sign};

/// The most that a part of a ratio is.
const MOST_PART: u64 = 10_000;

/// The ratio of an angle.
pub fn angle_ratio(word: &[u8]) -> Result<Ratio, Code>
    ensures read { MatchResult result
        (λ angle. (angle ≡ ratio word.now) × (is_none (ratio_of word.now) ≡ false)
        × (is_zero (option_map (λ parts. parts.0) (ratio_of word.now)) ≡ int_eq angle.p (pos 0)))
        (λ code. (ratio_of word.now ≡ None) × (code ≡ E8)) }
    ensures limits { IfOk result (λ angle. IsWithin 10000 angle.p × IsFromTo 0 10000 angle.q) }
{
    let (negative, bytes) = split_sign(word);
    let Some((p, q)) = unsigned_ratio(bytes) else {
        return Err(Code::E8);
    };
    let p = p as i32;
    Ok(Ratio {
        p: if negative { -p } else { p },
        q: q as i32,
    })
}

/// Both parts of a ratio without a sign.
fn unsigned_ratio(bytes: &[u8]) -> Option<(u64, u64)>
    ensures value { result ≡ unsigned_ratio bytes.now }
    ensures bound { IfSome result (λ parts. (parts.0 ≤ 10000) × (parts.1 ≤ 10000)) }
{
    match first_slash(bytes) {
        None => None,
        Some(slash) => {
            let p = part(&bytes[..slash])?;
            let q = part(&bytes[slash + 1..])?;
            Some((p, q))
        }
    }
}

/// One part of a ratio.
fn part(bytes: &[u8]) -> Option<u64>
    ensures value { result ≡ part_of_ratio bytes.now }
    ensures bound { IfSome result (λ n. n ≤ 10000) }
{
    match digits_of(5, bytes) {
        Some(n) if n <= MOST_PART => Some(n),
        _ => None,
    }
}

/// The place of the first slash.
fn first_slash(bytes: &[u8]) -> Option<usize>
    ensures value { result ≡ position is_slash bytes.now }
    ensures below { IfSome result (λ slash. slash < length bytes.now) }
{
    bytes.iter().position(|b| *b == b'/')
}
