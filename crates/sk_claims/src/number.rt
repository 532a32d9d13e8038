// The numbers of a claim, as words of its lines.
ghost use Rattle.std.specs.Prelude.{◌≡◌, ◌≤◌, ◌^◌};
ghost use Rattle.sk_claims.specs.ClaimLines.{whole_of, count_of};

use sk_base::{digits_of, split_sign};

/// The whole number that a word is, at most so much in absolute value.
pub(crate) fn whole_of(most: u64, word: &[u8]) -> Option<i64>
    requires { most ≤ 2 ^ 62 }
    ensures { result ≡ whole_of most word.now }
{
    let (negative, digits) = split_sign(word);
    match digits_of(19, digits) {
        Some(n) if n <= most => {
            let n = n as i64;
            Some(if negative { -n } else { n })
        }
        _ => None,
    }
}

/// The same where the number isn't below 0.
pub(crate) fn count_of(most: u64, word: &[u8]) -> Option<u64>
    requires { most ≤ 2 ^ 62 }
    ensures { result ≡ count_of most word.now }
{
    match whole_of(most, word) {
        Some(n) if n >= 0 => Some(n as u64),
        _ => None,
    }
}
