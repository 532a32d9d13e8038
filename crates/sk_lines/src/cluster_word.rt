// The names of clusters as words of a text.
ghost use Rattle.std.specs.Prelude.{◌≡◌, ◌≤◌, ◌<◌, ◌^◌, Some, None, IfSome, MatchResult};
ghost use Rattle.sk_lines.specs.declared.code.Code.TheVariants.{E4};
ghost use Rattle.sk_lines.specs.ClusterWords.{begins_with_zero, plain_number, cluster_named};

use crate::code::Code;
use sk_base::{Name, digits_of};

/// The name of a cluster that a word is.
pub fn cluster_named(word: &[u8]) -> Result<Name, Code>
    ensures { MatchResult result
        (λ name. cluster_named word.now ≡ Some name)
        (λ code. (cluster_named word.now ≡ None) × (code ≡ E4)) }
{
    match word {
        [b'c', number @ ..] => Ok(Name::Con(number_of(number)?)),
        [b's', number @ ..] => Ok(Name::Step(number_of(number)?)),
        _ => Err(Code::E4),
    }
}

/// The number in the name of a cluster.
fn number_of(word: &[u8]) -> Result<u32, Code>
    ensures { MatchResult result
        (λ number. plain_number 6 word.now ≡ Some number)
        (λ code. (plain_number 6 word.now ≡ None) × (code ≡ E4)) }
{
    match plain_number(6, word) {
        Some(number) => Ok(number as u32),
        None => Err(Code::E4),
    }
}

/// The number that one to `most` digits stand for, the first of them not 0.
pub fn plain_number(most: usize, word: &[u8]) -> Option<u64>
    requires { most ≤ 18 }
    ensures value { result ≡ plain_number most word.now }
    ensures below { IfSome result (λ number. number < 10 ^ most) }
{
    if begins_with_zero(word) {
        return None;
    }
    digits_of(most, word)
}

fn begins_with_zero(word: &[u8]) -> bool
    ensures { result ≡ begins_with_zero word.now }
{
    matches!(word, [b'0', ..])
}
