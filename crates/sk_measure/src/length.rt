ghost use Rattle.std.specs.Prelude.{◌≤◌, ◌<◌, ◌*◌, ◌^◌, ◌↔◌, IsTrue};
ghost use Rattle.sk_measure.specs.Least.{IsLeast};
ghost use Rattle.sk_measure.specs.Holding.{IsLength};

use sk_root::{root_ceil, root_floor};

/// Tells whether a distance of that square is the length, within `t`.
pub fn length_holds(square: u128, length: u64, t: u64) -> bool
    requires length { length ≤ 2 ^ 41 }
    requires tolerance { t ≤ 2 ^ 62 }
    ensures { IsTrue result ↔ IsLength length length square t }
{
    let low = length.saturating_sub(t) as u128;
    let high = (length + t) as u128;
    low * low <= square && square <= high * high
}

/// Tells whether a distance of that square is below the length.
pub fn is_shorter(square: u128, length: u64) -> bool
    requires { length ≤ 2 ^ 41 }
    ensures { IsTrue result ↔ (square < length * length) }
{
    let length = length as u128;
    square < length * length
}

/// The least tolerance with which a distance of that square is from the shortest to the longest.
#[tactic(auto, using(crate::proofs::LengthLemmas::least_length))]
pub fn least_of_length(square: u128, shortest: u64, longest: u64) -> u64
    requires { square ≤ 2 ^ 123 }
    ensures { IsLeast (IsLength shortest longest square) result }
{
    let short = shortest.saturating_sub(root_floor(square));
    let long = root_ceil(square).saturating_sub(longest);
    short.max(long)
}
