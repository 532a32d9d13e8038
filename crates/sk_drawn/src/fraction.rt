// The fraction of small terms that is nearest to a quotient.
ghost use Rattle.std.specs.Prelude.{◌≡◌, ◌≤◌, ◌<◌, ◌*◌, ◌+◌, ℕ, nat_lt, if◌then◌else◌};
ghost use Rattle.sk_drawn.specs.DrawnValues.{IsNearestFraction, gap};

/// The greatest denominator.
const MOST: u32 = 10_000;

/// A fraction, and how far its numerator times the quotient's denominator is from its denominator times the quotient's
/// numerator.
#[derive(Clone, Copy)]
pub(crate) struct Fraction {
    pub x: u128,
    pub y: u128,
    pub off: u128,
}

/// The fraction nearest to `a / b`, of those with a denominator of at most 10,000; of several that with the least
/// denominator.
pub(crate) fn nearest_fraction(a: u128, b: u128) -> Fraction
    requires a { a ≤ b }
    requires some { 1 ≤ b }
    requires room { b ≤ 8000000000000000000 }
    ensures nearest { IsNearestFraction a b result.x result.y }
    ensures x { result.x ≤ 10000 }
{
    let mut best = fraction_over(a, b, 1);
    for y in 1..MOST {
        best = nearer(best, fraction_over(a, b, u128::from(y) + 1));
    }
    best
}

/// The fraction of that denominator nearest to `a / b`.
fn fraction_over(a: u128, b: u128, y: u128) -> Fraction
    requires a { a ≤ b }
    requires some { 1 ≤ b }
    requires room { b ≤ 8000000000000000000 }
    requires y { y ≤ 10000 }
    ensures y { result.y ≡ y }
    ensures x { result.x ≤ y }
    ensures off { result.off ≡ gap (result.x * b) (a * y) }
    ensures few { 2 * result.off ≤ b }
    ensures nearest { (z : ℕ) → result.off ≤ gap (z * b) (a * y) }
{
    let x = (a * y + b / 2) / b;
    let off = (x * b).abs_diff(a * y);
    Fraction { x, y, off }
}

/// The one that is nearer to the quotient; the first where both are as near.
fn nearer(one: Fraction, other: Fraction) -> Fraction
    requires one { one.y ≤ 10000 }
    requires other { other.y ≤ 10000 }
    requires one_few { one.off ≤ 8000000000000000000 }
    requires other_few { other.off ≤ 8000000000000000000 }
    ensures { result ≡ (if nat_lt (other.off * one.y) (one.off * other.y) then other else one) }
{
    if other.off * one.y < one.off * other.y {
        other
    } else {
        one
    }
}
