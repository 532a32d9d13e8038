// Products in parts of 10^9, rounded to whole numbers.
ghost use Rattle.std.specs.Prelude.{◌≡◌, ◌*◌, ◌+ℤ◌, ◌-ℤ◌, ◌*ℤ◌, ℕ};
ghost use Rattle.sk_base.specs.Bounds.{IsWithin};
ghost use Rattle.sk_base.specs.Nearest.{nearest};

use sk_base::nearest;

/// How many parts of 10^9 make one.
const WHOLE: u64 = 1_000_000_000;

/// `a·x + b·y`, where `a` and `b` are parts of 10^9.
pub(crate) fn sum_of_parts(a: i128, x: i128, b: i128, y: i128) -> i128
    requires a { IsWithin 2000000000 a }
    requires x { IsWithin 9223372036854775807 x }
    requires b { IsWithin 2000000000 b }
    requires y { IsWithin 9223372036854775807 y }
    ensures value { result ≡ nearest 1000000000 ((a *ℤ x) +ℤ (b *ℤ y)) }
{
    nearest(a * x + b * y, WHOLE)
}

/// `a·x − b·y`, where `a` and `b` are parts of 10^9.
pub(crate) fn difference_of_parts(a: i128, x: i128, b: i128, y: i128) -> i128
    requires a { IsWithin 2000000000 a }
    requires x { IsWithin 9223372036854775807 x }
    requires b { IsWithin 2000000000 b }
    requires y { IsWithin 9223372036854775807 y }
    ensures value { result ≡ nearest 1000000000 ((a *ℤ x) -ℤ (b *ℤ y)) }
    ensures within { (most : ℕ) → IsWithin most x → IsWithin most y → IsWithin (4 * most) result }
{
    nearest(a * x - b * y, WHOLE)
}
