//! Quotients of whole numbers, rounded to the nearest.
ghost use Rattle.std.specs.Prelude.{◌≡◌, ◌≤◌, ◌<◌, ◌*◌, ℕ, ℤ, pos, unsigned_abs};
ghost use Rattle.sk_base.specs.Bounds.{IsWithin};
ghost use Rattle.sk_base.specs.Nearest.{nearest, nearest_size, IsNearest};

/// The size of `n / d`, to the nearest whole number, halves up.
fn nearest_size(n: i128, d: u64) -> i128
    requires { 2 ≤ d }
    ensures value { result ≡ pos (nearest_size d (unsigned_abs n)) }
{
    let d = u128::from(d);
    ((n.unsigned_abs() + d / 2) / d) as i128
}

/// `n / d`, to the nearest whole number, halves away from zero.
pub fn nearest(n: i128, d: u64) -> i128
    requires { 2 ≤ d }
    ensures value { result ≡ nearest d n }
    ensures near { IsNearest d n result }
    ensures within { (most : ℕ) → unsigned_abs n ≤ d * most → IsWithin most result }
{
    let size = nearest_size(n, d);
    if n < 0 { -size } else { size }
}

/// On every quotient by a number above zero, rounding gives a nearest whole number, and halves go
/// away from zero.
pub fn rounding_is_nearest()
    ensures { (d : ℕ) → 0 < d → (n : ℤ) → IsNearest d n (nearest d n) }
{}
