// Products of whole numbers that stay within 128 bits.
ghost use Rattle.std.specs.Prelude.{◌≡◌, ◌≤◌, ◌^◌, ◌*◌, ◌-ℤ◌, ◌*ℤ◌, ◌<◌, ◌<ℤ◌, ◌↔◌, ℕ, pos, IsTrue, unsigned_abs};
ghost use Rattle.sk_base.specs.Bounds.{IsWithin};
ghost use Rattle.sk_measure.specs.Offsets.{squared, signed, cross, dot};
ghost use Rattle.sk_measure.specs.WithSign.{with_sign};

use sk_base::Sign;

/// The product of a factor and a number.
pub fn scaled(factor: i64, number: i128) -> i128
    requires factor { unsigned_abs factor ≤ 2 ^ 31 }
    requires number { unsigned_abs number ≤ 2 ^ 64 }
    ensures value { result ≡ factor *ℤ number }
    ensures within { unsigned_abs result ≤ 2 ^ 95 }
{
    i128::from(factor) * number
}

/// The cross product of the normals (a, b) and (d, e).
pub fn cross(a: i64, b: i64, d: i64, e: i64) -> i128
    requires a { IsWithin 2000000000 a }
    requires b { IsWithin 2000000000 b }
    requires d { IsWithin 2000000000 d }
    requires e { IsWithin 2000000000 e }
    ensures value { result ≡ cross a b d e }
    ensures within { unsigned_abs result ≤ 2 ^ 63 }
{
    product(a, e) - product(b, d)
}

/// The dot product of the normals (a, b) and (d, e).
pub fn dot(a: i64, b: i64, d: i64, e: i64) -> i128
    requires a { IsWithin 2000000000 a }
    requires b { IsWithin 2000000000 b }
    requires d { IsWithin 2000000000 d }
    requires e { IsWithin 2000000000 e }
    ensures value { result ≡ dot a b d e }
    ensures within { unsigned_abs result ≤ 2 ^ 63 }
{
    product(a, d) + product(b, e)
}

/// The product of two numbers of a normal.
fn product(a: i64, b: i64) -> i128
    requires a { unsigned_abs a ≤ 2 ^ 31 }
    requires b { unsigned_abs b ≤ 2 ^ 31 }
    ensures value { result ≡ a *ℤ b }
    ensures within { unsigned_abs result ≤ 2 ^ 62 }
{
    i128::from(a) * i128::from(b)
}

/// The square of the difference of two coordinates.
pub fn squared_difference(a: i64, b: i64) -> u128
    requires a { IsWithin 1152921504606846976 a }
    requires b { IsWithin 1152921504606846976 b }
    ensures value { result ≡ squared (a -ℤ b) }
    ensures within { result ≤ 2 ^ 122 }
    ensures small { (most : ℕ) → IsWithin most a → IsWithin most b → result ≤ 4 * (most * most) }
{
    let difference = (i128::from(a) - i128::from(b)).unsigned_abs();
    difference * difference
}

/// The number with the sign in front.
pub fn signed(sign: Sign, number: i128) -> i128
    requires { unsigned_abs number ≤ 2 ^ 95 }
    ensures value { result ≡ signed sign number }
    ensures size { unsigned_abs result ≡ unsigned_abs number }
{
    match sign {
        Sign::Plus => number,
        Sign::Minus => -number,
    }
}

/// Whether the number is below zero.
pub fn is_negative(number: i128) -> bool
    ensures { IsTrue result ↔ (number <ℤ pos 0) }
{
    number < 0
}

/// The size, or its negative where it is of what is less.
pub fn with_sign(size: u64, less: bool) -> i64
    requires { size < 2 ^ 63 }
    ensures { result ≡ with_sign less size }
{
    let size = size as i64;
    if less { -size } else { size }
}
