//! Quotients of signed numbers, rounded down and up.
ghost use Rattle.std.specs.Prelude.{◌≡◌, ◌≢◌, ◌≤◌, ◌^◌, ◌*◌, ◌↔◌, IsTrue, ◌*ℤ◌, ◌≤ℤ◌, pos, max, unsigned_abs};
ghost use Rattle.std.specs.Int.{int_min, int_max};
ghost use Rattle.sk_interval.specs.Rounding.{floor_of, ceil_of};

/// `2^k`.
pub fn two_to(k: u32) -> u128
    requires { k ≤ 126 }
    ensures { result ≡ 2 ^ k }
{
    1 << k
}

/// Tells whether `a * b` is at most `most`, by a quotient, so that nothing overflows.
pub fn product_is_within(a: u128, b: u128, most: u128) -> bool
    ensures { IsTrue result ↔ (a * b ≤ most) }
{
    a == 0 || b <= most / a
}

/// The greatest whole number that is at most `n / d`.
pub fn floor(n: i128, d: i128) -> i128
    requires dividend { unsigned_abs n ≤ 2 ^ 126 }
    requires divisor { unsigned_abs d ≤ 2 ^ 126 }
    requires nonzero { d ≢ pos 0 }
    ensures value { result ≡ floor_of n d }
    ensures within { unsigned_abs result ≤ 2 ^ 126 }
{
    if d > 0 {
        n.div_euclid(d)
    } else {
        (-n).div_euclid(-d)
    }
}

/// The least whole number that is at least `n / d`.
pub fn ceil(n: i128, d: i128) -> i128
    requires dividend { unsigned_abs n ≤ 2 ^ 126 }
    requires divisor { unsigned_abs d ≤ 2 ^ 126 }
    requires nonzero { d ≢ pos 0 }
    ensures value { result ≡ ceil_of n d }
    ensures within { unsigned_abs result ≤ 2 ^ 126 }
{
    -floor(-n, d)
}

/// The least floor of the quotients of `a` and `b` by `c` and `d`.
pub fn least_floor(a: i128, b: i128, c: i128, d: i128) -> i128
    requires a_within { unsigned_abs a ≤ 2 ^ 126 }
    requires b_within { unsigned_abs b ≤ 2 ^ 126 }
    requires c_within { unsigned_abs c ≤ 2 ^ 126 }
    requires d_within { unsigned_abs d ≤ 2 ^ 126 }
    requires c_nonzero { c ≢ pos 0 }
    requires d_nonzero { d ≢ pos 0 }
    ensures { result ≡ int_min (int_min (floor_of a c) (floor_of a d)) (int_min (floor_of b c) (floor_of b d)) }
{
    least(floor(a, c), floor(a, d), floor(b, c), floor(b, d))
}

/// The greatest ceiling of the quotients of `a` and `b` by `c` and `d`.
pub fn greatest_ceil(a: i128, b: i128, c: i128, d: i128) -> i128
    requires a_within { unsigned_abs a ≤ 2 ^ 126 }
    requires b_within { unsigned_abs b ≤ 2 ^ 126 }
    requires c_within { unsigned_abs c ≤ 2 ^ 126 }
    requires d_within { unsigned_abs d ≤ 2 ^ 126 }
    requires c_nonzero { c ≢ pos 0 }
    requires d_nonzero { d ≢ pos 0 }
    ensures { result ≡ int_max (int_max (ceil_of a c) (ceil_of a d)) (int_max (ceil_of b c) (ceil_of b d)) }
{
    greatest(ceil(a, c), ceil(a, d), ceil(b, c), ceil(b, d))
}

/// The least of four numbers.
pub fn least(a: i128, b: i128, c: i128, d: i128) -> i128
    ensures { result ≡ int_min (int_min a b) (int_min c d) }
{
    a.min(b).min(c.min(d))
}

/// The greatest of four numbers.
pub fn greatest(a: i128, b: i128, c: i128, d: i128) -> i128
    ensures { result ≡ int_max (int_max a b) (int_max c d) }
{
    a.max(b).max(c.max(d))
}

/// The least and the greatest of the products of `a` and `b` by `c` and `d`.
pub fn extreme_products(a: i128, b: i128, c: i128, d: i128) -> (i128, i128)
    requires { max (unsigned_abs a) (unsigned_abs b) * max (unsigned_abs c) (unsigned_abs d) ≤ 2 ^ 126 }
    ensures least { result.0 ≡ int_min (int_min (a *ℤ c) (a *ℤ d)) (int_min (b *ℤ c) (b *ℤ d)) }
    ensures greatest { result.1 ≡ int_max (int_max (a *ℤ c) (a *ℤ d)) (int_max (b *ℤ c) (b *ℤ d)) }
    ensures least_within { unsigned_abs result.0 ≤ 2 ^ 126 }
    ensures greatest_within { unsigned_abs result.1 ≤ 2 ^ 126 }
    ensures ordered { result.0 ≤ℤ result.1 }
{
    let (ac, ad, bc, bd) = (a * c, a * d, b * c, b * d);
    (least(ac, ad, bc, bd), greatest(ac, ad, bc, bd))
}

/// The least floor and the greatest ceiling of the quotients of `a` and `b` by `c` and `d`.
pub fn extreme_quotients(a: i128, b: i128, c: i128, d: i128) -> (i128, i128)
    requires a_within { unsigned_abs a ≤ 2 ^ 126 }
    requires b_within { unsigned_abs b ≤ 2 ^ 126 }
    requires c_within { unsigned_abs c ≤ 2 ^ 88 }
    requires d_within { unsigned_abs d ≤ 2 ^ 88 }
    requires c_nonzero { c ≢ pos 0 }
    requires d_nonzero { d ≢ pos 0 }
    ensures least { result.0 ≡ int_min (int_min (floor_of a c) (floor_of a d)) (int_min (floor_of b c) (floor_of b d)) }
    ensures greatest { result.1 ≡ int_max (int_max (ceil_of a c) (ceil_of a d)) (int_max (ceil_of b c) (ceil_of b d)) }
    ensures ordered { result.0 ≤ℤ result.1 }
{
    (least_floor(a, b, c, d), greatest_ceil(a, b, c, d))
}
