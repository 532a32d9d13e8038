// The ratio that is nearest to a drawn angle.
ghost use Rattle.std.specs.Prelude.{◌≡◌, ◌≢◌, ◌≤◌, ◌*ℤ◌, ℕ, pos, IfNone, IfSome, ◌&&◌, int_lt, nat_lt, unsigned_abs};
ghost use Rattle.sk_base.specs.declared.Ratio.{Ratio as TheRatio};
ghost use Rattle.sk_base.specs.SoundSketch.{IsSoundRatio};
ghost use Rattle.sk_drawn.specs.DrawnValues.{IsNearestRatio, signed};

use crate::fraction::nearest_fraction;
use sk_base::Ratio;

/// The ratio that is nearest to the tangent `c / d`. None where that is 0.
pub(crate) fn nearest_ratio(c: i128, d: i128) -> Option<Ratio>
    requires c_few { unsigned_abs c ≤ 8000000000000000000 }
    requires d_few { unsigned_abs d ≤ 8000000000000000000 }
    ensures sound { IfSome result IsSoundRatio }
    ensures nearest { IfSome result (IsNearestRatio c d) }
    ensures none { IfNone result ((ratio : TheRatio) → IsSoundRatio ratio → ¬ IsNearestRatio c d ratio) }
{
    if c == 0 {
        return None;
    }
    let across = c.unsigned_abs();
    let along = d.unsigned_abs();
    if across <= along {
        let fraction = nearest_fraction(across, along);
        ratio_with(c, d, fraction.x, fraction.y)
    } else {
        let fraction = nearest_fraction(along, across);
        ratio_with(c, d, fraction.y, fraction.x)
    }
}

/// The ratio of these terms, with the sign of `c / d`. None where its tangent is 0.
fn ratio_with(c: i128, d: i128, p: u128, q: u128) -> Option<Ratio>
    requires c_few { unsigned_abs c ≤ 8000000000000000000 }
    requires d_few { unsigned_abs d ≤ 8000000000000000000 }
    requires p { p ≤ 10000 }
    requires q { q ≤ 10000 }
    ensures sound { IfSome result IsSoundRatio }
    ensures p { IfSome result (λ ratio. ratio.p ≡ signed c d p q) }
    ensures q { IfSome result (λ ratio. ratio.q ≡ pos q) }
    ensures none { IfNone result (p ≡ 0) }
{
    if p == 0 {
        None
    } else if is_below(c, d, q) {
        Some(Ratio {
            p: -(p as i32),
            q: q as i32,
        })
    } else {
        Some(Ratio {
            p: p as i32,
            q: q as i32,
        })
    }
}

/// Whether the ratio is written below 0: a right angle never is.
fn is_below(c: i128, d: i128, q: u128) -> bool
    requires c_few { unsigned_abs c ≤ 8000000000000000000 }
    requires d_few { unsigned_abs d ≤ 8000000000000000000 }
    ensures { result ≡ (int_lt (c *ℤ d) (pos 0) && nat_lt 0 q) }
{
    are_opposite(c, d) && q > 0
}

/// Whether one of the two is above 0 and the other below.
fn are_opposite(c: i128, d: i128) -> bool
    requires c_few { unsigned_abs c ≤ 8000000000000000000 }
    requires d_few { unsigned_abs d ≤ 8000000000000000000 }
    ensures { result ≡ int_lt (c *ℤ d) (pos 0) }
{
    c * d < 0
}
