// Vectors of whole numbers, short enough that what is made of them fits 128 bits.
ghost use Rattle.std.specs.Prelude.{◌≡◌};
ghost use Rattle.sk_orient.specs.Vectors.{IsShort, way, cross, dot, rotation, IsSmall};

use sk_base::Ratio;

/// A place, or the way from one place to another.
#[derive(Clone, Copy)]
pub struct Vector {
    pub x: i128,
    pub y: i128,
}

/// From the one place to the other.
pub fn way(from: Vector, to: Vector) -> Vector
    requires from_short { IsShort 1152921504606846976 from }
    requires to_short { IsShort 1152921504606846976 to }
    ensures way { result ≡ way from to }
    ensures short { IsShort 2305843009213693952 result }
{
    Vector {
        x: to.x - from.x,
        y: to.y - from.y,
    }
}

/// Above 0 where the second turns to the left of the first.
pub fn cross(v: Vector, w: Vector) -> i128
    requires v_short { IsShort 2305843009213693952 v }
    requires w_short { IsShort 2305843009213693952 w }
    ensures { result ≡ cross v w }
{
    v.x * w.y - v.y * w.x
}

/// Above 0 where the second points forward along the first.
pub fn dot(v: Vector, w: Vector) -> i128
    requires v_short { IsShort 2305843009213693952 v }
    requires w_short { IsShort 2305843009213693952 w }
    ensures { result ≡ dot v w }
{
    v.x * w.x + v.y * w.y
}

/// Above 0 where the second goes forward along the first when that is turned by the angle of this
/// tangent.
pub fn rotation(v: Vector, w: Vector, ratio: Ratio) -> i128
    requires v_short { IsShort 2000000000 v }
    requires w_short { IsShort 2000000000 w }
    requires small { IsSmall ratio }
    ensures { result ≡ rotation v w ratio }
{
    let forward = i128::from(ratio.q) * dot(v, w);
    let aside = i128::from(ratio.p) * cross(v, w);
    forward + aside
}
