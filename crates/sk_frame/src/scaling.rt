// The turn from one direction to another.
ghost use Rattle.std.specs.Prelude.{◌≡◌, ◌≤◌, ◌<◌, ◌*◌, ◌^◌, unsigned_abs};
ghost use Rattle.sk_base.specs.Bounds.{IsWithin};
ghost use Rattle.sk_orient.specs.Vectors.{IsShort};
ghost use Rattle.sk_frame.specs.Turns.{or_forward, turn_between, highest_digit, toward_zero, scaled_part, scaled};
ghost use Rattle.sk_frame.specs.TurnBounds.{IsSomewhere, IsTurn};

use sk_orient::{Vector, cross, dot};

/// The direction. Where nothing tells one, forward along the x axis.
pub(crate) fn or_forward(d: Vector) -> Vector
    requires { IsShort 2000000000 d }
    ensures value { result ≡ or_forward d }
    ensures short { IsShort 2000000000 result }
    ensures somewhere { IsSomewhere result }
{
    if d.x == 0 && d.y == 0 {
        Vector { x: 1, y: 0 }
    } else {
        d
    }
}

/// The turn from the direction `g` to the direction `d`, in whole numbers of 30 to 31 binary digits.
pub(crate) fn turn(g: Vector, d: Vector) -> Vector
    requires g_short { IsShort 2000000000 g }
    requires d_short { IsShort 2000000000 d }
    requires g_somewhere { IsSomewhere g }
    requires d_somewhere { IsSomewhere d }
    ensures value { result ≡ scaled (turn_between g d) }
    ensures turn { IsTurn result }
{
    scaled(turn_between(g, d))
}

/// The parts of `d` along `g`, and across it to the left.
fn turn_between(g: Vector, d: Vector) -> Vector
    requires g_short { IsShort 2000000000 g }
    requires d_short { IsShort 2000000000 d }
    requires g_somewhere { IsSomewhere g }
    requires d_somewhere { IsSomewhere d }
    ensures value { result ≡ turn_between g d }
    ensures short { IsShort 8000000000000000000 result }
    ensures somewhere { IsSomewhere result }
{
    Vector {
        x: dot(g, d),
        y: cross(g, d),
    }
}

/// Both parts by the power of two with which the greater has 31 binary digits.
fn scaled(v: Vector) -> Vector
    requires short { IsShort 8000000000000000000 v }
    requires somewhere { IsSomewhere v }
    ensures value { result ≡ scaled v }
    ensures turn { IsTurn result }
{
    let digit = highest_digit(v.x.unsigned_abs().max(v.y.unsigned_abs()));
    Vector {
        x: scaled_part(digit, v.x),
        y: scaled_part(digit, v.y),
    }
}

/// The place of the highest binary digit.
fn highest_digit(m: u128) -> u32
    requires positive { 0 < m }
    requires few { m ≤ 8000000000000000000 }
    ensures value { result ≡ highest_digit m }
    ensures below { 2 ^ result ≤ m }
    ensures above { m < 2 * 2 ^ result }
    ensures few { result ≤ 62 }
{
    127 - m.leading_zeros()
}

/// The number by a power of two, so that 2^digit becomes 2^30.
fn scaled_part(digit: u32, n: i128) -> i128
    requires digit { digit ≤ 62 }
    requires within { IsWithin 8000000000000000000 n }
    ensures { result ≡ scaled_part digit n }
{
    toward_zero(1 << digit, n * 1_073_741_824)
}

/// `n / d`, rounded towards zero.
fn toward_zero(d: u128, n: i128) -> i128
    requires positive { 0 < d }
    requires within { unsigned_abs n ≤ 2 ^ 126 }
    ensures { result ≡ toward_zero d n }
{
    let size = (n.unsigned_abs() / d) as i128;
    if n < 0 { -size } else { size }
}
