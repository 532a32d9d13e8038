// The signs of placed elements.
ghost use Rattle.std.specs.Prelude.{◌≡◌};
ghost use Rattle.sk_base.specs.Bounds.{IsWithin};
ghost use Rattle.sk_base.specs.Places.{IsPoint, IsLine, IsBounded};
ghost use Rattle.sk_orient.specs.Vectors.{IsShort, IsSmall};
ghost use Rattle.sk_orient.specs.PlacedSigns.{spot_of, normal_of, heading_of, offset_of, height, placed_sign, side_placed, sense_placed, turn_placed, advance_placed};

use crate::vector::{Vector, cross, dot, rotation, way};
use sk_base::{At, Ratio};

/// Parts per 10^9 of one.
const ONE: i128 = 1_000_000_000;

/// 1 where the point lies to the left of the line, 0 on it, −1 to the right.
pub fn side_placed(line: At, p: At) -> i8
    requires line { IsLine line × IsBounded line }
    requires p { IsPoint p × IsBounded p }
    ensures { result ≡ side_placed line p }
{
    placed_sign(height(line, p))
}

/// The sense of the angle of tangent `r` from line `l` to line `m`: 1 where `m` goes forward along `l`
/// when that is turned by the angle, 0 straight across it.
pub fn sense_placed(l: At, m: At, r: Ratio) -> i8
    requires l { IsLine l × IsBounded l }
    requires m { IsLine m × IsBounded m }
    requires r { IsSmall r }
    ensures { result ≡ sense_placed l m r }
{
    placed_sign(rotation(normal(l), normal(m), r))
}

/// 1 where the three points go round to the left, 0 where they lie on one line.
pub fn turn_placed(p: At, q: At, r: At) -> i8
    requires p { IsPoint p × IsBounded p }
    requires q { IsPoint q × IsBounded q }
    requires r { IsPoint r × IsBounded r }
    ensures { result ≡ turn_placed p q r }
{
    let first = spot(p);
    placed_sign(cross(way(first, spot(q)), way(first, spot(r))))
}

/// 1 where the way from `p` to `q` goes forward along the line, 0 straight across it.
pub fn advance_placed(line: At, p: At, q: At) -> i8
    requires line { IsLine line × IsBounded line }
    requires p { IsPoint p × IsBounded p }
    requires q { IsPoint q × IsBounded q }
    ensures { result ≡ advance_placed line p q }
{
    placed_sign(dot(heading(line), way(spot(p), spot(q))))
}

/// How far the point lies to the left of the line, in nanometres by 10^9.
fn height(line: At, p: At) -> i128
    requires line { IsLine line × IsBounded line }
    requires p { IsPoint p × IsBounded p }
    ensures { result ≡ height line p }
{
    let outward = dot(normal(line), spot(p));
    outward - ONE * offset(line)
}

/// The coordinates of a point.
fn spot(p: At) -> Vector
    requires point { IsPoint p }
    requires bounded { IsBounded p }
    ensures spot { result ≡ spot_of p }
    ensures short { IsShort 1152921504606846976 result }
{
    match p {
        At::Point { x, y } => Vector {
            x: i128::from(x),
            y: i128::from(y),
        },
        At::Line { .. } => unreachable!(),
    }
}

fn normal(line: At) -> Vector
    requires line { IsLine line }
    requires bounded { IsBounded line }
    ensures normal { result ≡ normal_of line }
    ensures short { IsShort 2000000000 result }
{
    match line {
        At::Line { a, b, .. } => Vector {
            x: i128::from(a),
            y: i128::from(b),
        },
        At::Point { .. } => unreachable!(),
    }
}

/// The direction of a line.
fn heading(line: At) -> Vector
    requires line { IsLine line }
    requires bounded { IsBounded line }
    ensures heading { result ≡ heading_of line }
    ensures short { IsShort 2000000000 result }
{
    let normal = normal(line);
    Vector {
        x: normal.y,
        y: -normal.x,
    }
}

/// Where the line crosses its normal.
fn offset(line: At) -> i128
    requires line { IsLine line }
    requires bounded { IsBounded line }
    ensures offset { result ≡ offset_of line }
    ensures within { IsWithin 1152921504606846976 result }
{
    match line {
        At::Line { c, .. } => i128::from(c),
        At::Point { .. } => unreachable!(),
    }
}

fn placed_sign(number: i128) -> i8
    ensures sign { result ≡ placed_sign number }
    ensures small { IsWithin 1 result }
{
    number.signum() as i8
}
