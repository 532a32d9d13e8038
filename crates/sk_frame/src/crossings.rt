// Where two drawn lines meet.
ghost use Rattle.std.specs.Prelude.{◌≡◌, ◌≢◌, ◌≤◌, ◌^◌, pos, unsigned_abs};
ghost use Rattle.std.specs.Ordering.{int_eq};
ghost use Rattle.sk_base.specs.Bounds.{IsWithin};
ghost use Rattle.sk_base.specs.Nearest.{nearest};
ghost use Rattle.sk_orient.specs.DrawnSigns.{IsOnPaper};
ghost use Rattle.sk_orient.specs.Vectors.{IsShort, cross as cross_of};
ghost use Rattle.sk_frame.specs.Crossings.{nearest_ratio, nanometres, crossing_at, crossing, is_near, near_or, meeting};

use sk_base::{Shape, nearest};
use sk_orient::{Vector, cross, direction, place, way};

/// The place in nanometres.
pub(crate) fn nanometres(v: Vector) -> Vector
    requires { IsShort 1000000000 v }
    ensures value { result ≡ nanometres v }
    ensures short { IsShort 1000000000000 result }
{
    Vector {
        x: 1000 * v.x,
        y: 1000 * v.y,
    }
}

/// Where the lines meet as they are drawn, in nanometres. Where they are parallel, or meet more than a
/// kilometre away, the first place of `u`.
pub(crate) fn meeting(u: &Shape, v: &Shape) -> Vector
    requires u { IsOnPaper u.now }
    requires v { IsOnPaper v.now }
    ensures value { result ≡ meeting u.now v.now }
    ensures short { IsShort 1000000000000 result }
{
    let (p, d) = (place(u), direction(u));
    let (q, e) = (place(v), direction(v));
    if are_parallel(d, e) {
        nanometres(p)
    } else {
        near_or(crossing(p, d, q, e), nanometres(p))
    }
}

fn are_parallel(d: Vector, e: Vector) -> bool
    requires d { IsShort 2000000000 d }
    requires e { IsShort 2000000000 e }
    ensures { result ≡ int_eq (cross_of d e) (pos 0) }
{
    cross(d, e) == 0
}

/// The first, unless it is too far away.
fn near_or(v: Vector, other: Vector) -> Vector
    requires { IsShort 1000000000000 other }
    ensures value { result ≡ near_or v other }
    ensures short { IsShort 1000000000000 result }
{
    if is_near(v) { v } else { other }
}

fn is_near(v: Vector) -> bool
    ensures { result ≡ is_near v }
{
    v.x.unsigned_abs() <= 1_000_000_000_000 && v.y.unsigned_abs() <= 1_000_000_000_000
}

/// Where the line through `p` along `d` crosses the line through `q` along `e`.
fn crossing(p: Vector, d: Vector, q: Vector, e: Vector) -> Vector
    requires p { IsShort 1000000000 p }
    requires d { IsShort 2000000000 d }
    requires q { IsShort 1000000000 q }
    requires e { IsShort 2000000000 e }
    requires crosses { cross_of d e ≢ pos 0 }
    ensures { result ≡ crossing p d q e }
{
    let det = cross(d, e);
    let n = cross(way(p, q), e);
    Vector {
        x: crossing_at(p.x, d.x, n, det),
        y: crossing_at(p.y, d.y, n, det),
    }
}

/// One coordinate of a crossing.
fn crossing_at(p: i128, d: i128, n: i128, det: i128) -> i128
    requires p { IsWithin 1000000000 p }
    requires d { IsWithin 2000000000 d }
    requires n { IsWithin 8000000000000000000 n }
    requires det { IsWithin 8000000000000000000 det }
    requires crosses { det ≢ pos 0 }
    ensures { result ≡ crossing_at p d n det }
{
    nearest_ratio(1000 * (p * det + d * n), det)
}

/// `n / d`, to the nearest whole number, halves away from zero.
fn nearest_ratio(n: i128, d: i128) -> i128
    requires n { unsigned_abs n ≤ 2 ^ 126 }
    requires d { unsigned_abs d ≤ 8000000000000000000 }
    requires nonzero { d ≢ pos 0 }
    ensures { result ≡ nearest_ratio n d }
{
    if d < 0 {
        nearest_by(-n, d.unsigned_abs() as u64)
    } else {
        nearest_by(n, d as u64)
    }
}

/// `n / d`, to the nearest whole number, halves away from zero.
fn nearest_by(n: i128, d: u64) -> i128
    requires n { unsigned_abs n ≤ 2 ^ 126 }
    requires d { 1 ≤ d }
    ensures { result ≡ nearest d n }
{
    if d == 1 { n } else { nearest(n, d) }
}
