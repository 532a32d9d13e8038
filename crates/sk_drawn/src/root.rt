// How far two elements are drawn apart, in whole micrometres.
ghost use Rattle.std.specs.Prelude.{◌≡◌, ◌≤◌, ◌*◌, unsigned_abs};
ghost use Rattle.sk_base.specs.Drawn.{IsLine, HasCentre};
ghost use Rattle.sk_base.specs.SoundSketch.{IsSoundShape, MayBeApart};
ghost use Rattle.sk_orient.specs.DrawnSigns.{IsOnPaper, place_of, direction_of};
ghost use Rattle.sk_orient.specs.Vectors.{IsShort, cross, way};
ghost use Rattle.sk_drawn.specs.DrawnValues.{Quotient, IsNearestRoot, IsDrawnApart, from_line, between, square};

use sk_base::Shape;
use sk_orient::{Vector, cross, direction, dot, place, way};
use sk_root::root_floor;

/// The root of the quotient, to the nearest whole number, halves up.
fn nearest_root(over: u128, under: u128) -> u64
    requires some { 1 ≤ under }
    requires room { 4 * over ≤ 340282366920938463463374607431768211455 }
    ensures { IsNearestRoot (record { over = over; under = under }) result }
{
    let root = root_floor(4 * over / under);
    root / 2 + root % 2
}

/// How many whole micrometres the two are drawn apart. One of them has a centre.
pub(crate) fn drawn_apart(a: &Shape, b: &Shape) -> u64
    requires a { IsSoundShape a.now }
    requires b { IsSoundShape b.now }
    requires fits { MayBeApart a.now b.now }
    ensures { IsDrawnApart a.now b.now result }
{
    if a.is_line() {
        off_line(a, b)
    } else if b.is_line() {
        off_line(b, a)
    } else {
        centres_apart(a, b)
    }
}

/// How many whole micrometres the point or centre is drawn from the line.
fn off_line(line: &Shape, p: &Shape) -> u64
    requires line { IsLine line.now × IsSoundShape line.now }
    requires p { HasCentre p.now × IsSoundShape p.now }
    ensures { IsNearestRoot (from_line line.now p.now) result }
{
    let height = height(line, p);
    nearest_root(height * height, length_squared(direction(line)))
}

/// How high the point or centre stands over the line, times the line's length.
pub(crate) fn height(line: &Shape, p: &Shape) -> u128
    requires line { IsOnPaper line.now }
    requires p { IsOnPaper p.now }
    ensures value { result ≡ unsigned_abs (cross (direction_of line.now) (way (place_of line.now) (place_of p.now))) }
    ensures few { result ≤ 8000000000000000000 }
{
    cross(direction(line), way(place(line), place(p))).unsigned_abs()
}

/// How many whole micrometres the two points or centres are drawn apart.
fn centres_apart(a: &Shape, b: &Shape) -> u64
    requires a { IsOnPaper a.now }
    requires b { IsOnPaper b.now }
    ensures { IsNearestRoot (between a.now b.now) result }
{
    nearest_root(length_squared(way(place(a), place(b))), 1)
}

/// The square of the vector's length.
pub(crate) fn length_squared(v: Vector) -> u128
    requires { IsShort 2000000000 v }
    ensures value { result ≡ square v }
    ensures few { result ≤ 8000000000000000000 }
{
    dot(v, v).unsigned_abs()
}
