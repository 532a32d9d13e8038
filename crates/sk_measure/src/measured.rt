// What a measure asks, and how far two places are from it.
ghost use Rattle.std.specs.Prelude.{◌≡◌, ◌≤◌, ◌^◌, ◌*◌, ◌↔◌, ℕ, IsTrue, unsigned_abs};
ghost use Rattle.sk_base.specs.Bounds.{IsWithin, IsFromTo};
ghost use Rattle.sk_base.specs.Pins.{IsOnSheet};
ghost use Rattle.sk_base.specs.Places.{IsPoint, IsLine, IsBounded};
ghost use Rattle.sk_base.specs.SoundSketch.{IsSoundRatio};
ghost use Rattle.sk_measure.specs.Least.{IsLeast};
ghost use Rattle.sk_measure.specs.Offsets.{billion, distance_squared, height_above, height_excess, height_offset, normal_offset, angle_excess, angle_offset, angle_unit};
ghost use Rattle.sk_measure.specs.Holding.{IsMet, IsNormal, FallsShort, FitsKinds, given_squared, AreAsGiven};
ghost use Rattle.sk_measure.specs.Placing.{IsModerate};

use crate::length::{is_shorter, least_of_length, length_holds};
use crate::offset::{least_of_offset, offset_holds};
use crate::whole::{cross, dot, is_negative, scaled, signed, squared_difference};
use sk_base::{At, Measure, Pin, Ratio, Sign, Um};
use sk_root::{root_ceil, root_floor};

/// Parts per 10^9 of one.
const ONE: i64 = 1_000_000_000;

/// The square of that.
const ONE_SQUARED: i128 = 1_000_000_000_000_000_000;

/// The unit in which heights and normals may be off.
const UNIT: u64 = 1_000_000_000;

/// Whether the two places are as the measure asks, within `n`.
pub fn is_met(measure: Measure, u: At, v: At, n: u64) -> bool
    requires fits { FitsKinds measure u v }
    requires moderate { IsModerate measure }
    requires u_bounded { IsBounded u }
    requires v_bounded { IsBounded v }
    requires few { n ≤ 2 ^ 62 }
    ensures { IsTrue result ↔ IsMet measure u v n }
{
    match (measure, u, v) {
        (Measure::PointPoint(len), At::Point { x, y }, At::Point { x: z, y: t }) => {
            length_holds(square_of(x, y, z, t), nanometres(len), n)
        }
        (Measure::PointLine(len, side), At::Point { x, y }, At::Line { a, b, c }) => {
            offset_holds(height_offset(len, side, height(x, y, a, b, c)), UNIT, n)
        }
        (Measure::LineLine(ratio, _), At::Line { a, b, .. }, At::Line { a: d, b: e, .. }) => {
            offset_holds(angle_offset(ratio, a, b, d, e), angle_unit(ratio), n)
        }
        _ => unreachable!(),
    }
}

/// The least number within which the two places are as the measure asks.
pub fn least_of(measure: Measure, u: At, v: At) -> u64
    requires fits { FitsKinds measure u v }
    requires moderate { IsModerate measure }
    requires u_bounded { IsBounded u }
    requires v_bounded { IsBounded v }
    ensures { IsLeast (IsMet measure u v) result }
{
    match (measure, u, v) {
        (Measure::PointPoint(len), At::Point { x, y }, At::Point { x: z, y: t }) => {
            let length = nanometres(len);
            least_of_length(square_of(x, y, z, t), length, length)
        }
        (Measure::PointLine(len, side), At::Point { x, y }, At::Line { a, b, c }) => {
            least_of_offset(height_offset(len, side, height(x, y, a, b, c)), UNIT)
        }
        (Measure::LineLine(ratio, _), At::Line { a, b, .. }, At::Line { a: d, b: e, .. }) => {
            least_of_offset(angle_offset(ratio, a, b, d, e), angle_unit(ratio))
        }
        _ => unreachable!(),
    }
}

/// Whether the two places give less than the measure asks.
pub fn falls_short(measure: Measure, u: At, v: At) -> bool
    requires fits { FitsKinds measure u v }
    requires moderate { IsModerate measure }
    requires u_bounded { IsBounded u }
    requires v_bounded { IsBounded v }
    ensures { IsTrue result ↔ FallsShort measure u v }
{
    match (measure, u, v) {
        (Measure::PointPoint(len), At::Point { x, y }, At::Point { x: z, y: t }) => {
            is_shorter(square_of(x, y, z, t), nanometres(len))
        }
        (Measure::PointLine(len, side), At::Point { x, y }, At::Line { a, b, c }) => {
            is_negative(height_excess(len, side, height(x, y, a, b, c)))
        }
        (Measure::LineLine(ratio, sense), At::Line { a, b, .. }, At::Line { a: d, b: e, .. }) =>
            is_negative(signed(sense, angle_excess(ratio, a, b, d, e))),
        _ => unreachable!(),
    }
}

/// The least number within which two points are as far apart as the pins are given.
pub fn least_of_pair(a: &Pin, b: &Pin, u: At, v: At) -> u64
    requires a { IsOnSheet a.now }
    requires b { IsOnSheet b.now }
    requires u { IsPoint u × IsBounded u }
    requires v { IsPoint v × IsBounded v }
    ensures { IsLeast (AreAsGiven a.now b.now u v) result }
{
    match (u, v) {
        (At::Point { x, y }, At::Point { x: z, y: t }) => {
            let given = given_squared(a, b);
            least_of_length(square_of(x, y, z, t), root_floor(given), root_ceil(given))
        }
        _ => unreachable!(),
    }
}

/// The square of the distance of two pins' given places, in nanometres.
fn given_squared(a: &Pin, b: &Pin) -> u128
    requires a { IsOnSheet a.now }
    requires b { IsOnSheet b.now }
    ensures value { result ≡ given_squared a.now b.now }
    ensures within { result ≤ 2 ^ 83 }
{
    1_000_000 * square_of(a.x.0, a.y.0, b.x.0, b.y.0)
}

/// The least number within which the line's normal has length one.
pub fn least_of_normal(line: At) -> u64
    requires line { IsLine line }
    requires bounded { IsBounded line }
    ensures { IsLeast (IsNormal line) result }
{
    match line {
        At::Line { a, b, .. } => least_of_offset(normal_offset(a, b), UNIT),
        At::Point { .. } => unreachable!(),
    }
}

/// A length in nanometres.
fn nanometres(len: Um) -> u64
    requires { IsFromTo 1 2000000000 len.0 }
    ensures value { result ≡ 1000 * unsigned_abs len.0 }
    ensures within { result ≤ 2 ^ 41 }
{
    1000 * len.0.unsigned_abs()
}

/// The square of the distance of two points.
fn square_of(x: i64, y: i64, z: i64, t: i64) -> u128
    requires x { IsWithin 1152921504606846976 x }
    requires y { IsWithin 1152921504606846976 y }
    requires z { IsWithin 1152921504606846976 z }
    requires t { IsWithin 1152921504606846976 t }
    ensures value { result ≡ distance_squared x y z t }
    ensures within { result ≤ 2 ^ 123 }
    ensures small { (most : ℕ) → IsWithin most x → IsWithin most y → IsWithin most z → IsWithin most t → result ≤ 8 * (most * most) }
{
    squared_difference(x, z) + squared_difference(y, t)
}

/// How high a point is above a line.
fn height(x: i64, y: i64, a: i64, b: i64, c: i64) -> i128
    requires x { IsWithin 1152921504606846976 x }
    requires y { IsWithin 1152921504606846976 y }
    requires a { IsWithin 2000000000 a }
    requires b { IsWithin 2000000000 b }
    requires c { IsWithin 1152921504606846976 c }
    ensures value { result ≡ height_above x y a b c }
    ensures within { unsigned_abs result ≤ 5 * billion * 2 ^ 60 }
{
    scaled(a, i128::from(x)) + scaled(b, i128::from(y)) - scaled(ONE, i128::from(c))
}

/// By how much a height is more than the asked one on that side.
fn height_excess(len: Um, side: Sign, height: i128) -> i128
    requires asked { IsFromTo 0 1000000000 len.0 }
    requires height { unsigned_abs height ≤ 5 * billion * 2 ^ 60 }
    ensures value { result ≡ height_excess len.0 side height }
    ensures within { unsigned_abs result ≤ 2 ^ 63 * billion }
{
    signed(side, height) - scaled(ONE, 1000 * i128::from(len.0))
}

/// How far a height is from the asked one on that side.
fn height_offset(len: Um, side: Sign, height: i128) -> u128
    requires asked { IsFromTo 0 1000000000 len.0 }
    requires height { unsigned_abs height ≤ 5 * billion * 2 ^ 60 }
    ensures value { result ≡ height_offset len.0 side height }
    ensures within { result ≤ 2 ^ 63 * billion }
{
    height_excess(len, side, height).unsigned_abs()
}

/// How far the square of the length of a normal is from one.
fn normal_offset(a: i64, b: i64) -> u128
    requires a { IsWithin 2000000000 a }
    requires b { IsWithin 2000000000 b }
    ensures value { result ≡ normal_offset a b }
    ensures within { result ≤ 2 ^ 63 * billion }
{
    (dot(a, b, a, b) - ONE_SQUARED).unsigned_abs()
}

/// By how much the second of two normals goes further round from the first than the asked angle.
fn angle_excess(ratio: Ratio, a: i64, b: i64, d: i64, e: i64) -> i128
    requires ratio { IsSoundRatio ratio }
    requires a { IsWithin 2000000000 a }
    requires b { IsWithin 2000000000 b }
    requires d { IsWithin 2000000000 d }
    requires e { IsWithin 2000000000 e }
    ensures value { result ≡ angle_excess ratio a b d e }
    ensures within { unsigned_abs result ≤ 2 ^ 63 * billion }
{
    let along = scaled(i64::from(ratio.q), cross(a, b, d, e));
    let across = scaled(i64::from(ratio.p), dot(a, b, d, e));
    along - across
}

/// How far the angle between two normals is from the asked one.
fn angle_offset(ratio: Ratio, a: i64, b: i64, d: i64, e: i64) -> u128
    requires ratio { IsSoundRatio ratio }
    requires a { IsWithin 2000000000 a }
    requires b { IsWithin 2000000000 b }
    requires d { IsWithin 2000000000 d }
    requires e { IsWithin 2000000000 e }
    ensures value { result ≡ angle_offset ratio a b d e }
    ensures within { result ≤ 2 ^ 63 * billion }
{
    angle_excess(ratio, a, b, d, e).unsigned_abs()
}

/// The unit of that offset.
fn angle_unit(ratio: Ratio) -> u64
    requires { IsSoundRatio ratio }
    ensures value { result ≡ angle_unit ratio }
    ensures some { billion ≤ result }
{
    UNIT * (u64::from(ratio.p.unsigned_abs()) + u64::from(ratio.q.unsigned_abs()))
}
