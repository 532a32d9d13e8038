// How firmly a constraint holds two parts that share one element, as far as the drawing tells.
ghost use Rattle.std.specs.Prelude.{◌≡◌, ◌↔◌, IfNone, IfSome, IsTrue};
ghost use Rattle.sk_base.specs.Drawn.{is_line, IsLine};
ghost use Rattle.sk_base.specs.SoundSketch.{IsSoundShape, IsSoundSketch};
ghost use Rattle.sk_orient.specs.DrawnSigns.{IsOnPaper};
ghost use Rattle.sk_orient.specs.Vectors.{IsShort};
ghost use Rattle.sk_drawn.specs.declared.grade.Firm.{Firm as AnyFirm};
ghost use Rattle.sk_drawn.specs.Firmness.{IsFew, IsFirmness, IsFlat, across, along, firm_between, floor_from, from_to, grade_of, of_three, reach};

use crate::root::{height, length_squared};
use crate::values::shape_in;
use sk_base::{Elem, Shape, Sketch};
use sk_orient::{Vector, cross, direction, dot, place, way};

/// How firmly a constraint holds.
#[derive(Clone, Copy)]
pub enum Firm {
    /// By an angle whose sine has the square `x * x / m`: not at all where `x` is 0.
    Sine { x: i128, m: u128 },
    /// By the angle of two lines across a point: wholly, however they are drawn.
    Angle,
}

impl Firm {
    /// In sixteenths: of a sine its square, from 0 to 15; 16 for an angle.
    pub fn grade(self) -> u128
        requires { IsFew self }
        ensures { result ≡ grade_of self }
    {
        match self {
            Firm::Sine { x, m } => {
                let size = x.unsigned_abs();
                size * size / (m / 16 + 1)
            }
            Firm::Angle => 16,
        }
    }

    /// Whether the constraint holds nothing, as drawn.
    pub fn is_flat(self) -> bool
        ensures { IsTrue result ↔ IsFlat self }
    {
        match self {
            Firm::Sine { x, .. } => x == 0,
            Firm::Angle => false,
        }
    }
}

/// How firmly a constraint between u and v holds two parts that share w alone. None exactly where one of the three isn't
/// in the sketch, or all are lines: no constraint holds parts that share a line by lines.
pub fn firmness(s: &Sketch, w: Elem, u: Elem, v: Elem) -> Option<Firm>
    requires { IsSoundSketch s.now }
    ensures some { IfSome result (IsFirmness s.now w u v) }
    ensures none { IfNone result ((firm : AnyFirm) → ¬ IsFirmness s.now w u v firm) }
{
    let shared = shape_in(s, w)?;
    let first = shape_in(s, u)?;
    let second = shape_in(s, v)?;
    if shared.is_line() && first.is_line() && second.is_line() {
        return None;
    }
    Some(firm_between(&shared, &first, &second))
}

/// The same of three shapes. Along a line two parts slide, about a point they turn.
pub fn firm_between(w: &Shape, u: &Shape, v: &Shape) -> Firm
    requires w { IsOnPaper w.now }
    requires u { IsOnPaper u.now }
    requires v { IsOnPaper v.now }
    ensures is { result ≡ firm_between w.now u.now v.now }
    ensures few { IsFew result }
{
    if w.is_line() {
        beside_line(w, u, v)
    } else if u.is_line() {
        if v.is_line() {
            Firm::Angle
        } else {
            along(direction(u), between(w, v))
        }
    } else if v.is_line() {
        along(direction(v), between(w, u))
    } else {
        of_three(w, u, v)
    }
}

/// The shared element is a line.
fn beside_line(w: &Shape, u: &Shape, v: &Shape) -> Firm
    requires line { IsTrue (is_line w.now) }
    requires w { IsOnPaper w.now }
    requires u { IsOnPaper u.now }
    requires v { IsOnPaper v.now }
    ensures is { result ≡ firm_between w.now u.now v.now }
    ensures few { IsFew result }
{
    if u.is_line() {
        across(direction(w), direction(u))
    } else if v.is_line() {
        across(direction(w), direction(v))
    } else {
        along(direction(w), between(u, v))
    }
}

/// The three are points: the sine of the angle at the end of the longer side.
fn of_three(w: &Shape, u: &Shape, v: &Shape) -> Firm
    requires w { IsOnPaper w.now }
    requires u { IsOnPaper u.now }
    requires v { IsOnPaper v.now }
    ensures is { result ≡ of_three w.now u.now v.now }
    ensures few { IsFew result }
{
    let first = between(w, u);
    let second = between(w, v);
    let longer = length_squared(first).max(length_squared(second));
    Firm::Sine {
        x: cross(first, second),
        m: longer * length_squared(between(u, v)),
    }
}

/// The way from the place of the one to that of the other.
fn between(a: &Shape, b: &Shape) -> Vector
    requires a { IsOnPaper a.now }
    requires b { IsOnPaper b.now }
    ensures is { result ≡ from_to a.now b.now }
    ensures short { IsShort 2000000000 result }
{
    way(place(a), place(b))
}

/// By the sine of the angle between the two.
fn across(one: Vector, other: Vector) -> Firm
    requires one { IsShort 2000000000 one }
    requires other { IsShort 2000000000 other }
    ensures is { result ≡ across one other }
    ensures few { IsFew result }
{
    Firm::Sine {
        x: cross(one, other),
        m: length_squared(one) * length_squared(other),
    }
}

/// By the cosine of the angle between the two.
fn along(one: Vector, other: Vector) -> Firm
    requires one { IsShort 2000000000 one }
    requires other { IsShort 2000000000 other }
    ensures is { result ≡ along one other }
    ensures few { IsFew result }
{
    Firm::Sine {
        x: dot(one, other),
        m: length_squared(one) * length_squared(other),
    }
}

/// The square of how far the two are drawn apart, rounded down; 0 for two lines.
pub fn reach_of(u: &Shape, v: &Shape) -> u128
    requires u { IsSoundShape u.now }
    requires v { IsSoundShape v.now }
    ensures { result ≡ reach u.now v.now }
{
    if u.is_line() {
        if v.is_line() { 0 } else { reach_from(u, v) }
    } else if v.is_line() {
        reach_from(v, u)
    } else {
        length_squared(between(u, v))
    }
}

fn reach_from(line: &Shape, p: &Shape) -> u128
    requires line { IsLine line.now × IsSoundShape line.now }
    requires p { IsSoundShape p.now }
    ensures { result ≡ floor_from line.now p.now }
{
    let height = height(line, p);
    height * height / length_squared(direction(line))
}
