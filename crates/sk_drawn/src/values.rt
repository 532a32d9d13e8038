// What is drawn between two elements, as the rule that says it.
ghost use Rattle.std.specs.Prelude.{◌≡◌, ◌≢◌, ◌≤◌, ◌<◌, ◌↔◌, ℕ, IfNone, IfSome, IsTrue, None, Some, unsigned_abs};
ghost use Rattle.sk_base.specs.declared.Ratio.{Ratio as TheRatio};
ghost use Rattle.sk_base.specs.declared.Rule.{Rule as TheRule};
ghost use Rattle.sk_base.specs.declared.Um.{Um as TheUm};
ghost use Rattle.sk_base.specs.Drawn.{HasCentre, IsLine, shape_of};
ghost use Rattle.sk_base.specs.SoundSketch.{IsSoundSketch, IsSoundRule, IsSoundShape, IsSoundRatio, IsLength, AreLines};
ghost use Rattle.sk_orient.specs.DrawnSigns.{IsOnPaper};
ghost use Rattle.sk_drawn.specs.DrawnValues.{IsDrawnApart, IsDrawnRatio, IsDrawnRule, IsDrawnSize, IsDrawnValue, IsTurned, Joins};

use crate::ratio::nearest_ratio;
use crate::root::drawn_apart;
use sk_base::{Elem, Ratio, Rule, Shape, Sketch, Um};
use sk_orient::{cross, direction, dot};

/// The greatest length, in micrometres.
const MOST: u64 = 1_000_000_000;

/// The rule that says what is drawn between two elements: of a point or centre and a line it names the line behind, else
/// the lesser number first. A distance is in micrometres. None exactly where no sound rule says it: they are one, are
/// drawn at one place or further apart than a length may be, or are lines so nearly parallel that the nearest ratio is 0.
pub fn drawn_value(s: &Sketch, u: Elem, v: Elem) -> Option<Rule>
    requires { IsSoundSketch s.now }
    ensures some { IfSome result (IsDrawnRule s.now u v) }
    ensures none { IfNone result ((rule : TheRule) → ¬ IsDrawnRule s.now u v rule) }
{
    if u.0 < v.0 {
        rule_between(s, u, v)
    } else if v.0 < u.0 {
        rule_between(s, v, u)
    } else {
        None
    }
}

/// The same of two elements in order.
fn rule_between(s: &Sketch, u: Elem, v: Elem) -> Option<Rule>
    requires sketch { IsSoundSketch s.now }
    requires order { u.0 < v.0 }
    ensures some { IfSome result (IsDrawnRule s.now u v) }
    ensures none { IfNone result ((rule : TheRule) → ¬ IsDrawnRule s.now u v rule) }
{
    let a = shape_in(s, u)?;
    let b = shape_in(s, v)?;
    if a.is_line() {
        if b.is_line() {
            turned(s, u, v, a, b)
        } else {
            beside(s, v, u, b, a)
        }
    } else if b.is_line() {
        beside(s, u, v, a, b)
    } else {
        apart(s, u, v, a, b)
    }
}

/// How the element of that number is drawn.
pub fn shape_in(s: &Sketch, e: Elem) -> Option<Shape>
    requires { IsSoundSketch s.now }
    ensures is { IfSome result (λ shape. shape_of s.now e ≡ Some shape) }
    ensures none { IfNone result (shape_of s.now e ≡ None) }
    ensures sound { IfSome result IsSoundShape }
{
    match s.look_up(e) {
        Some(element) => Some(element.shape),
        None => None,
    }
}

/// How far the point or centre is drawn from the line.
fn beside(s: &Sketch, p: Elem, line: Elem, a: Shape, b: Shape) -> Option<Rule>
    requires differ { p ≢ line }
    requires a_is { shape_of s.now p ≡ Some a }
    requires b_is { shape_of s.now line ≡ Some b }
    requires a_sound { IsSoundShape a }
    requires b_sound { IsSoundShape b }
    requires centre { HasCentre a }
    requires line { IsLine b }
    ensures sound { IfSome result (IsSoundRule s.now) }
    ensures drawn { IfSome result (IsDrawnValue s.now) }
    ensures joins { IfSome result (Joins p line) }
    ensures none { IfNone result (((len : TheUm) → IsLength len → ¬ IsDrawnApart a b (unsigned_abs len.0)) × ¬ IsDrawnApart a b 0) }
{
    match drawn_apart(&a, &b) {
        0 => Some(Rule::On { u: p, v: line }),
        len if len <= MOST => Some(Rule::Distance {
            u: p,
            v: line,
            len: Um(len as i64),
        }),
        _ => None,
    }
}

/// How far the two points or centres are drawn apart.
fn apart(s: &Sketch, u: Elem, v: Elem, a: Shape, b: Shape) -> Option<Rule>
    requires differ { u ≢ v }
    requires a_is { shape_of s.now u ≡ Some a }
    requires b_is { shape_of s.now v ≡ Some b }
    requires a_sound { IsSoundShape a }
    requires b_sound { IsSoundShape b }
    requires centre { HasCentre a }
    ensures sound { IfSome result (IsSoundRule s.now) }
    ensures drawn { IfSome result (IsDrawnValue s.now) }
    ensures joins { IfSome result (Joins u v) }
    ensures none { IfNone result ((len : TheUm) → IsLength len → ¬ IsDrawnApart a b (unsigned_abs len.0)) }
{
    match drawn_apart(&a, &b) {
        0 => None,
        len if len <= MOST => Some(Rule::Distance {
            u,
            v,
            len: Um(len as i64),
        }),
        _ => None,
    }
}

/// The angle that is drawn from the one line to the other.
fn turned(s: &Sketch, l: Elem, m: Elem, a: Shape, b: Shape) -> Option<Rule>
    requires differ { l ≢ m }
    requires a_is { shape_of s.now l ≡ Some a }
    requires b_is { shape_of s.now m ≡ Some b }
    requires a_on_paper { IsOnPaper a }
    requires b_on_paper { IsOnPaper b }
    requires lines { AreLines a b }
    ensures sound { IfSome result (IsSoundRule s.now) }
    ensures drawn { IfSome result (IsDrawnValue s.now) }
    ensures joins { IfSome result (Joins l m) }
    ensures none { IfNone result ((ratio : TheRatio) → IsSoundRatio ratio → ¬ IsDrawnRatio a b ratio) }
{
    let ratio = drawn_ratio(a, b)?;
    Some(Rule::Angle { l, m, ratio })
}

/// The ratio of the angle that is drawn from the one line to the other.
fn drawn_ratio(a: Shape, b: Shape) -> Option<Ratio>
    requires a { IsOnPaper a }
    requires b { IsOnPaper b }
    ensures sound { IfSome result IsSoundRatio }
    ensures drawn { IfSome result (IsDrawnRatio a b) }
    ensures none { IfNone result ((ratio : TheRatio) → IsSoundRatio ratio → ¬ IsDrawnRatio a b ratio) }
{
    let first = direction(&a);
    let second = direction(&b);
    nearest_ratio(cross(first, second), dot(first, second))
}

/// How far the two are drawn apart, in whole micrometres, and 0 for lines. None exactly where nothing is said of them.
pub fn drawn_size(a: Shape, b: Shape) -> Option<u64>
    requires a { IsSoundShape a }
    requires b { IsSoundShape b }
    ensures some { IfSome result (IsDrawnSize a b) }
    ensures none { IfNone result ((n : ℕ) → ¬ IsDrawnSize a b n) }
{
    if a.is_line() {
        if b.is_line() {
            if is_turned(a, b) { Some(0) } else { None }
        } else {
            length_within(drawn_apart(&a, &b), 0)
        }
    } else if b.is_line() {
        length_within(drawn_apart(&a, &b), 0)
    } else {
        length_within(drawn_apart(&a, &b), 1)
    }
}

/// The length, where it may be one.
fn length_within(len: u64, least: u64) -> Option<u64>
    ensures some { IfSome result (λ n. (n ≡ len) × (least ≤ len) × (len ≤ 1000000000)) }
    ensures none { IfNone result (¬ ((least ≤ len) × (len ≤ 1000000000))) }
{
    if len >= least && len <= MOST {
        Some(len)
    } else {
        None
    }
}

/// Whether the nearest ratio of the angle from the one line to the other isn't 0.
fn is_turned(a: Shape, b: Shape) -> bool
    requires a { IsOnPaper a }
    requires b { IsOnPaper b }
    ensures { IsTrue result ↔ IsTurned a b }
{
    let first = direction(&a);
    let second = direction(&b);
    let across = cross(first, second).unsigned_abs();
    dot(first, second).unsigned_abs() < 20_000 * across
}
