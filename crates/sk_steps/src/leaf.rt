//! The frames of starting clusters, of constraints and of blocks.
ghost use Rattle.std.specs.Prelude.{◌≡◌, ◌≤◌, ◌<ℤ◌, ◌≤ℤ◌, ◌*◌, ◌^◌, [], pos, unsigned_abs};
ghost use Rattle.sk_base.specs.Pins.{IsOnSheet};
ghost use Rattle.sk_base.specs.SoundSketch.{IsSoundRatio};
ghost use Rattle.sk_steps.specs.Expressions.{value, number, micrometres, ◌⊘◌, square_root, signed, length_box, normal_box};
ghost use Rattle.sk_steps.specs.Leaves.{leaf, AreMeasured, IsSoundMeasure, opposite, by_sign, square_of, pin_box};
ghost use Rattle.sk_steps.specs.Nesting.{HoldsFinerFrames, HoldsFinerPoint};

use crate::boxes::BoxOf;
use crate::parts::signed;
use sk_base::{Edge, Measure, Pin, Ratio, Sign, Um};
use sk_interval::{Grid, Iv};

/// A length on one side of zero.
fn length<G: Grid>(far: Um, side: Sign) -> Iv<G>
    requires { unsigned_abs far.0 ≤ 2000000000 }
    ensures { Ok result ≡ value G.BITS [] [] (length_box (signed side (micrometres far.0))) }
{
    signed(Iv::of_um(far), side).length_box().unwrap()
}

/// The number 0, as a part of a box.
fn zero<G: Grid>() -> Iv<G>
    ensures length { Ok result ≡ value G.BITS [] [] (length_box (number (pos 0))) }
    ensures normal { Ok result ≡ value G.BITS [] [] (normal_box (number (pos 0))) }
{
    Iv::whole(0)
}

/// The number 1, as a part of a normal.
fn one<G: Grid>() -> Iv<G>
    ensures { Ok result ≡ value G.BITS [] [] (normal_box (number (pos 1))) }
{
    Iv::whole(1)
}

/// The number `n` by the root of a square that is at least its own.
fn part<G: Grid>(n: i64, square: i64) -> Iv<G>
    requires least { unsigned_abs n * unsigned_abs n ≤ unsigned_abs square }
    requires positive { pos 0 <ℤ square }
    requires most { square ≤ℤ pos (2 ^ 40) }
    ensures { Ok result ≡ value G.BITS [] [] (normal_box (number n ⊘ square_root (number square))) }
{
    let root = Iv::whole(square).sqrt().unwrap();
    Iv::whole(n).div(root).unwrap().normal_box().unwrap()
}

/// The other sign.
pub fn opposite(sign: Sign) -> Sign
    ensures { result ≡ opposite sign }
{
    match sign {
        Sign::Plus => Sign::Minus,
        Sign::Minus => Sign::Plus,
    }
}

/// The number, or its negative.
fn by_sign(n: i32, sign: Sign) -> i64
    ensures value { result ≡ by_sign sign n }
    ensures size { unsigned_abs result ≡ unsigned_abs n }
{
    match sign {
        Sign::Plus => i64::from(n),
        Sign::Minus => -i64::from(n),
    }
}

/// `p² + q²`.
fn square_of(ratio: Ratio) -> i64
    requires { IsSoundRatio ratio }
    ensures value { result ≡ square_of ratio }
    ensures positive { pos 0 <ℤ result }
    ensures most { result ≤ℤ pos 200000000 }
    ensures p_least { unsigned_abs ratio.p * unsigned_abs ratio.p ≤ unsigned_abs result }
    ensures q_least { unsigned_abs ratio.q * unsigned_abs ratio.q ≤ unsigned_abs result }
{
    let (p, q) = (i64::from(ratio.p), i64::from(ratio.q));
    p * p + q * q
}

/// The boxes of the two ends of a starting cluster, by what it measures.
fn frame<G: Grid>(measure: Measure) -> (BoxOf<G>, BoxOf<G>)
    requires { IsSoundMeasure measure }
    ensures { Ok result ≡ leaf G.BITS measure }
{
    let (x, y) = (zero(), zero());
    let (a, b, c) = (zero(), one(), zero());
    let line = BoxOf::Line { a, b, c };
    match measure {
        Measure::PointPoint(far) => {
            let x2 = length(far, Sign::Plus);
            (BoxOf::Point { x, y }, BoxOf::Point { x: x2, y })
        }
        Measure::PointLine(far, side) => {
            let y = length(far, side);
            (BoxOf::Point { x, y }, line)
        }
        Measure::LineLine(ratio, sense) => {
            let square = square_of(ratio);
            let a = part(by_sign(ratio.p, opposite(sense)), square);
            let b = part(by_sign(ratio.q, sense), square);
            (line, BoxOf::Line { a, b, c })
        }
    }
}

/// The boxes of the two ends of a constraint, in the frame of its own cluster.
pub fn leaf_boxes<G: Grid>(e: &Edge) -> (BoxOf<G>, BoxOf<G>)
    requires { IsSoundMeasure e.now.measure }
    ensures value { Ok result ≡ leaf G.BITS e.now.measure }
    ensures kinds { AreMeasured e.now.measure result }
    ensures nested { HoldsFinerFrames G.BITS e.now.measure result }
{
    frame(e.measure)
}

/// The box of a pin, in the frame of its block.
pub fn pin_box<G: Grid>(p: &Pin) -> BoxOf<G>
    requires { IsOnSheet p.now }
    ensures value { result ≡ pin_box G.BITS p.now }
    ensures nested { HoldsFinerPoint G.BITS p.now result }
{
    BoxOf::Point {
        x: Iv::of_um(p.x),
        y: Iv::of_um(p.y),
    }
}
