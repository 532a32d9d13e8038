// Whether constraints hold where their ends are placed, and their own least numbers.
ghost use Rattle.std.specs.Prelude.{◌≡◌, ◌≤◌, ◌<◌, ◌^◌, ◌↔◌, pos, All, IsTrue, Contains};
ghost use Rattle.sk_base.specs.declared.Graph.{Graph as OfGraph};
ghost use Rattle.sk_base.specs.declared.Kind.TheVariants as kinds;
ghost use Rattle.sk_base.specs.SoundGraph.{IsSoundGraph};
ghost use Rattle.sk_measure.specs.Holding.{tolerance_of};
ghost use Rattle.sk_measure.specs.Placing.{IsPlacedAs, EndsArePlaced, IsMeasurable, IsPinPlaced, AreMeasurable};
ghost use Rattle.sk_measure.specs.Items.{normal, constraint, block, Holds, IsOwnLeast, IsOffBy};

use crate::lookup::place;
use crate::measured::{falls_short, is_met, least_of, least_of_normal};
use crate::pins::least_of_pins;
use crate::whole::with_sign;
use sk_base::{Block, Edge, Elem, Measure, Placed};

/// Whether the constraint holds within `t`, or within `w` if it is an angle.
pub fn meets(p: &Placed, e: &Edge, t: u64, w: u64) -> bool
    requires edge { (g : OfGraph) × IsSoundGraph g × Contains g.edges e.now }
    requires placed { EndsArePlaced p.now e.now.u e.now.v e.now.measure }
    requires t { t ≤ 2 ^ 62 }
    requires w { w ≤ 2 ^ 62 }
    ensures { IsTrue result ↔ Holds p.now (constraint e.now) (tolerance_of e.now.measure t w) }
{
    is_met(
        e.measure,
        place(p, e.u),
        place(p, e.v),
        tolerance_of(e.measure, t, w),
    )
}

/// Whether each two pins of the block lie as far apart as they are given, within `t`.
pub fn meets_block(p: &Placed, b: &Block, t: u64) -> bool
    requires block { (g : OfGraph) × IsSoundGraph g × Contains g.blocks b.now }
    requires placed { All (IsPinPlaced p.now) b.now.pins }
    requires t { t ≤ 2 ^ 62 }
    ensures { IsTrue result ↔ Holds p.now (block b.now) t }
{
    own_least_of_block(p, b) <= t
}

/// Whether the line's normal holds within `w`.
pub fn meets_normal(p: &Placed, line: Elem, w: u64) -> bool
    requires { IsPlacedAs p.now line kinds.Line }
    ensures { IsTrue result ↔ Holds p.now (normal line) w }
{
    own_least_of_normal(p, line) <= w
}

/// The one of the two tolerances that the measure has.
fn tolerance_of(measure: Measure, t: u64, w: u64) -> u64
    ensures { result ≡ tolerance_of measure t w }
{
    match measure {
        Measure::PointPoint(_) | Measure::PointLine(_, _) => t,
        Measure::LineLine(_, _) => w,
    }
}

/// The constraint's own least number.
pub fn own_least(p: &Placed, e: &Edge) -> u64
    requires { IsMeasurable p.now e.now }
    ensures { IsOwnLeast p.now (constraint e.now) result }
{
    least_of(e.measure, place(p, e.u), place(p, e.v))
}

/// The block's own least number.
pub fn own_least_of_block(p: &Placed, b: &Block) -> u64
    requires { AreMeasurable p.now b.now.pins }
    ensures { IsOwnLeast p.now (block b.now) result }
{
    least_of_pins(p, b.pins.as_slice())
}

/// By how much the places of its ends give more than the constraint says, in nanometres or, for an angle, in
/// parts per 10^9: its own least number, or its negative where they give less.
pub fn own_off(p: &Placed, e: &Edge) -> i64
    requires { IsMeasurable p.now e.now }
    ensures { IsOffBy p.now (constraint e.now) result }
{
    let short = falls_short(e.measure, place(p, e.u), place(p, e.v));
    with_sign(own_least(p, e), short)
}

/// How far the pins of the block are from where they are given to lie, in nanometres: its own least number.
pub fn own_off_of_block(p: &Placed, b: &Block) -> i64
    requires { AreMeasurable p.now b.now.pins }
    ensures { IsOffBy p.now (block b.now) result }
{
    with_sign(own_least_of_block(p, b), false)
}

/// The own least number of the line's normal.
pub fn own_least_of_normal(p: &Placed, line: Elem) -> u64
    requires { IsPlacedAs p.now line kinds.Line }
    ensures { IsOwnLeast p.now (normal line) result }
{
    least_of_normal(place(p, line))
}
