// Boxes rounded to their midpoints.
ghost use Rattle.std.specs.Prelude.{◌≡◌, ◌≤◌, ◌+◌, ◌*◌, ◌^◌, ℕ, ◌+ℤ◌, unsigned_abs, IfOk, All, map};
ghost use Rattle.sk_base.specs.Bounds.{IsWithin as IsAtMost};
ghost use Rattle.sk_base.specs.Places.{IsBounded};
ghost use Rattle.sk_base.specs.Nearest.{nearest};
ghost use Rattle.sk_place.specs.Rounding.{IsWithin, IsBoundedBox, midpoint, rounded_box, rounded, nodes_at};
ghost use Rattle.sk_place.specs.Clusters.{nodes_of};

use crate::boxes::Boxes;
use sk_base::{At, List, NoMemory, Placed, Spot, nearest};
use sk_interval::{Grid, Iv};
use sk_steps::BoxOf;
use std::alloc::Global;

/// The number of the grid that stands for 1.
#[tactic(auto, using(sk_interval::proofs::PowerLemmas::powers))]
fn unit<G: Grid>() -> u64
    ensures value { result ≡ 2 ^ G.BITS }
    ensures positive { 256 ≤ result }
    ensures limit { result ≤ 2 ^ 38 }
{
    1 << G::BITS
}

/// Half of so many grid units, to the nearest whole number, halves away from zero.
fn halved<G: Grid>(n: i128) -> i64
    requires { unsigned_abs n ≤ 2 * 2 ^ G.BITS * 2 ^ 60 }
    ensures value { result ≡ nearest (2 * 2 ^ G.BITS) n }
    ensures within { (most : ℕ) → unsigned_abs n ≤ 2 * 2 ^ G.BITS * most → IsAtMost most result }
{
    nearest(n, 2 * unit::<G>()) as i64
}

/// The sum of the ends.
#[tactic(auto, using(sk_interval::proofs::PowerLemmas::limits))]
fn sum_of_ends<G: Grid>(x: &Iv<G>) -> i128
    requires { IsWithin 50 G.BITS x.now }
    ensures value { result ≡ x.now.lo +ℤ x.now.hi }
    ensures limit { unsigned_abs result ≤ 2 ^ 89 }
{
    let (lo, hi) = x.ends();
    lo + hi
}

/// The midpoint of a length, in nanometres.
fn nanometres<G: Grid>(x: &Iv<G>) -> i64
    requires { IsWithin 40 G.BITS x.now }
    ensures value { result ≡ midpoint G.BITS 1000000 x.now }
    ensures within { IsAtMost 1152921504606846976 result }
{
    halved::<G>(sum_of_ends(x) * 1_000_000)
}

/// The midpoint of a part of a normal, in parts of 10^9.
fn billionths<G: Grid>(x: &Iv<G>) -> i64
    requires { IsWithin 1 G.BITS x.now }
    ensures value { result ≡ midpoint G.BITS 1000000000 x.now }
    ensures within { IsAtMost 2000000000 result }
{
    halved::<G>(sum_of_ends(x) * 1_000_000_000)
}

/// The midpoints of a box.
fn rounded_box<G: Grid>(b: &BoxOf<G>) -> At
    requires { IsBoundedBox G.BITS b.now }
    ensures value { result ≡ rounded_box G.BITS b.now }
    ensures bounded { IsBounded result }
{
    match b {
        BoxOf::Point { x, y } => At::Point {
            x: nanometres(x),
            y: nanometres(y),
        },
        BoxOf::Line { a, b, c } => At::Line {
            a: billionths(a),
            b: billionths(b),
            c: nanometres(c),
        },
    }
}

/// The midpoints of boxes: of each element in turn, a point of a point's box and a line of a line's.
pub fn round<G: Grid>(alloc: Global, boxes: &Boxes<G>) -> Result<Placed, NoMemory>
    ensures value { IfOk result (λ placed. placed.spots ≡ map (rounded G.BITS) boxes.now) }
    ensures nodes { IfOk result (λ placed. nodes_at placed.spots ≡ nodes_of boxes.now) }
    ensures bounded { IfOk result (λ placed. All (λ spot. IsBounded spot.at) placed.spots) }
{
    let mut spots = List::new(alloc);
    for b in boxes.as_slice() {
        spots.push(Spot {
            elem: b.elem,
            at: rounded_box(&b.at),
        })?;
    }
    Ok(Placed { spots })
}
