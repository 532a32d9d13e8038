//! Boxes of small elements, and what is compared of them.
ghost use Rattle.std.specs.Prelude.{◌≡◌, IsTrue};

use sk_base::Kind;
use sk_interval::{Cause, Grid, Iv};
use sk_steps::{BoxOf, What};
use std::process::Abort;

pub type Ends = (i128, i128);

pub type Answer<T> = Result<T, (What, Cause)>;

/// The ends of an answer's numbers, with zeros for what a point doesn't have.
pub fn ends_of<G: Grid>(answer: &Answer<BoxOf<G>>) -> Answer<[Ends; 3]> {
    match answer {
        Ok(BoxOf::Point { x, y }) => Ok([x.ends(), y.ends(), (0, 0)]),
        Ok(BoxOf::Line { a, b, c }) => Ok([a.ends(), b.ends(), c.ends()]),
        Err(fault) => Err(*fault),
    }
}

/// The ends are those that are wanted.
pub fn same(rt: &impl Abort, found: Answer<[Ends; 3]>, wanted: Answer<[Ends; 3]>) {
    assert_eq!(rt; found, wanted);
}

/// The ends are all at so many millimetres, on a grid with so many units to the millimetre.
pub fn lies_at(rt: &impl Abort, unit: i128, found: Answer<[Ends; 3]>, [x, y, z]: [i8; 3]) {
    let wanted = [exact(unit, x), exact(unit, y), exact(unit, z)];
    same(rt, found, Ok(wanted));
}

/// Both ends at so many millimetres.
fn exact(unit: i128, mm: i8) -> Ends {
    let end = unit.wrapping_mul(i128::from(mm));
    (end, end)
}

pub fn point<G: Grid>(x: i8, y: i8) -> BoxOf<G> {
    BoxOf::Point {
        x: Iv::whole(i64::from(x)),
        y: Iv::whole(i64::from(y)),
    }
}

pub fn line<G: Grid>(a: i8, b: i8, c: i8) -> BoxOf<G> {
    BoxOf::Line {
        a: Iv::whole(i64::from(a)),
        b: Iv::whole(i64::from(b)),
        c: Iv::whole(i64::from(c)),
    }
}

pub fn are_alike(one: Kind, other: Kind) -> bool
    ensures { IsTrue result → one ≡ other }
{
    match (one, other) {
        (Kind::Point, Kind::Point) | (Kind::Line, Kind::Line) => true,
        _ => false,
    }
}
