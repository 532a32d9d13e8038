//! Elements constructed at places that were worked out by hand.
ghost use Rattle.std.specs.Prelude.{◌≡◌, IsTrue};
ghost use Rattle.sk_steps.specs.Leaves.{AreMeasured, IsSoundMeasure};
ghost use Rattle.sk_steps.specs.ThirdElement.{HasConstruction};

use crate::boxes::{Answer, Ends, are_alike, ends_of, lies_at, same};
use sk_base::{ConId, Edge, Elem, Kind, Measure, Ratio, Sign, Um};
use sk_interval::{Cause, G16, G27, G38, Grid, Iv};
use sk_steps::{BoxOf, Given, What, leaf_boxes, settle, third_element};
use std::process::Abort;

/// The measure is within the limits of a sketch.
fn is_sound(measure: Measure) -> bool
    ensures { IsTrue result → IsSoundMeasure measure }
{
    match measure {
        Measure::PointPoint(Um(far)) => 1 <= far && far <= 2_000_000_000,
        Measure::PointLine(Um(far), _) => 0 <= far && far <= 1_000_000_000,
        Measure::LineLine(Ratio { p, q }, _) => {
            p != 0 && -10_000 <= p && p <= 10_000 && 0 <= q && q <= 10_000
        }
    }
}

/// The boxes of a constraint's ends, the second one first where they are turned.
fn frame<G: Grid>(rt: &impl Abort, measure: Measure, are_turned: bool) -> (BoxOf<G>, BoxOf<G>) {
    assert!(rt; is_sound(measure));
    let (u, v) = leaf_boxes(&Edge {
        id: ConId(1),
        u: Elem(1),
        v: Elem(2),
        measure,
    });
    if are_turned { (v, u) } else { (u, v) }
}

fn has_construction(u: Kind, v: Kind, w: Kind) -> bool
    ensures { IsTrue result → HasConstruction u v w }
{
    match (u, v, w) {
        (Kind::Point, _, _) | (Kind::Line, Kind::Line, Kind::Point) => true,
        _ => false,
    }
}

/// Three constraints, of the elements u and v, u and w, v and w, and whether the second and the third name w first.
type Three = ([Measure; 3], bool);

/// The ends of w by three constraints.
fn third<G: Grid>(rt: &impl Abort, three: Three, root: Sign) -> Answer<[Ends; 3]> {
    let ([base, first, second], w_is_first) = three;
    let (u, v) = frame::<G>(rt, base, false);
    let (ux, wx) = frame(rt, first, w_is_first);
    let (vy, wy) = frame(rt, second, w_is_first);
    assert!(rt;
        are_alike(ux.kind(), u.kind())
            && are_alike(vy.kind(), v.kind())
            && are_alike(wy.kind(), wx.kind())
            && has_construction(u.kind(), v.kind(), wx.kind())
    );
    ends_of(&third_element(&Given {
        u,
        v,
        ux,
        wx,
        vy,
        wy,
        root,
    }))
}

/// The sides of a triangle, in micrometres.
fn sides(base: i64, first: i64, second: i64) -> Three {
    let lengths = [
        Measure::PointPoint(Um(base)),
        Measure::PointPoint(Um(first)),
        Measure::PointPoint(Um(second)),
    ];
    (lengths, false)
}

fn along(far: i64, side: Sign) -> Measure {
    Measure::PointLine(Um(far), side)
}

const UPRIGHT: Measure = Measure::LineLine(Ratio { p: 1, q: 0 }, Sign::Plus);

/// What is constructed on a grid with so many units to the millimetre, and what an impossible triangle falls short by: the
/// corners of triangles; the point that is 5 above one line and 30 to the right of another, at a right angle to it; of a
/// rectangle the side that stands at a right angle on the lower one, through a corner of both, and the corner on the lower
/// side, 40 to the left of the other.
fn constructed<G: Grid>(rt: &impl Abort, unit: i128, short: i128) {
    let (plus, minus) = (Sign::Plus, Sign::Minus);
    let triangle = sides(4000, 5000, 3000);
    lies_at(rt, unit, third::<G>(rt, triangle, plus), [4, 3, 0]);
    lies_at(rt, unit, third::<G>(rt, triangle, minus), [4, -3, 0]);
    let hole = ([UPRIGHT, along(5000, plus), along(30000, minus)], true);
    lies_at(rt, unit, third::<G>(rt, hole, plus), [30, 5, 0]);
    let side = ([along(0, plus), along(0, plus), UPRIGHT], false);
    lies_at(rt, unit, third::<G>(rt, side, plus), [-1, 0, 0]);
    let level = Measure::PointPoint(Um(40000));
    let corner = ([along(0, plus), level, along(0, plus)], true);
    lies_at(rt, unit, third::<G>(rt, corner, minus), [-40, 0, 0]);

    let flat = Cause::Flat { lo: 0, hi: 0 };
    fails::<G>(rt, sides(7000, 3000, 4000), What::Height, flat);
    let gap = Cause::Gap {
        lo: short,
        hi: short,
    };
    fails::<G>(rt, sides(5000, 1000, 1000), What::Height, gap);
}

/// The construction fails by that.
fn fails<G: Grid>(rt: &impl Abort, three: Three, what: What, cause: Cause) {
    same(rt, third::<G>(rt, three, Sign::Plus), Err((what, cause)));
}

#[test]
fn elements_on_each_grid(rt: HostRuntime) {
    constructed::<G16>(&rt, 65536, -344064);
    constructed::<G27>(&rt, 134217728, -704643072);
    constructed::<G38>(&rt, 274877906944, -1443109011456);

    let far = sides(1, 1_000_000_000, 1000);
    fails::<G38>(&rt, far, What::Height, Cause::Range);
    fails::<G16>(&rt, far, What::Base, Cause::Flat { lo: 0, hi: 1 });
}

/// Tells whether both ends are within four units of a place.
fn are_near(ends: Ends, place: i128) -> bool {
    ends.0.abs_diff(place) <= 4 && ends.1.abs_diff(place) <= 4
}

/// The line that touches a circle of radius 5 about the origin and one of radius 2, 5 further along the first axis: the parts of
/// its normal are near to -0.6 and 0.8, in units, and it is 5 mm off.
fn touches<G: Grid>(rt: &impl Abort, normal: (i128, i128), off: i128) {
    let centres = Measure::PointPoint(Um(5000));
    let belt = [centres, along(5000, Sign::Plus), along(2000, Sign::Plus)];
    let [a, b, c] = match third::<G>(rt, (belt, false), Sign::Plus) {
        Ok(ends) => ends,
        Err(_) => panic!(rt; "a belt"),
    };
    assert!(rt; are_near(a, normal.0) && are_near(b, normal.1) && c == (off, off));
}

#[test]
fn belts_on_each_grid(rt: HostRuntime) {
    touches::<G16>(&rt, (-39321, 52428), -327680);
    touches::<G27>(&rt, (-80530636, 107374182), -671088640);
    touches::<G38>(&rt, (-164926744166, 219902325555), -1374389534720);
}

/// The second line of an angle of tangent 3/4, whose normal has the parts 0.6 and -0.8, in units.
fn slopes<G: Grid>(rt: &impl Abort, a: Ends, b: Ends) {
    let slope = Measure::LineLine(Ratio { p: 3, q: 4 }, Sign::Minus);
    let (_, line) = frame::<G>(rt, slope, false);
    same(rt, ends_of(&Ok(line)), Ok([a, b, (0, 0)]));
}

#[test]
fn slopes_on_each_grid(rt: HostRuntime) {
    slopes::<G16>(&rt, (39321, 39322), (-52429, -52428));
    slopes::<G27>(&rt, (80530636, 80530637), (-107374183, -107374182));
    slopes::<G38>(
        &rt,
        (164926744166, 164926744167),
        (-219902325556, -219902325555),
    );
}

/// A line with these parts of its normal, by 0.001 mm off the origin.
fn sloping(a: i8, b: i8) -> BoxOf<G16> {
    BoxOf::Line {
        a: Iv::whole(i64::from(a)),
        b: Iv::whole(i64::from(b)),
        c: Iv::of_um(Um(1)),
    }
}

#[test]
fn boxes_are_settled_at_midpoints(rt: HostRuntime) {
    let point = BoxOf::<G16>::Point {
        x: Iv::of_um(Um(-1)),
        y: Iv::whole(0),
    };
    let flat = Cause::Flat { lo: 0, hi: 0 };
    let line = [(39321, 39321), (52428, 52428), (65, 65)];
    same(
        &rt,
        ends_of(&settle(&point)),
        Ok([(-66, -66), (0, 0), (0, 0)]),
    );
    same(&rt, ends_of(&settle(&sloping(3, 4))), Ok(line));
    let none = Err((What::Size, flat));
    same(&rt, ends_of(&settle(&sloping(0, 0))), none);
}

fn has_word(rt: &impl Abort, what: What, word: &str) {
    assert!(rt; what.word() == word);
}

#[test]
fn words_are_in_lower_case(rt: HostRuntime) {
    has_word(&rt, What::Base2, "base2");
    has_word(&rt, What::Height, "height");
    has_word(&rt, What::A, "a");
    has_word(&rt, What::Det2, "det2");
}
