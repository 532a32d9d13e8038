// Places along a placed line.
ghost use Rattle.std.specs.Prelude.{◌≡◌, IfSome};
ghost use Rattle.sk_base.specs.Bounds.{IsWithin};
ghost use Rattle.sk_base.specs.Places.{IsBounded};
ghost use Rattle.sk_dxf.specs.Courses.{IsBoundedCourse, along, place_at};

use crate::rounding::{difference_of_parts, sum_of_parts};
use sk_base::At;

/// A placed line `a·x + b·y = c`. It runs in the direction `(b, −a)`.
#[derive(Clone, Copy, Debug, PartialEq, Eq)]
pub(crate) struct Course {
    pub(crate) a: i128,
    pub(crate) b: i128,
    pub(crate) c: i128,
}

/// Coordinates in nanometres.
#[derive(Clone, Copy, Debug, PartialEq, Eq)]
pub(crate) struct Place {
    pub(crate) x: i128,
    pub(crate) y: i128,
}

/// How far along the line a point lies.
pub(crate) fn along(line: Course, at: At) -> Option<i128>
    requires line { IsBoundedCourse line }
    requires at { IsBounded at }
    ensures value { result ≡ along line at }
    ensures within { IfSome result (IsWithin 4611686018427387904) }
{
    match at {
        At::Point { x, y } => Some(difference_of_parts(
            line.b,
            i128::from(x),
            line.a,
            i128::from(y),
        )),
        At::Line { .. } => None,
    }
}

/// The place on the line that lies so far along it.
pub(crate) fn place_at(line: Course, s: i128) -> Place
    requires line { IsBoundedCourse line }
    requires s { IsWithin 9223372036854775807 s }
    ensures { result ≡ place_at line s }
{
    Place {
        x: sum_of_parts(line.a, line.c, line.b, s),
        y: difference_of_parts(line.b, line.c, line.a, s),
    }
}
