// The entities of points, circles and lines.
ghost use Rattle.std.specs.Prelude.{◌≡◌, ◌++◌, OnOk};
ghost use Rattle.sk_base.specs.Bounds.{IsWithin};
ghost use Rattle.sk_dxf.specs.Courses.{IsBoundedCourse};
ghost use Rattle.sk_dxf.specs.Entities.{point_entity, circle_entity, line_entity, centre_entity, segment_entity};

use crate::course::{Course, Place, place_at};
use crate::pairs::{put_head, put_length};
use crate::segment::Segment;
use sk_base::{NoMemory, Shape, Text};
use std::alloc::Global;

/// Puts a circle round the place of its centre, or a point.
pub(crate) fn put_centre(
    alloc: Global,
    text: &mut Text,
    shape: Shape,
    place: Place,
) -> Result<(), NoMemory>
    ensures { OnOk result (text.new ≡ text.old ++ centre_entity shape place) }
{
    match shape {
        Shape::Circle { r, .. } => put_circle(alloc, text, place, 1000 * i128::from(r.0)),
        Shape::Point { .. } | Shape::Line { .. } => put_point(alloc, text, place),
    }
}

/// Puts the segment of a line, from its first end to its last.
pub(crate) fn put_segment(
    alloc: Global,
    text: &mut Text,
    line: Course,
    segment: Segment,
) -> Result<(), NoMemory>
    requires line { IsBoundedCourse line }
    requires first { IsWithin 9223372036854775807 segment.first }
    requires last { IsWithin 9223372036854775807 segment.last }
    ensures { OnOk result (text.new ≡ text.old ++ segment_entity line segment) }
{
    let from = place_at(line, segment.first);
    let to = place_at(line, segment.last);
    put_line(alloc, text, from, to)
}

fn put_point(alloc: Global, text: &mut Text, place: Place) -> Result<(), NoMemory>
    ensures { OnOk result (text.new ≡ text.old ++ point_entity place) }
{
    put_head(alloc, text, "POINT")?;
    put_length(alloc, text, 10, place.x)?;
    put_length(alloc, text, 20, place.y)
}

fn put_circle(alloc: Global, text: &mut Text, centre: Place, r: i128) -> Result<(), NoMemory>
    ensures { OnOk result (text.new ≡ text.old ++ circle_entity centre r) }
{
    put_head(alloc, text, "CIRCLE")?;
    put_length(alloc, text, 10, centre.x)?;
    put_length(alloc, text, 20, centre.y)?;
    put_length(alloc, text, 40, r)
}

fn put_line(alloc: Global, text: &mut Text, from: Place, to: Place) -> Result<(), NoMemory>
    ensures { OnOk result (text.new ≡ text.old ++ line_entity from to) }
{
    put_head(alloc, text, "LINE")?;
    put_length(alloc, text, 10, from.x)?;
    put_length(alloc, text, 20, from.y)?;
    put_length(alloc, text, 11, to.x)?;
    put_length(alloc, text, 21, to.y)
}
