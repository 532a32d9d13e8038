// The text of a placed sketch.
ghost use Rattle.std.specs.Prelude.{◌≡◌, ◌++◌, IfOk, OnOk};
ghost use Rattle.std.specs.List.{flat_map};
ghost use Rattle.sk_dxf.specs.Courses.{IsBoundedCourse, HasBoundedPlaces};
ghost use Rattle.sk_dxf.specs.Entities.{segment_of, segment_entity, entity, dxf_of};

use crate::course::{Course, Place};
use crate::entities::{put_centre, put_segment};
use crate::neighbours::{neighbours_along, place};
use crate::pairs::put_pair;
use crate::segment::{drawn, reach};
use sk_base::{At, Elem, Element, NoMemory, Placed, Sketch, Text};
use std::alloc::Global;

/// The DXF text of the sketch as it is placed: a section of entities, one for each element in order.
pub fn dxf_text(alloc: Global, at: &Placed, s: &Sketch) -> Result<Text, NoMemory>
    requires { HasBoundedPlaces at.now }
    ensures { IfOk result (λ text. text ≡ dxf_of s.now at.now) }
{
    let mut text = Text::new(alloc);
    put_pair(alloc, &mut text, 0, "SECTION")?;
    put_pair(alloc, &mut text, 2, "ENTITIES")?;
    put_entities(alloc, &mut text, at, s, s.elements.as_slice())?;
    put_pair(alloc, &mut text, 0, "ENDSEC")?;
    put_pair(alloc, &mut text, 0, "EOF")?;
    Ok(text)
}

fn put_entities(
    alloc: Global,
    text: &mut Text,
    at: &Placed,
    s: &Sketch,
    elements: &[Element],
) -> Result<(), NoMemory>
    requires { HasBoundedPlaces at.now }
    ensures { OnOk result (text.new ≡ text.old ++ flat_map (entity s.now at.now) elements.now) }
{
    for element in elements {
        put_entity(alloc, text, at, s, element)?;
    }
    Ok(())
}

/// Puts the element as it is placed.
fn put_entity(
    alloc: Global,
    text: &mut Text,
    at: &Placed,
    s: &Sketch,
    element: &Element,
) -> Result<(), NoMemory>
    requires { HasBoundedPlaces at.now }
    ensures { OnOk result (text.new ≡ text.old ++ entity s.now at.now element.now) }
{
    match place(at, element.number) {
        Some(At::Point { x, y }) => put_centre(alloc, text, element.shape, place_of(x, y)),
        Some(At::Line { a, b, c }) => put_line(alloc, text, at, s, element.number, course(a, b, c)),
        None => Ok(()),
    }
}

/// Puts the segment of the line that its neighbours span.
fn put_line(
    alloc: Global,
    text: &mut Text,
    at: &Placed,
    s: &Sketch,
    e: Elem,
    line: Course,
) -> Result<(), NoMemory>
    requires line { IsBoundedCourse line }
    requires places { HasBoundedPlaces at.now }
    ensures { OnOk result (text.new ≡ text.old ++ segment_entity line (segment_of s.now at.now e line)) }
{
    let neighbours = neighbours_along(alloc, at, e, line, s.constraints.as_slice())?;
    let segment = drawn(reach(neighbours.as_slice()));
    put_segment(alloc, text, line, segment)
}

fn place_of(x: i64, y: i64) -> Place
    ensures { result ≡ record { x = x; y = y } }
{
    Place {
        x: i128::from(x),
        y: i128::from(y),
    }
}

fn course(a: i64, b: i64, c: i64) -> Course
    ensures { result ≡ record { a = a; b = b; c = c } }
{
    Course {
        a: i128::from(a),
        b: i128::from(b),
        c: i128::from(c),
    }
}
