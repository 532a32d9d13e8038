// The elements of the datum sketch.
ghost use Rattle.std.specs.Prelude.{◌≡◌, ◌≤◌, IfOk, IsTrue};
ghost use Rattle.sk_base.specs.Labels.{is_name};
ghost use Rattle.sk_gen.specs.DatumSketch.{x_axis, y_axis, point_elem, point_name, point, elements_of};

use crate::lengths::{mm, x_of, y_of};
use sk_base::{Elem, Element, Label, List, NoMemory, Shape};
use std::alloc::Global;

/// The axes, and so many points.
pub(crate) fn elements(alloc: Global, points: u32) -> Result<List<Element>, NoMemory>
    requires { points ≤ 998 }
    ensures { IfOk result (λ elements. elements ≡ elements_of points) }
{
    let mut elements = List::new(alloc);
    elements.push(x_axis())?;
    elements.push(y_axis())?;
    for i in 0..points {
        elements.push(point(alloc, i + 1)?)?;
    }
    Ok(elements)
}

fn x_axis() -> Element
    ensures { result ≡ x_axis }
{
    Element {
        number: Elem(1),
        label: label(b"X"),
        shape: Shape::Line {
            x1: mm(0),
            y1: mm(0),
            x2: mm(1000),
            y2: mm(0),
        },
    }
}

fn y_axis() -> Element
    ensures { result ≡ y_axis }
{
    Element {
        number: Elem(2),
        label: label(b"Y"),
        shape: Shape::Line {
            x1: mm(0),
            y1: mm(0),
            x2: mm(0),
            y2: mm(1000),
        },
    }
}

fn point(alloc: Global, k: u32) -> Result<Element, NoMemory>
    requires { k ≤ 998 }
    ensures { IfOk result (λ element. element ≡ point k) }
{
    Ok(Element {
        number: point_elem(k),
        label: point_label(alloc, k)?,
        shape: Shape::Point {
            x: mm(x_of(k)),
            y: mm(y_of(k)),
        },
    })
}

/// The number of a point: the points follow the two axes.
pub(crate) fn point_elem(k: u32) -> Elem
    requires { k ≤ 998 }
    ensures { result ≡ point_elem k }
{
    Elem(k + 2)
}

fn point_label(alloc: Global, k: u32) -> Result<Label, NoMemory>
    requires { k ≤ 998 }
    ensures { IfOk result (λ name. name ≡ point_name k) }
{
    let name = format!(in alloc; "P{k}")?;
    Ok(label(name.as_bytes()))
}

/// The label of a name.
fn label(name: &[u8]) -> Label
    requires { IsTrue (is_name name.now) }
    ensures { result ≡ name.now }
{
    match Label::new(name) {
        Some(label) => label,
        None => unreachable!(),
    }
}
