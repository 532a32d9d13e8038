// The neighbours of a line: the points and centres that share a constraint with it.
ghost use Rattle.std.specs.Prelude.{◌≡◌, All, IfOk, IfSome};
ghost use Rattle.sk_base.specs.Bounds.{IsWithin};
ghost use Rattle.sk_base.specs.Places.{IsBounded, place_of};
ghost use Rattle.sk_dxf.specs.Courses.{IsBoundedCourse, HasBoundedPlaces};
ghost use Rattle.sk_dxf.specs.Neighbours.{other_of, partner_in, neighbour_along, neighbours_along};

use crate::course::{Course, along};
use sk_base::{At, Constraint, Elem, List, NoMemory, Placed, Rule};
use std::alloc::Global;

/// How far along the line of that number each of its neighbours lies.
pub(crate) fn neighbours_along(
    alloc: Global,
    at: &Placed,
    e: Elem,
    line: Course,
    constraints: &[Constraint],
) -> Result<List<i128>, NoMemory>
    requires line { IsBoundedCourse line }
    requires places { HasBoundedPlaces at.now }
    ensures value { IfOk result (λ places. places ≡ neighbours_along at.now e line constraints.now) }
    ensures within { IfOk result (All (IsWithin 4611686018427387904)) }
{
    let mut places = List::new(alloc);
    for constraint in constraints {
        if let Some(place) = neighbour_along(at, e, line, constraint) {
            places.push(place)?;
        }
    }
    Ok(places)
}

/// How far along the line of that number the neighbour lies that the constraint gives it, if any.
fn neighbour_along(at: &Placed, e: Elem, line: Course, constraint: &Constraint) -> Option<i128>
    requires line { IsBoundedCourse line }
    requires places { HasBoundedPlaces at.now }
    ensures value { result ≡ neighbour_along at.now e line constraint.now }
    ensures within { IfSome result (IsWithin 4611686018427387904) }
{
    let partner = partner_in(e, &constraint.rule)?;
    let place = place(at, partner)?;
    along(line, place)
}

/// Where the element of that number lies.
pub(crate) fn place(at: &Placed, e: Elem) -> Option<At>
    requires { HasBoundedPlaces at.now }
    ensures place { result ≡ place_of at.now e }
    ensures bounded { IfSome result IsBounded }
{
    at.at(e)
}

/// The element that the rule names beside this one. A block names no line.
fn partner_in(e: Elem, rule: &Rule) -> Option<Elem>
    ensures { result ≡ partner_in e rule.now }
{
    match *rule {
        Rule::Distance { u, v, .. }
        | Rule::On { u, v }
        | Rule::Tangent { u, v }
        | Rule::Outside { u, v }
        | Rule::Inside { u, v } => other_of(e, u, v),
        Rule::Angle { l, m, .. } => other_of(e, l, m),
        Rule::Block { .. } => None,
    }
}

/// Of two elements the other one, where this is one of them.
fn other_of(e: Elem, u: Elem, v: Elem) -> Option<Elem>
    ensures { result ≡ other_of e u v }
{
    if u.0 == e.0 {
        Some(v)
    } else if v.0 == e.0 {
        Some(u)
    } else {
        None
    }
}
