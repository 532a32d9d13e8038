// The constraints of the datum sketch.
ghost use Rattle.std.specs.Prelude.{◌≡◌, ◌≤◌, ◌++◌, IfOk, OnOk};
ghost use Rattle.sk_gen.specs.DatumSketch.{right_angle, from_x, from_y, distances, constraints_of};

use crate::elements::point_elem;
use crate::lengths::{mm, x_of, y_of};
use sk_base::{ConId, Constraint, Elem, List, NoMemory, Ratio, Rule};
use std::alloc::Global;

/// The right angle, and two distances for each of so many points.
pub(crate) fn constraints(alloc: Global, points: u32) -> Result<List<Constraint>, NoMemory>
    requires { points ≤ 998 }
    ensures { IfOk result (λ constraints. constraints ≡ constraints_of points) }
{
    let mut constraints = List::new(alloc);
    constraints.push(right_angle())?;
    for i in 0..points {
        push_distances(&mut constraints, i + 1)?;
    }
    Ok(constraints)
}

/// Appends the two distances of a point.
fn push_distances(constraints: &mut List<Constraint>, k: u32) -> Result<(), NoMemory>
    requires { k ≤ 998 }
    ensures { OnOk result (constraints.new ≡ constraints.old ++ distances k) }
{
    constraints.push(from_x(k))?;
    constraints.push(from_y(k))
}

/// The angle from X to Y.
fn right_angle() -> Constraint
    ensures { result ≡ right_angle }
{
    Constraint {
        number: ConId(1),
        rule: Rule::Angle {
            l: Elem(1),
            m: Elem(2),
            ratio: Ratio { p: 1, q: 0 },
        },
    }
}

/// How far the point is from X.
fn from_x(k: u32) -> Constraint
    requires { k ≤ 998 }
    ensures { result ≡ from_x k }
{
    Constraint {
        number: ConId(2 * k),
        rule: Rule::Distance {
            u: point_elem(k),
            v: Elem(1),
            len: mm(y_of(k)),
        },
    }
}

/// How far the point is from Y.
fn from_y(k: u32) -> Constraint
    requires { k ≤ 998 }
    ensures { result ≡ from_y k }
{
    Constraint {
        number: ConId(2 * k + 1),
        rule: Rule::Distance {
            u: point_elem(k),
            v: Elem(2),
            len: mm(x_of(k)),
        },
    }
}
