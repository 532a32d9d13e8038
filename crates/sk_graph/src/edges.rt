// The edge of a constraint between two elements.
ghost use Rattle.std.specs.Prelude.{◌≡◌, IfSome};
ghost use Rattle.sk_base.specs.SoundSketch.{IsSoundSketch, IsSoundShape, IsSoundRule, IsSoundRatio, MayBeApart, MayBeTangent, AreLines};
ghost use Rattle.sk_graph.specs.SketchGraph.{apart, beside, distance_edge, on_edge, tangent_edge, outside_edge, inside_edge, angle_edge, edge_of};

use crate::drawn::shape;
use sk_base::{ConId, Constraint, Edge, Elem, Measure, Ratio, Rule, Shape, Sign, Sketch, Um};
use sk_orient::{sense_drawn, side_drawn};

/// The edge of the constraint. A block has none.
pub fn edge(s: &Sketch, constraint: &Constraint) -> Option<Edge>
    requires sketch { IsSoundSketch s.now }
    requires rule { IsSoundRule s.now constraint.now.rule }
    ensures edge { result ≡ edge_of s.now constraint.now }
    ensures number { IfSome result (λ e. e.id ≡ constraint.now.number) }
{
    let id = constraint.number;
    match constraint.rule {
        Rule::Distance { u, v, len } => {
            Some(distance_edge(id, u, v, len, shape(s, u), shape(s, v)))
        }
        Rule::On { u, v } => Some(on_edge(id, u, v, shape(s, v))),
        Rule::Tangent { u, v } => Some(tangent_edge(id, u, v, shape(s, u), shape(s, v))),
        Rule::Outside { u, v } => Some(outside_edge(id, u, v, shape(s, u), shape(s, v))),
        Rule::Inside { u, v } => Some(inside_edge(id, u, v, shape(s, u), shape(s, v))),
        Rule::Angle { l, m, ratio } => {
            Some(angle_edge(id, l, m, ratio, shape(s, l), shape(s, m)))
        }
        Rule::Block { .. } => None,
    }
}

/// A line and what is off it, or two points or centres.
#[tactic(auto, using(sk_orient::proofs::Papers::on_paper, crate::proofs::Fittings::line_if, crate::proofs::Fittings::centre_unless, crate::proofs::Fittings::centre_beside))]
fn distance_edge(id: ConId, u: Elem, v: Elem, len: Um, a: Shape, b: Shape) -> Edge
    requires a { IsSoundShape a }
    requires b { IsSoundShape b }
    requires fits { MayBeApart a b }
    ensures { result ≡ distance_edge id u v len a b }
{
    if a.is_line() {
        beside(id, v, u, len, side_drawn(&a, &b))
    } else if b.is_line() {
        beside(id, u, v, len, side_drawn(&b, &a))
    } else {
        apart(id, u, v, len)
    }
}

/// On a line the distance is 0, on a circle it is the radius.
fn on_edge(id: ConId, u: Elem, v: Elem, b: Shape) -> Edge
    requires { IsSoundShape b }
    ensures { result ≡ on_edge id u v b }
{
    if b.is_line() {
        beside(id, u, v, Um(0), Sign::Plus)
    } else {
        apart(id, u, v, Um(b.radius()))
    }
}

/// A line and a circle, in either order.
#[tactic(auto, using(sk_orient::proofs::Papers::on_paper, crate::proofs::Fittings::line_if, crate::proofs::Fittings::centre_unless, crate::proofs::Fittings::centre_touched, crate::proofs::Fittings::line_touched))]
fn tangent_edge(id: ConId, u: Elem, v: Elem, a: Shape, b: Shape) -> Edge
    requires a { IsSoundShape a }
    requires b { IsSoundShape b }
    requires fits { MayBeTangent a b }
    ensures { result ≡ tangent_edge id u v a b }
{
    if a.is_line() {
        beside(id, v, u, Um(b.radius()), side_drawn(&a, &b))
    } else {
        beside(id, u, v, Um(a.radius()), side_drawn(&b, &a))
    }
}

/// Circles that touch from outside.
fn outside_edge(id: ConId, u: Elem, v: Elem, a: Shape, b: Shape) -> Edge
    requires a { IsSoundShape a }
    requires b { IsSoundShape b }
    ensures { result ≡ outside_edge id u v a b }
{
    apart(id, u, v, Um(a.radius() + b.radius()))
}

/// Circles that touch from inside.
fn inside_edge(id: ConId, u: Elem, v: Elem, a: Shape, b: Shape) -> Edge
    requires a { IsSoundShape a }
    requires b { IsSoundShape b }
    ensures { result ≡ inside_edge id u v a b }
{
    apart(id, u, v, Um((a.radius() - b.radius()).abs()))
}

/// An angle between two lines.
fn angle_edge(id: ConId, l: Elem, m: Elem, ratio: Ratio, a: Shape, b: Shape) -> Edge
    requires a { IsSoundShape a }
    requires b { IsSoundShape b }
    requires lines { AreLines a b }
    requires ratio { IsSoundRatio ratio }
    ensures { result ≡ angle_edge id l m ratio a b }
{
    Edge {
        id,
        u: l,
        v: m,
        measure: Measure::LineLine(ratio, sense_drawn(&a, &b, ratio)),
    }
}

/// Two points or centres so far apart, the lesser number first.
fn apart(id: ConId, u: Elem, v: Elem, len: Um) -> Edge
    ensures { result ≡ apart id u v len.0 }
{
    let (u, v) = if u.0 < v.0 { (u, v) } else { (v, u) };
    Edge {
        id,
        u,
        v,
        measure: Measure::PointPoint(len),
    }
}

/// A point or centre so far from a line, on that side.
fn beside(id: ConId, p: Elem, line: Elem, len: Um, side: Sign) -> Edge
    ensures { result ≡ beside id p line len.0 side }
{
    Edge {
        id,
        u: p,
        v: line,
        measure: Measure::PointLine(len, side),
    }
}
