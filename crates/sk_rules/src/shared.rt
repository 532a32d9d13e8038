ghost use Rattle.std.specs.Prelude.{◌≢◌, ◌↔◌, ◌<◌, ◌≤◌, IfSome, IfNone, IsTrue};
ghost use Rattle.sk_base.specs.declared.Elem.{Elem as Element};
ghost use Rattle.sk_base.specs.Numbering.{elem_number};
ghost use Rattle.sk_base.specs.Rising.{IsRising};
ghost use Rattle.sk_family.specs.Rules.{IsLine, IsShared, IsTriangle, SharesTwo, MeetsInThree};
ghost use Rattle.sk_rules.specs.Merges.{IsLeastPair, IsLeastTriangle};

use sk_base::{Elem, Graph, Kind, Node};
use sk_family::{Cluster, common};

/// The least two elements that are in both.
pub(crate) fn least_pair(a: &Cluster, b: &Cluster) -> Option<(Elem, Elem)>
    requires { IsRising elem_number a.now.elements }
    ensures none { IfNone result (¬ SharesTwo a.now.elements b.now.elements) }
    ensures some { IfSome result (λ p. IsLeastPair a.now.elements b.now.elements p.0 p.1) }
{
    let overlap = common(a, b);
    let first = overlap.first?;
    let second = overlap.second?;
    Some((first, second))
}

/// The least three elements by which the triangle rule holds.
pub(crate) fn least_triangle(
    graph: &Graph,
    xs: &[Elem],
    ys: &[Elem],
    zs: &[Elem],
) -> Option<(Elem, Elem, Elem)>
    requires xs_rise { IsRising elem_number xs.now }
    requires ys_rise { IsRising elem_number ys.now }
    requires zs_rise { IsRising elem_number zs.now }
    ensures none { IfNone result (¬ MeetsInThree graph.now xs.now ys.now zs.now) }
    ensures some { IfSome result (λ t. IsLeastTriangle graph.now xs.now ys.now zs.now t.0 t.1 t.2) }
{
    for a in xs {
        if let Some((b, c)) = rest_of_triangle(graph, *a, xs, ys, zs) {
            return Some((*a, b, c));
        }
    }
    None
}

/// The least two that make a triangle with a.
fn rest_of_triangle(
    graph: &Graph,
    a: Elem,
    xs: &[Elem],
    ys: &[Elem],
    zs: &[Elem],
) -> Option<(Elem, Elem)>
    requires ys_rise { IsRising elem_number ys.now }
    requires zs_rise { IsRising elem_number zs.now }
    ensures none { IfNone result ((q r : Element) → ¬ IsTriangle graph.now xs.now ys.now zs.now a q r) }
    ensures triangle { IfSome result (λ t. IsTriangle graph.now xs.now ys.now zs.now a t.0 t.1) }
    ensures least_second { IfSome result (λ t. (q r : Element) → IsTriangle graph.now xs.now ys.now zs.now a q r → t.0.0 ≤ q.0) }
    ensures least_third { IfSome result (λ t. (r : Element) → IsTriangle graph.now xs.now ys.now zs.now a t.0 r → t.1.0 ≤ r.0) }
{
    if !a.is_among(ys) {
        return None;
    }
    for b in ys {
        if let Some(c) = third_corner(graph, a, *b, xs, ys, zs) {
            return Some((*b, c));
        }
    }
    None
}

/// The least one that makes a triangle with a and b.
fn third_corner(
    graph: &Graph,
    a: Elem,
    b: Elem,
    xs: &[Elem],
    ys: &[Elem],
    zs: &[Elem],
) -> Option<Elem>
    requires { IsRising elem_number zs.now }
    ensures none { IfNone result ((r : Element) → ¬ IsTriangle graph.now xs.now ys.now zs.now a b r) }
    ensures triangle { IfSome result (IsTriangle graph.now xs.now ys.now zs.now a b) }
    ensures least { IfSome result (λ c. (r : Element) → IsTriangle graph.now xs.now ys.now zs.now a b r → c.0 ≤ r.0) }
{
    if !b.is_among(zs) {
        return None;
    }
    for c in zs {
        if is_triangle(graph, a, b, *c, xs, ys, zs) {
            return Some(*c);
        }
    }
    None
}

/// Whether the three elements let clusters with these elements merge by the triangle rule.
pub fn is_triangle(
    graph: &Graph,
    a: Elem,
    b: Elem,
    c: Elem,
    xs: &[Elem],
    ys: &[Elem],
    zs: &[Elem],
) -> bool
    ensures { IsTrue result ↔ IsTriangle graph.now xs.now ys.now zs.now a b c }
{
    is_shared(a, xs, ys)
        && is_shared(b, ys, zs)
        && is_shared(c, zs, xs)
        && are_different(a, b, c)
        && !are_lines(graph, a, b, c)
}

/// Whether the element is in both.
fn is_shared(elem: Elem, xs: &[Elem], ys: &[Elem]) -> bool
    ensures { IsTrue result ↔ IsShared xs.now ys.now elem }
{
    elem.is_among(xs) && elem.is_among(ys)
}

fn are_different(a: Elem, b: Elem, c: Elem) -> bool
    ensures { IsTrue result ↔ ((a ≢ b) × (b ≢ c) × (c ≢ a)) }
{
    a != b && b != c && c != a
}

/// Whether all three are lines.
fn are_lines(graph: &Graph, a: Elem, b: Elem, c: Elem) -> bool
    ensures { IsTrue result ↔ (IsLine graph.now a × IsLine graph.now b × IsLine graph.now c) }
{
    is_line(graph, a) && is_line(graph, b) && is_line(graph, c)
}

fn is_line(graph: &Graph, elem: Elem) -> bool
    ensures { IsTrue result ↔ IsLine graph.now elem }
{
    graph.nodes.as_slice().contains(&Node {
        elem,
        kind: Kind::Line,
    })
}
