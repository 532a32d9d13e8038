// Whether three clusters meet once, in three elements.
ghost use Rattle.std.specs.Prelude.{◌≢◌, ◌↔◌, IsTrue, Contains};
ghost use Rattle.sk_base.specs.SoundGraph.{HasNode};
ghost use Rattle.sk_tree.specs.Meeting.{SharesNoOther, MeetsOnce, JoinsOnce};

use sk_base::{Elem, Graph, Kind, Node};
use sk_family::Family;
use sk_rules::is_triangle;
use sk_tree::PlanStep;

/// Whether live clusters of the step's names meet once in its elements.
pub(crate) fn joins_once(g: &Graph, family: &Family, step: &PlanStep) -> bool
    ensures { IsTrue result ↔ JoinsOnce g.now family.now step.now.one step.now.two step.now.three step.now.a step.now.b step.now.c }
{
    match (
        family.cluster(step.one),
        family.cluster(step.two),
        family.cluster(step.three),
    ) {
        (Some(one), Some(two), Some(three)) => meets_once(
            g,
            step,
            one.elements.as_slice(),
            two.elements.as_slice(),
            three.elements.as_slice(),
        ),
        _ => false,
    }
}

/// Whether the three lists meet once in the step's elements.
fn meets_once(g: &Graph, step: &PlanStep, xs: &[Elem], ys: &[Elem], zs: &[Elem]) -> bool
    ensures { IsTrue result ↔ MeetsOnce g.now xs.now ys.now zs.now step.now.a step.now.b step.now.c }
{
    is_triangle(g, step.a, step.b, step.c, xs, ys, zs) && share_no_others(step, xs, ys, zs)
}

/// Whether no two of the three lists share any other element.
fn share_no_others(step: &PlanStep, xs: &[Elem], ys: &[Elem], zs: &[Elem]) -> bool
    ensures { IsTrue result ↔ (SharesNoOther xs.now ys.now step.now.a × (SharesNoOther ys.now zs.now step.now.b × SharesNoOther zs.now xs.now step.now.c)) }
{
    shares_no_other(xs, ys, step.a) && share_neither(step, xs, ys, zs)
}

/// The same of the third list with each of the first two.
fn share_neither(step: &PlanStep, xs: &[Elem], ys: &[Elem], zs: &[Elem]) -> bool
    ensures { IsTrue result ↔ (SharesNoOther ys.now zs.now step.now.b × SharesNoOther zs.now xs.now step.now.c) }
{
    shares_no_other(ys, zs, step.b) && shares_no_other(zs, xs, step.c)
}

fn shares_no_other(xs: &[Elem], ys: &[Elem], elem: Elem) -> bool
    ensures { IsTrue result ↔ SharesNoOther xs.now ys.now elem }
{
    for x in xs {
        if is_other_in(*x, elem, ys) {
            return false;
        }
    }
    true
}

fn is_other_in(x: Elem, elem: Elem, ys: &[Elem]) -> bool
    ensures { IsTrue result ↔ ((x ≢ elem) × Contains ys.now x) }
{
    x != elem && ys.contains(&x)
}

/// Whether the element is a node of that kind.
pub(crate) fn has_node(g: &Graph, elem: Elem, kind: Kind) -> bool
    ensures { IsTrue result ↔ HasNode g.now elem kind }
{
    g.nodes.as_slice().contains(&Node { elem, kind })
}
