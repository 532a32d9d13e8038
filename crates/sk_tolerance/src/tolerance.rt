// The least tolerance of a placed sketch.
ghost use Rattle.std.specs.Prelude.{◌≡◌, ◌<◌, ◌++◌, ℕ, List, Contains};
ghost use Rattle.std.specs.Option.{option_map};
ghost use Rattle.sk_base.specs.declared.Block.{Block as OfBlock};
ghost use Rattle.sk_base.specs.declared.Edge.{Edge as OfEdge};
ghost use Rattle.sk_base.specs.declared.Node.{Node as OfNode};
ghost use Rattle.sk_base.specs.SoundGraph.{IsSoundGraph};
ghost use Rattle.sk_measure.specs.Least.{IsLeast};
ghost use Rattle.sk_measure.specs.Placing.{IsPlacedAs, IsMeasurable, AreMeasurable, PlacesExactly};
ghost use Rattle.sk_measure.specs.Items.{Item};
ghost use Rattle.sk_tolerance.specs.Tolerances.{AllHold, AllHoldWithin, IsMissed, IsWorstUnlessNone, normals, distances, rigid, angles, lengthwise, anglewise};
ghost use Rattle.sk_tolerance.specs.Telling.{IsTold, spotted_constraint};

use crate::spotted::Spotted;
use crate::worst::Worst;
use sk_base::{Block, ConId, Edge, Graph, Node, Placed};

/// The least tolerances with which a placed sketch holds: `t` in nanometres for lengths, heights and blocks,
/// `w` in parts per 10^9 for angles and the normals of lines. The worst of each is the first whose own
/// least number is the tolerance.
#[derive(Clone, Copy, Debug, PartialEq, Eq)]
pub struct Tolerance {
    pub t: u64,
    pub w: u64,
    pub worst_t: Option<ConId>,
    pub worst_w: Option<Spotted>,
}

/// The least tolerances with which the sketch of that graph, so placed, holds, and what is worst.
pub fn least(p: &Placed, g: &Graph) -> Tolerance
    requires graph { IsSoundGraph g.now }
    requires placed { PlacesExactly g.now p.now }
    ensures t { IsLeast (AllHold p.now (lengthwise g.now)) result.t }
    ensures w { IsLeast (AllHold p.now (anglewise g.now)) result.w }
    ensures holds { AllHoldWithin p.now g.now result.t result.w }
    ensures smaller_t { (m : ℕ) → m < result.t → IsMissed p.now (lengthwise g.now) m }
    ensures smaller_w { (m : ℕ) → m < result.w → IsMissed p.now (anglewise g.now) m }
    ensures worst_t { IsWorstUnlessNone p.now (lengthwise g.now) result.t (option_map (λ k. Spotted.Con k) result.worst_t) }
    ensures worst_w { IsWorstUnlessNone p.now (anglewise g.now) result.w result.worst_w }
{
    let lengthwise = worst_block(p, g.blocks.as_slice()).or(worst_distance(p, g.edges.as_slice()));
    let anglewise = worst_angle(p, g.edges.as_slice(), worst_normal(p, g.nodes.as_slice()));
    Tolerance {
        t: lengthwise.least,
        w: anglewise.least,
        worst_t: spotted_constraint(lengthwise.at),
        worst_w: anglewise.at,
    }
}

/// The worst constraint on a distance.
fn worst_distance(p: &Placed, edges: &[Edge]) -> Worst
    requires { (e : OfEdge) → Contains edges.now e → IsMeasurable p.now e }
    ensures { IsTold p.now (distances edges.now) result }
{
    let mut worst = Worst::none();
    for e in edges {
        worst = worst.with_distance(p, e);
    }
    worst
}

/// The worst block.
fn worst_block(p: &Placed, blocks: &[Block]) -> Worst
    requires { (b : OfBlock) → Contains blocks.now b → AreMeasurable p.now b.pins }
    ensures { IsTold p.now (rigid blocks.now) result }
{
    let mut worst = Worst::none();
    for b in blocks {
        worst = worst.with_block(p, b);
    }
    worst
}

/// The worst normal of a line.
fn worst_normal(p: &Placed, nodes: &[Node]) -> Worst
    requires { (n : OfNode) → Contains nodes.now n → IsPlacedAs p.now n.elem n.kind }
    ensures { IsTold p.now (normals nodes.now) result }
{
    let mut worst = Worst::none();
    for node in nodes {
        worst = worst.with_normal(p, node);
    }
    worst
}

/// The worst of what came before and of the constraints on an angle.
fn worst_angle(p: &Placed, edges: &[Edge], before: Worst) -> Worst
    requires { (e : OfEdge) → Contains edges.now e → IsMeasurable p.now e }
    ensures { (items : List Item) → IsTold p.now items before → IsTold p.now (items ++ angles edges.now) result }
{
    let mut worst = before;
    for e in edges {
        worst = worst.with_angle(p, e);
    }
    worst
}

/// The constraint that is named, if it is one.
fn spotted_constraint(named: Option<Spotted>) -> Option<ConId>
    ensures { result ≡ spotted_constraint named }
{
    match named {
        Some(Spotted::Con(k)) => Some(k),
        Some(Spotted::Line(_)) | None => None,
    }
}
