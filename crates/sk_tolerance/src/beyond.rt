// Which constraint or line passes a limit.
ghost use Rattle.std.specs.Prelude.{◌≡◌, ◌↔◌, [], ◌∷◌, Contains, IsNone, IfSome};
ghost use Rattle.sk_base.specs.declared.Block.{Block as OfBlock};
ghost use Rattle.sk_base.specs.declared.Edge.{Edge as OfEdge};
ghost use Rattle.sk_base.specs.declared.Node.{Node as OfNode};
ghost use Rattle.sk_base.specs.declared.Placed.{Placed as OfPlaced};
ghost use Rattle.sk_base.specs.SoundGraph.{IsSoundGraph};
ghost use Rattle.sk_measure.specs.Placing.{IsPlacedAs, IsMeasurable, AreMeasurable, PlacesExactly};
ghost use Rattle.sk_measure.specs.Items.{Item, IsOwnLeast};
ghost use Rattle.sk_tolerance.specs.Tolerances.{spotted_as, AllHold, IsFirstBeyond, normal_of_kind, normals, between, rigid, constraints, everything};
ghost use Rattle.sk_tolerance.specs.Telling.{IsSearched};

use crate::spotted::{Named, Spotted, earlier};
use sk_base::{Block, Edge, Graph, Kind, Node, Placed};
use sk_measure::{own_least, own_least_of_block, own_least_of_normal};

/// A constraint, a block among them, or a line by its normal, whose own least number is above the limit.
#[derive(Clone, Copy, Debug, PartialEq, Eq)]
pub struct Beyond {
    pub at: Spotted,
    pub least: u64,
    pub limit: u64,
}

impl Named for Beyond {
    ghost spot = { λ b. b.at };

    fn spot(self) -> Spotted {
        self.at
    }
}

/// The first line, and else the first constraint, whose own least number is above the limit. The
/// limit is in nanometres for lengths and heights, and in parts per 10^9 for angles and normals.
pub fn passed(p: &Placed, g: &Graph, limit: u64) -> Option<Beyond>
    requires graph { IsSoundGraph g.now }
    requires placed { PlacesExactly g.now p.now }
    ensures none { IsNone result ↔ AllHold p.now (everything g.now) limit }
    ensures some { IfSome result (IsFirstBeyond p.now (everything g.now) limit) }
{
    match line_beyond(p, g.nodes.as_slice(), limit) {
        Some(beyond) => Some(beyond),
        None => constraint_beyond(p, g, limit),
    }
}

/// The first line whose normal passes the limit.
fn line_beyond(p: &Placed, nodes: &[Node], limit: u64) -> Option<Beyond>
    requires { (n : OfNode) → Contains nodes.now n → IsPlacedAs p.now n.elem n.kind }
    ensures { IsSearched p.now (normals nodes.now) limit result }
{
    for node in nodes {
        if let Some(beyond) = normal_beyond(p, node, limit) {
            return Some(beyond);
        }
    }
    None
}

/// The first constraint or block that passes the limit.
fn constraint_beyond(p: &Placed, g: &Graph, limit: u64) -> Option<Beyond>
    requires graph { IsSoundGraph g.now }
    requires placed { PlacesExactly g.now p.now }
    ensures { IsSearched p.now (constraints g.now) limit result }
{
    earlier(
        block_beyond(p, g.blocks.as_slice(), limit),
        edge_beyond(p, g.edges.as_slice(), limit),
    )
}

/// The first block that passes the limit.
fn block_beyond(p: &Placed, blocks: &[Block], limit: u64) -> Option<Beyond>
    requires { (b : OfBlock) → Contains blocks.now b → AreMeasurable p.now b.pins }
    ensures { IsSearched p.now (rigid blocks.now) limit result }
{
    for b in blocks {
        if let Some(beyond) = passing(Spotted::Con(b.id), own_least_of_block(p, b), limit) {
            return Some(beyond);
        }
    }
    None
}

/// The first constraint between two elements that passes the limit.
fn edge_beyond(p: &Placed, edges: &[Edge], limit: u64) -> Option<Beyond>
    requires { (e : OfEdge) → Contains edges.now e → IsMeasurable p.now e }
    ensures { IsSearched p.now (between edges.now) limit result }
{
    for e in edges {
        if let Some(beyond) = passing(Spotted::Con(e.id), own_least(p, e), limit) {
            return Some(beyond);
        }
    }
    None
}

/// The normal, if the node is a line whose normal passes the limit.
fn normal_beyond(p: &Placed, node: &Node, limit: u64) -> Option<Beyond>
    requires { IsPlacedAs p.now node.now.elem node.now.kind }
    ensures { IsSearched p.now (normal_of_kind node.now.elem node.now.kind) limit result }
{
    match node.kind {
        Kind::Point => None,
        Kind::Line => passing(
            Spotted::Line(node.elem),
            own_least_of_normal(p, node.elem),
            limit,
        ),
    }
}

/// The item of that name, if its own least number passes the limit.
fn passing(at: Spotted, least: u64, limit: u64) -> Option<Beyond>
    ensures { (p : OfPlaced) (item : Item) → IsOwnLeast p item least → spotted_as item ≡ at
        → IsSearched p (item ∷ []) limit result }
{
    if least > limit {
        Some(Beyond { at, least, limit })
    } else {
        None
    }
}
