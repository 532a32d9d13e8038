// Whether each line and each constraint holds within the claimed tolerances.
ghost use Rattle.std.specs.Prelude.{◌≡◌, ◌≤◌, ◌^◌};
ghost use Rattle.sk_base.specs.SoundGraph.{IsSoundGraph};
ghost use Rattle.sk_measure.specs.Placing.{IsPlacedAs, PlacesExactly};
ghost use Rattle.sk_tolerance.specs.Tolerances.{normal_of_kind, normals, between, rigid, constraints, everything};
ghost use Rattle.sk_verify.specs.Stepping.{IsMeasured};

use sk_base::{Graph, Kind, Node};
use sk_claims::Claim;
use sk_measure::{meets, meets_block, meets_normal};
use sk_tolerance::{Spotted, earlier};

/// The first line, and else the first constraint, that doesn't hold within the claimed tolerance.
pub(crate) fn first_unmet(g: &Graph, claim: &Claim) -> Option<Spotted>
    requires sound { IsSoundGraph g.now }
    requires placed { PlacesExactly g.now claim.now.at }
    requires t { claim.now.t ≤ 2 ^ 62 }
    requires w { claim.now.w ≤ 2 ^ 62 }
    ensures { IsMeasured claim.now (everything g.now) result }
{
    match line_off(g, claim) {
        Some(at) => Some(at),
        None => constraint_off(g, claim),
    }
}

/// The first line whose normal doesn't hold.
fn line_off(g: &Graph, claim: &Claim) -> Option<Spotted>
    requires { PlacesExactly g.now claim.now.at }
    ensures { IsMeasured claim.now (normals g.now.nodes) result }
{
    for node in g.nodes.as_slice() {
        if let Some(at) = normal_off(claim, node) {
            return Some(at);
        }
    }
    None
}

/// The line, if the node is one whose normal doesn't hold.
fn normal_off(claim: &Claim, node: &Node) -> Option<Spotted>
    requires { IsPlacedAs claim.now.at node.now.elem node.now.kind }
    ensures { IsMeasured claim.now (normal_of_kind node.now.elem node.now.kind) result }
{
    match node.kind {
        Kind::Point => None,
        Kind::Line => {
            if meets_normal(&claim.at, node.elem, claim.w) {
                None
            } else {
                Some(Spotted::Line(node.elem))
            }
        }
    }
}

/// The first constraint or block that doesn't hold.
fn constraint_off(g: &Graph, claim: &Claim) -> Option<Spotted>
    requires sound { IsSoundGraph g.now }
    requires placed { PlacesExactly g.now claim.now.at }
    requires t { claim.now.t ≤ 2 ^ 62 }
    requires w { claim.now.w ≤ 2 ^ 62 }
    ensures { IsMeasured claim.now (constraints g.now) result }
{
    earlier(block_off(g, claim), edge_off(g, claim))
}

/// The first block that doesn't hold.
fn block_off(g: &Graph, claim: &Claim) -> Option<Spotted>
    requires sound { IsSoundGraph g.now }
    requires placed { PlacesExactly g.now claim.now.at }
    requires t { claim.now.t ≤ 2 ^ 62 }
    ensures { IsMeasured claim.now (rigid g.now.blocks) result }
{
    for b in g.blocks.as_slice() {
        if !meets_block(&claim.at, b, claim.t) {
            return Some(Spotted::Con(b.id));
        }
    }
    None
}

/// The first constraint between two elements that doesn't hold.
fn edge_off(g: &Graph, claim: &Claim) -> Option<Spotted>
    requires sound { IsSoundGraph g.now }
    requires placed { PlacesExactly g.now claim.now.at }
    requires t { claim.now.t ≤ 2 ^ 62 }
    requires w { claim.now.w ≤ 2 ^ 62 }
    ensures { IsMeasured claim.now (between g.now.edges) result }
{
    for e in g.edges.as_slice() {
        if !meets(&claim.at, e, claim.t, claim.w) {
            return Some(Spotted::Con(e.id));
        }
    }
    None
}
