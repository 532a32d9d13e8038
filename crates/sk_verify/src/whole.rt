// Whether the whole drawing is left after the steps.
ghost use Rattle.std.specs.Prelude.{◌≡◌, ◌↔◌, [], ◌∷◌, IsTrue, Contains, length};
ghost use Rattle.sk_family.specs.declared.Cluster.{Cluster as AnyCluster};
ghost use Rattle.sk_tree.specs.LegalPlan.{IsWhole, HasNodes};

use sk_base::{Elem, Graph};
use sk_family::{Cluster, Family};

/// Whether one cluster with all nodes is left, or there is one node, no constraint and no block.
pub(crate) fn is_whole(g: &Graph, family: &Family) -> bool
    ensures { IsTrue result ↔ IsWhole g.now family.now }
{
    is_all_in_one(g, family.clusters()) || is_lone(g)
}

/// Whether one cluster with all nodes is left.
fn is_all_in_one(g: &Graph, clusters: &[Cluster]) -> bool
    ensures { IsTrue result ↔ ((c : AnyCluster) × (clusters.now ≡ c ∷ []) × HasNodes g.now c) }
{
    match clusters {
        [only] => has_nodes(g, only),
        _ => false,
    }
}

fn is_lone(g: &Graph) -> bool
    ensures { IsTrue result ↔ ((length g.now.nodes ≡ 1) × (g.now.edges ≡ []) × (g.now.blocks ≡ [])) }
{
    g.nodes.len() == 1 && g.edges.is_empty() && g.blocks.is_empty()
}

/// Whether each node is one of the cluster's elements.
fn has_nodes(g: &Graph, cluster: &Cluster) -> bool
    ensures { IsTrue result ↔ HasNodes g.now cluster.now }
{
    for node in g.nodes.as_slice() {
        if !has_elem(cluster, node.elem) {
            return false;
        }
    }
    true
}

fn has_elem(cluster: &Cluster, elem: Elem) -> bool
    ensures { IsTrue result ↔ Contains cluster.now.elements elem }
{
    cluster.elements.as_slice().contains(&elem)
}
