// The clusters in which constraints start, and clusters in order.
ghost use Rattle.std.specs.Prelude.{◌≡◌, ◌≢◌, ◌++◌, ◌∷◌, [], OnOk, OnErr, AllPairs, IfOk, map, Contains};
ghost use Rattle.std.specs.List.Sorted.{IsPermutation};
ghost use Rattle.sk_base.specs.declared.ConId.{ConId as Number};
ghost use Rattle.sk_base.specs.declared.Edge.{Edge as AnEdge};
ghost use Rattle.sk_base.specs.declared.Block.{Block as ABlock};
ghost use Rattle.sk_base.specs.Numbering.{elem_number};
ghost use Rattle.sk_base.specs.Pins.{elements_of};
ghost use Rattle.sk_base.specs.Rising.{union};
ghost use Rattle.sk_base.specs.ClusterNames.{IsBelow};
ghost use Rattle.sk_base.specs.SoundGraph.{IsSoundGraph, HasRisingEdges, HasRisingBlocks};
ghost use Rattle.sk_family.specs.declared.cluster.Cluster.{Cluster as ACluster};
ghost use Rattle.sk_family.specs.Body.{Start, starts, edge_start, block_start};
ghost use Rattle.sk_family.specs.Clusters.{start_of, unnamed};
ghost use Rattle.sk_family.specs.Starting.{start_with, starts_but};

use crate::cluster::Cluster;
use crate::row::Row;
use crate::union::union_of;
use sk_base::{Block, ConId, Edge, Elem, Graph, List, Name, NoMemory, Pin};
use std::alloc::Global;

/// The cluster in which a constraint between two elements starts: with its two ends.
pub(crate) fn edge_cluster(alloc: Global, edge: &Edge) -> Result<Cluster, NoMemory>
    ensures { IfOk result (λ c. c ≡ start_of (edge_start edge.now)) }
{
    let ends = union_of(alloc, &[edge.u], &[edge.v])?;
    cluster_of(alloc, edge.id, ends)
}

/// The cluster in which a block starts: with the elements of its pins.
pub(crate) fn block_cluster(alloc: Global, block: &Block) -> Result<Cluster, NoMemory>
    ensures { IfOk result (λ c. c ≡ start_of (block_start block.now)) }
{
    let elements = elements_of(alloc, block.pins.as_slice())?;
    cluster_of(alloc, block.id, elements)
}

/// The cluster of these elements in which the constraint starts.
fn cluster_of(alloc: Global, number: ConId, elements: List<Elem>) -> Result<Cluster, NoMemory>
    ensures { IfOk result (λ c. c ≡ start_of (record { number = number; elements = elements })) }
{
    let mut owned = List::new(alloc);
    owned.push(number)?;
    Ok(Cluster {
        name: Name::Con(number.0),
        elements,
        owned,
    })
}

/// The elements of the pins, rising.
fn elements_of(alloc: Global, pins: &[Pin]) -> Result<List<Elem>, NoMemory>
    ensures { IfOk result (λ elements. elements ≡ union elem_number (elements_of pins.now) []) }
{
    let mut elements = List::new(alloc);
    for i in (0..pins.len()).rev() {
        elements = union_of(alloc, &[pins[i].elem], elements.as_slice())?;
    }
    Ok(elements)
}

/// The clusters in which all constraints of the graph start, in order of number.
pub(crate) fn all_starts(alloc: Global, graph: &Graph) -> Result<Vec<Cluster>, NoMemory>
    requires { IsSoundGraph graph.now }
    ensures { IfOk result (λ all. all.items ≡ map start_of (starts graph.now)) }
{
    let mut all = edge_clusters(alloc, graph.edges.as_slice())?;
    push_blocks(alloc, &mut all, graph.blocks.as_slice())?;
    put_in_order(&mut all);
    Ok(all)
}

/// The clusters in which these constraints start.
fn edge_clusters(alloc: Global, edges: &[Edge]) -> Result<Vec<Cluster>, NoMemory>
    ensures { IfOk result (λ all. all.items ≡ map (λ (e : AnEdge). start_of (edge_start e)) edges.now) }
{
    let mut all = Vec::new(alloc);
    for edge in edges {
        all.push(edge_cluster(alloc, edge)?)?;
    }
    Ok(all)
}

/// Appends the clusters in which these blocks start.
fn push_blocks(alloc: Global, all: &mut Vec<Cluster>, blocks: &[Block]) -> Result<(), NoMemory>
    ensures { OnOk result (all.new.items ≡ all.old.items ++ map (λ (b : ABlock). start_of (block_start b)) blocks.now) }
{
    for block in blocks {
        all.push(block_cluster(alloc, block)?)?;
    }
    Ok(())
}

/// The clusters in which the constraints of these numbers start, but for one.
pub(crate) fn starts_of(
    alloc: Global,
    numbers: &[ConId],
    without: ConId,
    graph: &Graph,
) -> Result<Vec<Cluster>, NoMemory>
    requires rise { HasRisingEdges graph.now }
    requires blocks_rise { HasRisingBlocks graph.now }
    requires there { (j : Number) → Contains numbers.now j → j ≢ without → (s : Start) × Contains (starts graph.now) s × (s.number ≡ j) }
    ensures { IfOk result (λ others. others.items ≡ starts_but graph.now without numbers.now) }
{
    let mut others = Vec::new(alloc);
    for number in numbers {
        if *number != without {
            others.push(cluster_with(alloc, *number, graph)?)?;
        }
    }
    Ok(others)
}

/// The cluster in which the constraint of that number starts, which the graph has.
fn cluster_with(alloc: Global, number: ConId, graph: &Graph) -> Result<Cluster, NoMemory>
    requires rise { HasRisingEdges graph.now }
    requires blocks_rise { HasRisingBlocks graph.now }
    requires there { (s : Start) × Contains (starts graph.now) s × (s.number ≡ number) }
    ensures { IfOk result (λ c. c ≡ start_of (start_with graph.now number)) }
{
    match graph.edge(number) {
        Some(edge) => edge_cluster(alloc, edge),
        None => match graph.block(number) {
            Some(block) => block_cluster(alloc, block),
            None => unreachable!(),
        },
    }
}

/// Puts these clusters in the place of the one of that name. After `NoMemory` all stand as they did.
pub(crate) fn exchange(
    clusters: &mut Row<Cluster>,
    name: Name,
    others: Vec<Cluster>,
) -> Result<(), NoMemory>
    requires { AllPairs (λ (a b : ACluster). a.name ≢ b.name) (unnamed (name ∷ []) (others.items ++ clusters.old)) }
    ensures same { OnOk result (IsPermutation (unnamed (name ∷ []) (others.items ++ clusters.old)) clusters.new) }
    ensures rise { OnOk result (AllPairs (λ (a b : ACluster). IsBelow a.name b.name) clusters.new) }
    ensures err { OnErr result (clusters.new ≡ clusters.old) }
{
    let mut all = others;
    clusters.append_to(&mut all)?;
    all.retain(|cluster| !cluster.name.is_among(&[name]));
    put_in_order(&mut all);
    *clusters = Row::of(all);
    Ok(())
}

/// Sorts the clusters by their names.
fn put_in_order(clusters: &mut Vec<Cluster>)
    requires { AllPairs (λ (a b : ACluster). a.name ≢ b.name) clusters.old.items }
    ensures same { IsPermutation clusters.old.items clusters.new.items }
    ensures rise { AllPairs (λ (a b : ACluster). IsBelow a.name b.name) clusters.new.items }
{
    clusters.sort_unstable_by(|one, other| one.name.cmp(&other.name));
}
