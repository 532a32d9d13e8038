// Which constraints of a cluster are spare, found by halves. Some of its constraints are set aside, and a family of all
// its others is closed. Where one cluster of that family holds all elements of the owner, all that are set aside are spare.
// Where none does, none of them is spare if it is one constraint alone, or if all of them weigh too little together with
// that family. Else they are cut in two halves, and each half is tried with the other one put back. So a constraint is put
// back once at most on each level of the search.
ghost use Rattle.std.specs.Prelude.{◌≡◌, ◌+◌, ◌*◌, ◌<◌, ◌≤◌, ◌↔◌, ◌⊎◌, Bool, OnOk, IsTrue, Contains, List as Items, [], length, sum_by};
ghost use Rattle.sk_base.specs.declared.ConId.{ConId as Number};
ghost use Rattle.sk_base.specs.Numbering.{con_number};
ghost use Rattle.sk_base.specs.Rising.{IsRising};
ghost use Rattle.sk_base.specs.SoundGraph.{IsSoundGraph};
ghost use Rattle.sk_family.specs.Body.{Body};
ghost use Rattle.sk_family.specs.Clusters.{bodies, body_of};
ghost use Rattle.sk_rules.specs.Excess.{weight_of, AreConstraints};
ghost use Rattle.sk_spare.specs.Halving.{IsBeside, IsIn, cluster_weight};
ghost use Rattle.sk_spare.specs.Sparing.{IsSpare};

use crate::trial::{some_holds, with_these};
use sk_base::{ConId, Graph, List, NoMemory};
use sk_family::{Cluster, Family, initial};
use sk_rules::weight_of;
use std::alloc::Global;

/// Adds the spare constraints that the cluster owns. One that isn't over has none.
pub(crate) fn try_owned(
    alloc: Global,
    graph: &Graph,
    owner: &Cluster,
    found: &mut List<ConId>,
) -> Result<(), NoMemory>
    requires sound { IsSoundGraph graph.now }
    requires owner { (f : Items Body) × IsIn graph.now f (body_of owner.now) }
    ensures { OnOk result ((k : Number) → Contains found.new k ↔ (Contains found.old k ⊎ (Contains owner.now.owned k × IsSpare graph.now k))) }
{
    if !is_over(graph, owner) {
        return Ok(());
    }
    let nothing = initial(alloc, &no_graph(alloc))?;
    try_aside(alloc, graph, owner, owner.owned.as_slice(), &nothing, found)
}

/// The graph of nothing.
pub fn no_graph(alloc: Global) -> Graph
    ensures { result ≡ record { nodes = []; edges = []; blocks = [] } }
{
    Graph {
        nodes: List::new(alloc),
        edges: List::new(alloc),
        blocks: List::new(alloc),
    }
}

/// Adds the spare ones of the constraints that are set aside. The family is that of all others that the
/// cluster owns.
fn try_aside(
    alloc: Global,
    graph: &Graph,
    owner: &Cluster,
    aside: &[ConId],
    family: &Family,
    found: &mut List<ConId>,
) -> Result<(), NoMemory>
    requires sound { IsSoundGraph graph.now }
    requires owner { (f : Items Body) × IsIn graph.now f (body_of owner.now) }
    requires rise { IsRising con_number aside.now }
    requires owned { (k : Number) → Contains aside.now k → Contains owner.now.owned k }
    requires beside { (p : Number → Bool) × IsBeside graph.now owner.now.owned aside.now p (bodies family.now) }
    requires room { family.now.next_step + length family.now.live + length aside.now ≤ 4001 }
    ensures { OnOk result ((k : Number) → Contains found.new k ↔ (Contains found.old k ⊎ (Contains aside.now k × IsSpare graph.now k))) }
{
    match aside {
        _ if some_holds(family.clusters(), owner.elements.as_slice()) => found.extend(aside),
        [] | [_] => Ok(()),
        _ if are_too_few(graph, owner, aside, family.clusters()) => Ok(()),
        _ => {
            let middle = aside.len() / 2;
            let with_late = with_these(alloc, graph, family, &aside[middle..])?;
            try_aside(alloc, graph, owner, &aside[..middle], &with_late, found)?;
            let with_early = with_these(alloc, graph, family, &aside[..middle])?;
            try_aside(alloc, graph, owner, &aside[middle..], &with_early, found)
        }
    }
}

/// Whether the clusters and the constraints that are set aside weigh too little for all elements of the
/// owner.
pub fn are_too_few(graph: &Graph, owner: &Cluster, aside: &[ConId], clusters: &[Cluster]) -> bool
    requires sound { IsSoundGraph graph.now }
    requires constraints { AreConstraints graph.now aside.now }
    requires few { length clusters.now ≤ 4001 }
    ensures { IsTrue result ↔ (sum_by cluster_weight clusters.now + weight_of graph.now aside.now + 3 ≤ 2 * length owner.now.elements) }
{
    let held = weight_together(clusters) + weight_of(graph, aside) as u128;
    held + 3 <= 2 * owner.elements.len() as u128
}

/// What the clusters weigh together, each as one constraint between all its elements. Whatever their
/// lengths are, 128 bits hold the sum.
fn weight_together(clusters: &[Cluster]) -> u128
    requires few { length clusters.now ≤ 4001 }
    ensures weight { result ≡ sum_by cluster_weight clusters.now }
    ensures bounded { result ≤ 36893488147419103232 * length clusters.now }
{
    let mut weight = 0;
    for cluster in clusters {
        weight += (2 * cluster.elements.len() as u128).saturating_sub(3);
    }
    weight
}

/// Whether what the cluster owns weighs more than is due.
fn is_over(graph: &Graph, cluster: &Cluster) -> bool
    requires sound { IsSoundGraph graph.now }
    requires enough { 2 * length cluster.now.elements ≤ weight_of graph.now cluster.now.owned + 3 }
    requires owned { AreConstraints graph.now cluster.now.owned }
    ensures { IsTrue result ↔ (2 * length cluster.now.elements < weight_of graph.now cluster.now.owned + 3) }
{
    let held = weight_of(graph, cluster.owned.as_slice());
    2 * cluster.elements.len() < held as usize + 3
}
