// The numbers of a graph's constraints.
ghost use Rattle.std.specs.Prelude.{◌≡◌, IfOk};
ghost use Rattle.std.specs.List.{flat_map};
ghost use Rattle.sk_base.specs.SoundGraph.{IsSoundGraph};
ghost use Rattle.sk_family.specs.declared.Cluster.{Cluster as TheCluster};
ghost use Rattle.sk_tree.specs.LegalPlan.{numbers_of};

use sk_base::{ConId, Graph, List, NoMemory};
use sk_family::{Cluster, initial};
use std::alloc::Global;

/// The numbers of all constraints and blocks, rising: the leaves of a legal plan.
pub fn numbers_of(alloc: Global, graph: &Graph) -> Result<List<ConId>, NoMemory>
    requires { IsSoundGraph graph.now }
    ensures { IfOk result (λ numbers. numbers ≡ numbers_of graph.now) }
{
    let family = initial(alloc, graph)?;
    owned_by(alloc, family.clusters())
}

/// The constraints that the clusters own, one cluster after another.
fn owned_by(alloc: Global, clusters: &[Cluster]) -> Result<List<ConId>, NoMemory>
    ensures { IfOk result (λ owned. owned ≡ flat_map (λ (c : TheCluster). c.owned) clusters.now) }
{
    let mut owned = List::new(alloc);
    for cluster in clusters {
        owned.extend(cluster.owned.as_slice())?;
    }
    Ok(owned)
}
