// The spare constraints of a graph.
ghost use Rattle.std.specs.Prelude.{◌≡◌, ◌↔◌, IfOk, Contains, List as Items};
ghost use Rattle.sk_base.specs.declared.ConId.{ConId as Number};
ghost use Rattle.sk_base.specs.SoundGraph.{IsSoundGraph};
ghost use Rattle.sk_family.specs.Body.{Body, Start};
ghost use Rattle.sk_family.specs.Clusters.{bodies, start_of};
ghost use Rattle.sk_rules.specs.Reach.{IsNormal};
ghost use Rattle.sk_verdict.specs.Judging.{IsOver};
ghost use Rattle.sk_verdict.specs.Parts.{part_with};
ghost use Rattle.sk_spare.specs.Sparing.{AreSpares, IsOwner, IsSpare};

use crate::halves::try_owned;
use crate::numbers::is_among;
use crate::trial::normal_family;
use sk_base::{ConId, Graph, List, NoMemory};
use sk_family::{Cluster, Family, initial};
use std::alloc::Global;

/// The constraints of which each alone may go: without it, the elements of the cluster that owns it
/// still stand in one cluster. They rise.
pub fn spare(alloc: Global, graph: &Graph) -> Result<List<ConId>, NoMemory>
    requires { IsSoundGraph graph.now }
    ensures spares { IfOk result (AreSpares graph.now) }
    ensures over { IfOk result (λ spares. (k : Number) (f : Items Body) (x : Body) → Contains spares k → IsOwner graph.now f k x → IsOver (part_with graph.now x.elements)) }
{
    let starts = initial(alloc, graph)?;
    let family = normal_family(alloc, graph)?;
    let found = found_in(alloc, graph, &family)?;
    let mut spares = List::new(alloc);
    for start in starts.clusters() {
        let number = number_of(start);
        if is_among(found.as_slice(), number) {
            spares.push(number)?;
        }
    }
    Ok(spares)
}

/// The constraint that starts with the cluster.
fn number_of(start: &Cluster) -> ConId
    requires { (s : Start) × (start.now ≡ start_of s) }
    ensures { (s : Start) → start.now ≡ start_of s → result ≡ s.number }
{
    start.owned.as_slice()[0]
}

/// The spare constraints, as they come cluster by cluster.
fn found_in(alloc: Global, graph: &Graph, family: &Family) -> Result<List<ConId>, NoMemory>
    requires sound { IsSoundGraph graph.now }
    requires normal { IsNormal graph.now (bodies family.now) }
    ensures { IfOk result (λ found. (k : Number) → Contains found k ↔ IsSpare graph.now k) }
{
    let mut found = List::new(alloc);
    for cluster in family.clusters() {
        try_owned(alloc, graph, cluster, &mut found)?;
    }
    Ok(found)
}
