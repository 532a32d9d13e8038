// Closing a family where the order of its merges doesn't matter. Clusters are looked at by rising name:
// below the name that is reached, none is the greatest of a merge. A new cluster has the greatest name,
// so it is looked at last, and what is known of the clusters below a name stays known.
ghost use Rattle.std.specs.Prelude.{◌≡◌, ◌+◌, ◌<◌, ◌≤◌, AllPairs, Contains, IfOk, OnOk, length, List as Items};
ghost use Rattle.sk_base.specs.declared.Name.{Name as ClusterName};
ghost use Rattle.sk_base.specs.Numbering.{elem_number};
ghost use Rattle.sk_base.specs.Rising.{IsRising};
ghost use Rattle.sk_base.specs.SoundGraph.{HasRisingEdges};
ghost use Rattle.sk_family.specs.Body.{initial_bodies};
ghost use Rattle.sk_family.specs.Clusters.{ByName, IsSound, bodies, replaced};
ghost use Rattle.sk_family.specs.Merges.{greatest_of};
ghost use Rattle.sk_rules.specs.Reach.{Reach, IsClosed, IsNormal, IsTheOnlyNormal};
ghost use Rattle.sk_rules.specs.Merges.{CanTake};
ghost use Rattle.sk_neighbours.specs.Indexed.{AllRise, IsIndex, Represents};
ghost use Rattle.sk_close_any_order.specs.Settling.{IsAny, IsNext, MergesOf};

use crate::growth::Growth;
use sk_base::{Graph, List, Name, NoMemory};
use sk_family::{Cluster, Family};
use sk_neighbours::{Index, add_triples_of, least_partner};
use sk_rules::Merge;
use std::alloc::Global;

/// Merges until no rule holds, in an order of its own. After `NoMemory` the family may not be closed.
pub fn close_in_any_order(alloc: Global, family: &mut Family, graph: &Graph) -> Result<(), NoMemory>
    requires { family.old.next_step + length family.old.live ≤ 4294967296 }
    ensures closed { OnOk result (IsClosed graph.now (bodies family.new)) }
    ensures normal { OnOk result (Reach graph.now (initial_bodies graph.now) (bodies family.old) → IsNormal graph.now (bodies family.new)) }
    ensures only { OnOk result (HasRisingEdges graph.now → Reach graph.now (initial_bodies graph.now) (bodies family.old) → IsTheOnlyNormal graph.now (bodies family.new)) }

    // Whatever the result.
    ensures room { family.new.next_step + length family.new.live ≤ family.old.next_step + length family.old.live }
    ensures no_more { length family.new.live ≤ length family.old.live }
    ensures sound { IsSound family.old → IsSound family.new }
    ensures reached { Reach graph.now (bodies family.old) (bodies family.new) }
{
    let mut index = Index::of(alloc, family, graph)?;
    let mut clear = Name::Con(0);
    loop {
        let next = next_merge(alloc, &index, family.not_below(clear))?;
        let Some(merge) = next else {
            return Ok(());
        };
        clear = greatest(merge);
        take_in(alloc, &mut index, family, graph, merge)?;
    }
}

/// Does a merge that may be taken, with all that its cluster may take in at once.
fn take_in(
    alloc: Global,
    index: &mut Index,
    family: &mut Family,
    graph: &Graph,
    merge: Merge,
) -> Result<(), NoMemory>
    requires can { CanTake graph.now family.old merge }
    requires represents { Represents index.old graph.now family.old.live }
    requires sound { IsSound family.old }
    requires room { family.old.next_step < 4294967295 }
    ensures ok { OnOk result ((names : Items ClusterName) × (family.new ≡ replaced family.old names)) }
    ensures represents { OnOk result (Represents index.new graph.now family.new.live) }
    ensures fewer { OnOk result (length family.new.live < length family.old.live) }

    // Whatever the result.
    ensures room { family.new.next_step + length family.new.live ≤ family.old.next_step + length family.old.live }
    ensures no_more { length family.new.live ≤ length family.old.live }
    ensures sound { IsSound family.new }
    ensures reached { Reach graph.now (bodies family.old) (bodies family.new) }
{
    let mut growth = Growth::of(alloc, index, family, graph, merge)?;
    growth.grow(index, family, graph)?;
    family.replace_all(growth.names.as_slice())?;
    index.put_last(family.clusters())?;
    Ok(())
}

/// The first merge whose greatest cluster is one of these.
fn next_merge(alloc: Global, index: &Index, clusters: &[Cluster]) -> Result<Option<Merge>, NoMemory>
    requires index { IsIndex index.now }
    requires rise { AllRise clusters.now }
    requires by_name { AllPairs ByName clusters.now }
    ensures { IfOk result (IsNext index.now clusters.now) }
{
    for x in clusters {
        if let Some(merge) = merge_of(alloc, index, x)? {
            return Ok(Some(merge));
        }
    }
    Ok(None)
}

/// A merge with x as the greatest cluster.
fn merge_of(alloc: Global, index: &Index, x: &Cluster) -> Result<Option<Merge>, NoMemory>
    requires index { IsIndex index.now }
    requires rises { IsRising elem_number x.now.elements }
    ensures { IfOk result (IsAny (MergesOf index.now x.now)) }
{
    if let Some(y) = least_partner(index, x) {
        return Ok(Some(Merge::Two(x.name, y)));
    }
    let mut all = List::new(alloc);
    add_triples_of(index, x, &mut all)?;
    Ok(first_of(all.as_slice()))
}

/// The first of some merges.
fn first_of(merges: &[Merge]) -> Option<Merge>
    ensures { IsAny (Contains merges.now) result }
{
    let first = merges.first()?;
    Some(*first)
}

fn greatest(merge: Merge) -> Name
    ensures { result ≡ greatest_of merge }
{
    match merge {
        Merge::Two(x, _) => x,
        Merge::Three(x, _, _) => x,
    }
}
