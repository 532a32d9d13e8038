// Which constraints a minimal choice leaves out, by halves. Each family here is closed, of all constraints but those
// that are left out already, which are greater, and a segment that is set aside. Where it is one cluster with all
// nodes, all of the segment is left out: more constraints never leave less. Where it isn't, one constraint alone is
// kept, and all of a segment where all that there is would be too few; else the greater half is looked at with the
// lesser one put back, and then the lesser one with what is kept of the greater one put back.
ghost use Rattle.std.specs.Prelude.{◌≡◌, ◌+◌, ◌≤◌, Bool, IfOk, length};
ghost use Rattle.sk_base.specs.declared.ConId.{ConId as Number};
ghost use Rattle.sk_base.specs.Numbering.{con_number};
ghost use Rattle.sk_base.specs.Rising.{IsRising};
ghost use Rattle.sk_base.specs.SoundGraph.{IsSoundGraph};
ghost use Rattle.sk_family.specs.Clusters.{bodies};
ghost use Rattle.sk_rules.specs.JustSome.{with_just};
ghost use Rattle.sk_verdict.specs.OneCluster.{IsOneCluster};
ghost use Rattle.sk_excess.specs.LeftOut.{AreLeftOut};
ghost use Rattle.sk_excess.specs.Thinning.{some_has, AreLeftOutOf, IsWithout};

use sk_base::{ConId, Graph, List, NoMemory};
use sk_family::{Cluster, Family, initial};
use sk_spare::{are_too_few, copy_of, no_graph, normal_family, others_of, with_these};
use std::alloc::Global;

/// The constraints that are left out where they are looked at from the greatest number to the least, and each is left
/// out where the others that aren't left out so far still make one cluster with all nodes. They rise.
pub fn left_out(alloc: Global, graph: &Graph) -> Result<List<ConId>, NoMemory>
    requires sound { IsSoundGraph graph.now }
    requires one { IsOneCluster graph.now }
    ensures left_out { IfOk result (AreLeftOut graph.now) }
{
    let family = normal_family(alloc, graph)?;
    let nothing = initial(alloc, &no_graph(alloc))?;
    match family.clusters() {
        [whole, ..] => left_of(alloc, graph, whole, whole.owned.as_slice(), &nothing),
        [] => unreachable!(),
    }
}

/// Those of the constraints that are set aside which are left out. The family is that of all others that aren't.
fn left_of(
    alloc: Global,
    graph: &Graph,
    owner: &Cluster,
    aside: &[ConId],
    family: &Family,
) -> Result<List<ConId>, NoMemory>
    requires sound { IsSoundGraph graph.now }
    requires size { length owner.now.elements ≡ length graph.now.nodes }
    requires rise { IsRising con_number aside.now }
    requires without { (p : Number → Bool) × IsWithout graph.now p aside.now (bodies family.now) }
    requires room { family.now.next_step + length family.now.live + length aside.now ≤ 4001 }
    ensures { IfOk result (λ left. (p : Number → Bool) → IsWithout graph.now p aside.now (bodies family.now) → AreLeftOutOf (with_just p graph.now) aside.now left) }
{
    match aside {
        _ if some_has(graph.nodes.len(), family.clusters()) => copy_of(alloc, aside),
        [] | [_] => Ok(List::new(alloc)),
        _ if are_too_few(graph, owner, aside, family.clusters()) => Ok(List::new(alloc)),
        _ => {
            let middle = aside.len() / 2;
            let with_less = with_these(alloc, graph, family, &aside[..middle])?;
            let greater = left_of(alloc, graph, owner, &aside[middle..], &with_less)?;
            let kept = others_of(alloc, &aside[middle..], greater.as_slice())?;
            let with_kept = with_these(alloc, graph, family, kept.as_slice())?;
            let mut left = left_of(alloc, graph, owner, &aside[..middle], &with_kept)?;
            left.extend(greater.as_slice())?;
            Ok(left)
        }
    }
}

/// Whether one of the clusters has so many elements.
fn some_has(count: usize, clusters: &[Cluster]) -> bool
    ensures { result ≡ some_has count clusters.now }
{
    clusters
        .iter()
        .any(|cluster| cluster.elements.len() == count)
}
