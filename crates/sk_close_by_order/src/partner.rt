// The first clusters that may merge as a pair.
ghost use Rattle.std.specs.Prelude.{IfSome, IfNone, Contains, AllPairs};
ghost use Rattle.sk_base.specs.Numbering.{elem_number};
ghost use Rattle.sk_base.specs.Rising.{IsRising};
ghost use Rattle.sk_base.specs.declared.Name.{Name as ClusterName};
ghost use Rattle.sk_family.specs.Clusters.{ByName};
ghost use Rattle.sk_family.specs.declared.Cluster.{Cluster as AnyCluster};
ghost use Rattle.sk_neighbours.specs.Indexed.{AllRise, IsIndex};
ghost use Rattle.sk_neighbours.specs.Partners.{IsLeast, Partner};
ghost use Rattle.sk_close_by_order.specs.Gather.{IsPartner};
ghost use Rattle.sk_close_by_order.specs.Heirs.{TellsFresh};

use sk_base::{Elem, Name};
use sk_family::Cluster;
use sk_neighbours::{Index, least_partner, least_partner_at};
use sk_open_triples::{Heir, is_same};

/// The first of these clusters that has a partner, and the least one.
pub(crate) fn first_with_partner(
    index: &Index,
    clusters: &[Cluster],
    heir: Option<Heir>,
    fresh: &[Elem],
) -> Option<(Name, Name)>
    requires index { IsIndex index.now }
    requires tells { (c : AnyCluster) → Contains clusters.now c → TellsFresh index.now heir fresh.now c }
    requires rise { AllRise clusters.now }
    requires by_name { AllPairs ByName clusters.now }
    ensures none { IfNone result ((c : AnyCluster) (n : ClusterName) → Contains clusters.now c → ¬ Partner index.now c n) }
    ensures some { IfSome result (λ pair. IsPartner index.now clusters.now pair.0 pair.1) }
{
    for x in clusters {
        if let Some(y) = least_partner_by(index, x, heir, fresh) {
            return Some((x.name, y));
        }
    }
    None
}

/// The least of the clusters below x that share two elements with it, where an heir's are found by its
/// fresh elements.
fn least_partner_by(index: &Index, x: &Cluster, heir: Option<Heir>, fresh: &[Elem]) -> Option<Name>
    requires index { IsIndex index.now }
    requires rises { IsRising elem_number x.now.elements }
    requires tells { TellsFresh index.now heir fresh.now x.now }
    ensures { IsLeast (Partner index.now x.now) result }
{
    match heir {
        Some(grown) => {
            if is_same(x.name, grown.name) {
                least_partner_at(index, x, fresh, None)
            } else {
                least_partner(index, x)
            }
        }
        None => least_partner(index, x),
    }
}
