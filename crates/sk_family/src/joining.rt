// Many clusters made one, by a pass along the clusters and the names side by side.
ghost use Rattle.std.specs.Prelude.{◌≡◌, ◌↔◌, ◌++◌, ◌∷◌, [], All, AllPairs, Contains, IfOk, IsTrue, OnOk, OnErr, Some, false, slice_get};
ghost use Rattle.std.specs.List.{flat_map};
ghost use Rattle.sk_base.specs.ClusterNames.{IsBelow, is_named};
ghost use Rattle.sk_family.specs.declared.cluster.Cluster.{Cluster as AnyCluster};
ghost use Rattle.sk_family.specs.Body.{IsRisingBody};
ghost use Rattle.sk_family.specs.Clusters.{ByName, body_of, named, unnamed, whole_from};
ghost use Rattle.sk_family.specs.Joining.{AreNamesOf, HaveTheSame};

use crate::cluster::Cluster;
use crate::order::{in_order, names_in_order};
use crate::row::Row;
use sk_base::{ConId, Elem, Name, NoMemory};
use std::alloc::Global;

/// The elements and the owned constraints of some clusters, one cluster after another.
#[derive(Drop)]
struct Gathered {
    elements: Vec<Elem>,
    owned: Vec<ConId>,
}

/// Takes the clusters of these names out, and puts the one that they make in at the end, at the cost of
/// a pass along all clusters. After `NoMemory` the clusters are unchanged.
pub(crate) fn join_many(
    alloc: Global,
    clusters: &mut Row<Cluster>,
    from: &[Name],
    name: Name,
) -> Result<(), NoMemory>
    requires by_name { AllPairs ByName clusters.old }
    requires rise { All (λ c. IsRisingBody (body_of c)) clusters.old }
    requires last { (c : AnyCluster) → Contains clusters.old c → IsBelow c.name name }
    requires apart { is_named from.now name ≡ false }
    requires live { All (λ n. (c : AnyCluster) × Contains clusters.old c × (c.name ≡ n)) from.now }
    ensures ok { OnOk result (clusters.new ≡ unnamed from.now clusters.old ++ whole_from name from.now clusters.old ∷ []) }
    ensures err { OnErr result (clusters.new ≡ clusters.old) }
{
    let names = names_in_order(alloc, from)?;
    let gathered = gather(alloc, clusters.as_slice(), names.as_slice())?;
    clusters.push(gathered.into_cluster(alloc, name)?)?;
    drop_named(clusters, names.as_slice());
    Ok(())
}

/// Gathers the clusters of these names, which stand in order.
fn gather(alloc: Global, clusters: &[Cluster], names: &[Name]) -> Result<Gathered, NoMemory>
    requires by_name { AllPairs ByName clusters.now }
    requires names { AreNamesOf names.now clusters.now }
    ensures elements { IfOk result (λ all. all.elements.items ≡ flat_map (λ (c : AnyCluster). c.elements) (named names.now clusters.now)) }
    ensures owned { IfOk result (λ all. all.owned.items ≡ flat_map (λ (c : AnyCluster). c.owned) (named names.now clusters.now)) }
{
    let mut gathered = Gathered {
        elements: Vec::new(alloc),
        owned: Vec::new(alloc),
    };
    let mut place = 0;
    for cluster in clusters {
        if is_name_at(names, place, cluster.name) {
            gathered.add(cluster)?;
            place += 1;
        }
    }
    Ok(gathered)
}

impl Gathered {
    fn add(&mut self, cluster: &Cluster) -> Result<(), NoMemory>
        ensures elements { OnOk result (self.new.elements.items ≡ self.old.elements.items ++ cluster.now.elements) }
        ensures owned { OnOk result (self.new.owned.items ≡ self.old.owned.items ++ cluster.now.owned) }
    {
        self.elements
            .extend_from_slice(cluster.elements.as_slice())?;
        self.owned.extend_from_slice(cluster.owned.as_slice())?;
        Ok(())
    }

    /// The cluster of that name that they make.
    fn into_cluster(self, alloc: Global, name: Name) -> Result<Cluster, NoMemory>
        ensures name { IfOk result (λ whole. whole.name ≡ name) }
        ensures rises { IfOk result (λ whole. IsRisingBody (body_of whole)) }
        ensures elements { IfOk result (λ whole. HaveTheSame self.elements.items whole.elements) }
        ensures owned { IfOk result (λ whole. HaveTheSame self.owned.items whole.owned) }
    {
        Ok(Cluster {
            name,
            elements: in_order(alloc, self.elements)?,
            owned: in_order(alloc, self.owned)?,
        })
    }
}

/// Drops the clusters of these names, which stand in order.
fn drop_named(clusters: &mut Row<Cluster>, names: &[Name])
    requires by_name { AllPairs ByName clusters.old }
    requires names { AreNamesOf names.now clusters.old }
    ensures { clusters.new ≡ unnamed names.now clusters.old }
{
    let mut kept = 0;
    let mut place = 0;
    for at in 0..clusters.len() {
        if is_name_at(names, place, clusters.as_slice()[at].name) {
            place += 1;
        } else {
            clusters.swap(kept, at);
            kept += 1;
        }
    }
    clusters.truncate(kept);
}

/// Whether that name stands at the place.
fn is_name_at(names: &[Name], place: usize, name: Name) -> bool
    ensures { IsTrue result ↔ (slice_get names.now place ≡ Some name) }
{
    match names.get(place) {
        Some(other) => *other == name,
        None => false,
    }
}
