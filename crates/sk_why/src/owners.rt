// The elements of a constraint, as its starting cluster has them.
ghost use Rattle.std.specs.Prelude.{◌≡◌, find, map, option_copied};
ghost use Rattle.sk_base.specs.declared.Graph.{Graph};
ghost use Rattle.sk_family.specs.declared.Cluster.{Cluster as TheCluster};
ghost use Rattle.sk_family.specs.Body.{starts};
ghost use Rattle.sk_family.specs.Clusters.{start_of};
ghost use Rattle.sk_excess.specs.LeftOut.{is_number, HasConstraint};
ghost use Rattle.sk_why.specs.StartOf.{StartsWith};

use sk_base::{ConId, Elem};
use sk_family::Cluster;
use sk_spare::is_among;

/// The elements of the constraint of that number. The clusters are what the graph's constraints start with.
pub(crate) fn elements_at(clusters: &[Cluster], number: ConId) -> &[Elem]
    requires there { (g : Graph) × (clusters.now ≡ map start_of (starts g)) × HasConstraint g number }
    ensures { (g : Graph) → clusters.now ≡ map start_of (starts g) → StartsWith g number result.now }
{
    match owner_of(clusters, number) {
        Some(owner) => owner.elements.as_slice(),
        None => unreachable!(),
    }
}

/// The first cluster that owns the constraint.
fn owner_of(clusters: &[Cluster], number: ConId) -> Option<&Cluster>
    ensures { option_copied result ≡ find (λ (c : TheCluster). is_number c.owned number) clusters.now }
{
    clusters
        .iter()
        .find(|cluster| is_among(cluster.owned.as_slice(), number))
}
