// The search for a name among clusters.
ghost use Rattle.std.specs.Prelude.{◌≤◌, AllPairs, Contains, length, take, drop};
ghost use Rattle.sk_base.specs.ClusterNames.{IsBelow};
ghost use Rattle.sk_family.specs.declared.cluster.Cluster.{Cluster as AnyCluster};
ghost use Rattle.sk_family.specs.Clusters.{ByName};

use crate::cluster::Cluster;
use sk_base::Name;

/// How many of the clusters are below the name: its place among them.
pub(crate) fn count_below(clusters: &[Cluster], name: Name) -> usize
    requires { AllPairs ByName clusters.now }
    ensures within { result ≤ length clusters.now }
    ensures before { (c : AnyCluster) → Contains (take result clusters.now) c → IsBelow c.name name }
    ensures after { (c : AnyCluster) → Contains (drop result clusters.now) c → ¬ IsBelow c.name name }
{
    clusters.partition_point(|cluster| cluster.name.is_below(name))
}
