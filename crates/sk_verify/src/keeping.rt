// Whether a step keeps the cluster that it should.
ghost use Rattle.std.specs.Prelude.{◌↔◌, [], ◌∷◌, IsTrue, Contains};
ghost use Rattle.sk_base.specs.declared.Name.{Name as AnyName};
ghost use Rattle.sk_family.specs.declared.Cluster.{Cluster as AnyCluster};
ghost use Rattle.sk_family.specs.Clusters.{IsNamed};
ghost use Rattle.sk_tree.specs.LegalPlan.{IsPreferred, IsKept};

use sk_base::Name;
use sk_family::{Cluster, Family};
use sk_tree::PlanStep;

/// Whether the step keeps the one of its clusters with most elements, and of several such the one with
/// the least name.
pub(crate) fn keeps_right(family: &Family, step: &PlanStep) -> bool
    ensures { IsTrue result ↔ IsKept family.now (step.now.one ∷ step.now.two ∷ step.now.three ∷ []) step.now.keeps }
{
    is_kept(family, step.keeps, &[step.one, step.two, step.three])
}

fn is_kept(family: &Family, kept: Name, names: &[Name]) -> bool
    ensures { IsTrue result ↔ IsKept family.now names.now kept }
{
    match family.cluster(kept) {
        Some(cluster) => kept.is_among(names) && is_preferred_to_all(family, cluster, names),
        None => false,
    }
}

/// Whether the cluster is preferred to each live one of these names.
fn is_preferred_to_all(family: &Family, cluster: &Cluster, names: &[Name]) -> bool
    ensures { IsTrue result ↔ ((n : AnyName) (b : AnyCluster) → Contains names.now n → IsNamed family.now n b → IsPreferred cluster.now b) }
{
    for name in names {
        if !is_preferred_to(family, cluster, *name) {
            return false;
        }
    }
    true
}

fn is_preferred_to(family: &Family, cluster: &Cluster, name: Name) -> bool
    ensures { IsTrue result ↔ ((b : AnyCluster) → IsNamed family.now name b → IsPreferred cluster.now b) }
{
    match family.cluster(name) {
        Some(other) => is_preferred(cluster, other),
        None => true,
    }
}

fn is_preferred(cluster: &Cluster, other: &Cluster) -> bool
    ensures { IsTrue result ↔ IsPreferred cluster.now other.now }
{
    let size = cluster.elements.len();
    let size_of_other = other.elements.len();
    size_of_other < size || (size_of_other == size && !other.name.is_below(cluster.name))
}
