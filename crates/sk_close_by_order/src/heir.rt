// The one cluster that isn't covered yet, where it is known how it came about: it has the elements of
// a covered cluster that is gone, its core, and fresh ones. It has the core's triples, and those that
// a walk from its fresh elements finds.
ghost use Rattle.std.specs.Prelude.{◌≡◌, ◌↔◌, ◌⊎◌, ◌∷◌, [], All, Contains, IfSome, IsTrue, OnOk};
ghost use Rattle.sk_base.specs.Numbering.{elem_number};
ghost use Rattle.sk_base.specs.Rising.{IsRising};
ghost use Rattle.sk_family.specs.Clusters.{IsLive, IsNamed, IsSound};
ghost use Rattle.sk_triangles.specs.Growing.{FromSome, GrowsBy};
ghost use Rattle.sk_family.specs.Merges.{names_of};
ghost use Rattle.sk_close_by_order.specs.Heirs.{IsFreshOn, MissesSome};

use sk_base::{Elem, List, Name, NoMemory};
use sk_family::{Cluster, Family};
use sk_open_triples::is_same;
use sk_rules::Merge;
use sk_triangles::is_in_rising;

/// Adds those of the elements that aren't among the many.
pub(crate) fn add_missing(
    elements: &[Elem],
    many: &[Elem],
    all: &mut List<Elem>,
) -> Result<(), NoMemory>
    requires { IsRising elem_number many.now }
    ensures { OnOk result (GrowsBy (FromSome (MissesSome many.now) elements.now) all.old all.new) }
{
    for elem in elements {
        add_if_missing(*elem, many, all)?;
    }
    Ok(())
}

fn add_if_missing(elem: Elem, many: &[Elem], all: &mut List<Elem>) -> Result<(), NoMemory>
    requires { IsRising elem_number many.now }
    ensures { OnOk result (GrowsBy (MissesSome many.now elem) all.old all.new) }
{
    if is_in_rising(elem, many) {
        return Ok(());
    }
    all.push(elem)
}

/// Adds what the clusters of the merge have and the one of the name hasn't. Answers whether that was
/// done: it isn't where one of them doesn't live, or where memory is wanting.
pub(crate) fn add_fresh(family: &Family, merge: Merge, name: Name, fresh: &mut List<Elem>) -> bool
    ensures live { IsTrue result → All (λ n. IsLive family.now n) (names_of merge) }
    ensures on { IsTrue result → IsFreshOn family.now (names_of merge) name fresh.old fresh.new }
    ensures sound { IsSound family.now }
{
    match family.cluster(name) {
        Some(base) => match merge {
            Merge::Two(x, y) => add_fresh_of_all(family, &[x, y], base, fresh),
            Merge::Three(x, y, z) => add_fresh_of_all(family, &[x, y, z], base, fresh),
        },
        None => false,
    }
}

/// Adds what the clusters of these names have and the base hasn't.
fn add_fresh_of_all(family: &Family, names: &[Name], base: &Cluster, fresh: &mut List<Elem>) -> bool
    requires { IsNamed family.now base.now.name base.now }
    ensures live { IsTrue result → All (λ n. IsLive family.now n) names.now }
    ensures on { IsTrue result → IsFreshOn family.now names.now base.now.name fresh.old fresh.new }
{
    for name in names {
        if !add_fresh_of(family, *name, base, fresh) {
            return false;
        }
    }
    true
}

/// Adds what the cluster of the name has and the base hasn't.
fn add_fresh_of(family: &Family, name: Name, base: &Cluster, fresh: &mut List<Elem>) -> bool
    requires { IsNamed family.now base.now.name base.now }
    ensures live { IsTrue result → IsLive family.now name }
    ensures on { IsTrue result → IsFreshOn family.now (name ∷ []) base.now.name fresh.old fresh.new }
{
    if is_same(name, base.name) {
        return true;
    }
    match family.cluster(name) {
        Some(cluster) => {
            add_missing(cluster.elements.as_slice(), base.elements.as_slice(), fresh).is_ok()
        }
        None => false,
    }
}

/// The merge's cluster that has most elements, where all of them live.
pub(crate) fn biggest(family: &Family, merge: Merge) -> Option<&Cluster>
    ensures live { IfSome result (λ c. IsLive family.now c.now.name) }
    ensures named { IfSome result (λ c. Contains (names_of merge) c.now.name) }
    ensures sound { IsSound family.now }
{
    match merge {
        Merge::Two(x, y) => Some(bigger(family.cluster(x)?, family.cluster(y)?)),
        Merge::Three(x, y, z) => Some(bigger(
            bigger(family.cluster(x)?, family.cluster(y)?),
            family.cluster(z)?,
        )),
    }
}

fn bigger<'a>(x: &'a Cluster, y: &'a Cluster) -> &'a Cluster
    ensures { (result.now ≡ x.now) ⊎ (result.now ≡ y.now) }
{
    if x.elements.len() < y.elements.len() {
        y
    } else {
        x
    }
}

/// Whether the merge has the name.
pub(crate) fn has_name(merge: Merge, name: Name) -> bool
    ensures { IsTrue result ↔ Contains (names_of merge) name }
{
    match merge {
        Merge::Two(x, y) => name.is_among(&[x, y]),
        Merge::Three(x, y, z) => name.is_among(&[x, y, z]),
    }
}
