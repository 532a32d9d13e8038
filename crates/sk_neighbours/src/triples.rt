// The triples of a cluster. From a corner of it the walk goes to a second cluster and to a third, and
// searches for the corner between that one and the first; or, where few clusters hold the other corners
// of the first, it goes to the third from there.
ghost use Rattle.std.specs.Prelude.{◌≡◌, ◌≢◌, ◌↔◌, IsTrue, OnOk};
ghost use Rattle.sk_base.specs.Numbering.{elem_number};
ghost use Rattle.sk_base.specs.Rising.{IsRising};
ghost use Rattle.sk_triangles.specs.Growing.{FromSome, GrowsBy};
ghost use Rattle.sk_neighbours.specs.Indexed.{AllRise, IsIndex};
ghost use Rattle.sk_neighbours.specs.Triples.{AtCorner, IsPlaced, IsTripleOf, TriplesOf};
ghost use Rattle.sk_neighbours.specs.Walked.{IsThirdCluster, WithSecond, WithThird, limit_of};

use crate::index::Index;
use crate::meeting::add_by_ends;
use crate::walk::{HolderVisitor, Walk};
use sk_base::{Elem, List, Name, NoMemory};
use sk_family::{Cluster, Merge};
use sk_triangles::has_third;
use std::alloc::Global;

/// Where the third cluster of a triple stands: below the second alone, or on either side of it.
#[derive(Clone, Copy)]
pub enum Third {
    Below,
    Either,
}

/// Adds the triples with one of these clusters as the greatest and others of the index that may merge.
pub fn add_triples_of_all(
    index: &Index,
    clusters: &[Cluster],
    all: &mut List<Merge>,
) -> Result<(), NoMemory>
    requires index { IsIndex index.now }
    requires rise { AllRise clusters.now }
    ensures { OnOk result (GrowsBy (FromSome (TriplesOf index.now) clusters.now) all.old all.new) }
{
    for x in clusters {
        add_triples_of(index, x, all)?;
    }
    Ok(())
}

/// Adds the triples with x as the greatest that may merge.
pub fn add_triples_of(index: &Index, x: &Cluster, all: &mut List<Merge>) -> Result<(), NoMemory>
    requires index { IsIndex index.now }
    requires rises { IsRising elem_number x.now.elements }
    ensures { OnOk result (GrowsBy (TriplesOf index.now x.now) all.old all.new) }
{
    for a in x.elements.as_slice() {
        add_by_search(index, x, *a, Third::Below, all)?;
    }
    Ok(())
}

/// Adds those with one of these elements of x as a corner between x and the second.
pub fn add_triples_at(
    alloc: Global,
    index: &Index,
    x: &Cluster,
    elements: &[Elem],
    third: Third,
    all: &mut List<Merge>,
) -> Result<(), NoMemory>
    requires index { IsIndex index.now }
    requires rises { IsRising elem_number x.now.elements }
    ensures { OnOk result (GrowsBy (FromSome (AtCorner third index.now x.now) elements.now) all.old all.new) }
{
    for a in elements {
        add_at_corner(alloc, index, x, *a, third, all)?;
    }
    Ok(())
}

/// Adds those with a as a corner between x and the second.
fn add_at_corner(
    alloc: Global,
    index: &Index,
    x: &Cluster,
    a: Elem,
    third: Third,
    all: &mut List<Merge>,
) -> Result<(), NoMemory>
    requires index { IsIndex index.now }
    requires rises { IsRising elem_number x.now.elements }
    ensures { OnOk result (GrowsBy (AtCorner third index.now x.now a) all.old all.new) }
{
    if is_narrow(index, x.elements.as_slice(), a) {
        add_by_ends(alloc, index, x, a, third, all)
    } else {
        add_by_search(index, x, a, third, all)
    }
}

/// Whether these elements are no more than the clusters that hold a, and few clusters hold each.
fn is_narrow(index: &Index, elements: &[Elem], a: Elem) -> bool {
    let most = index.holders(a).len();
    elements.len() <= most && elements.iter().all(|d| index.holders(*d).len() / 2 <= most)
}

/// Adds those with a as a corner by a walk from it, with a search for the last corner.
fn add_by_search(
    index: &Index,
    x: &Cluster,
    a: Elem,
    third: Third,
    all: &mut List<Merge>,
) -> Result<(), NoMemory>
    requires index { IsIndex index.now }
    requires rises { IsRising elem_number x.now.elements }
    ensures { OnOk result (GrowsBy (AtCorner third index.now x.now a) all.old all.new) }
{
    let below = x.name;
    Walk { index, below }.at_element(a, &Seconds { index, x, third }, all)
}

/// The walk comes to the second clusters of triples of x, at a corner of the two, and goes on from there.
#[derive(Clone, Copy)]
struct Seconds<'a> {
    index: &'a Index,
    x: &'a Cluster,
    third: Third,
}

impl<'a> HolderVisitor for Seconds<'a> {
    ghost use Rattle.sk_base.specs.Numbering.{elem_number};
    ghost use Rattle.sk_base.specs.Rising.{IsRising};
    ghost use Rattle.sk_neighbours.specs.Indexed.{IsIndex};
    ghost use Rattle.sk_neighbours.specs.Walked.{WithSecond};

    type Kept = Merge;

    ghost can_visit = { λ v y. IsIndex v.index.now × IsRising elem_number v.x.now.elements };

    ghost keeps = { λ v a y. WithSecond v.third v.index.now v.x.now a y };

    fn visit(&self, elem: Elem, cluster: &Cluster, all: &mut List<Merge>) -> Result<(), NoMemory> {
        add_with_second(self.index, self.x, self.third, elem, cluster, all)
    }
}

/// Adds those of x and y, with a as the corner between the two.
fn add_with_second(
    index: &Index,
    x: &Cluster,
    third: Third,
    a: Elem,
    y: &Cluster,
    all: &mut List<Merge>,
) -> Result<(), NoMemory>
    requires index { IsIndex index.now }
    requires rises { IsRising elem_number x.now.elements }
    ensures { OnOk result (GrowsBy (WithSecond third index.now x.now a y.now) all.old all.new) }
{
    let below = limit(third, x.name, y.name);
    let thirds = Thirds { index, x, y, a };
    Walk { index, below }.along(y.elements.as_slice(), &thirds, all)
}

/// The walk comes to the third clusters, at a corner of them and y. The corner of x and y is a.
#[derive(Clone, Copy)]
struct Thirds<'a> {
    index: &'a Index,
    x: &'a Cluster,
    y: &'a Cluster,
    a: Elem,
}

impl<'a> HolderVisitor for Thirds<'a> {
    ghost use Rattle.sk_base.specs.Numbering.{elem_number};
    ghost use Rattle.sk_base.specs.Rising.{IsRising};
    ghost use Rattle.sk_neighbours.specs.Walked.{WithThird};

    type Kept = Merge;

    ghost can_visit = { λ v z. IsRising elem_number v.x.now.elements × IsRising elem_number z.elements };

    ghost keeps = { λ v b z. WithThird v.index.now v.x.now v.y.now v.a b z };

    fn visit(&self, elem: Elem, cluster: &Cluster, all: &mut List<Merge>) -> Result<(), NoMemory> {
        add_with_third(self, elem, cluster, all)
    }
}

/// Adds the triple of x, y and z, if b and some corner of z and x make a triangle with a.
fn add_with_third(
    thirds: &Thirds,
    b: Elem,
    z: &Cluster,
    all: &mut List<Merge>,
) -> Result<(), NoMemory>
    requires x_rises { IsRising elem_number thirds.now.x.now.elements }
    requires z_rises { IsRising elem_number z.now.elements }
    ensures { OnOk result (GrowsBy (WithThird thirds.now.index.now thirds.now.x.now thirds.now.y.now thirds.now.a b z.now) all.old all.new) }
{
    if is_third_cluster(thirds.index, thirds.x, thirds.y, z, thirds.a, b) {
        all.push(triple_of(thirds.x.name, thirds.y.name, z.name))?;
    }
    Ok(())
}

/// The name below which the third stands.
fn limit(third: Third, x: Name, y: Name) -> Name
    ensures { result ≡ limit_of third x y }
{
    match third {
        Third::Below => y,
        Third::Either => x,
    }
}

/// The triple with x as the greatest.
pub(crate) fn triple_of(x: Name, y: Name, z: Name) -> Merge
    requires { z ≢ y }
    ensures { IsTripleOf x y z result }
{
    if z.is_below(y) {
        Merge::Three(x, y, z)
    } else {
        Merge::Three(x, z, y)
    }
}

/// Whether z is another cluster than y, b another corner than a, and some corner of z and x makes a
/// triangle with the two.
fn is_third_cluster(index: &Index, x: &Cluster, y: &Cluster, z: &Cluster, a: Elem, b: Elem) -> bool
    requires x_rises { IsRising elem_number x.now.elements }
    requires z_rises { IsRising elem_number z.now.elements }
    ensures { IsTrue result ↔ IsThirdCluster index.now x.now y.now z.now a b }
{
    a != b
        && z.name != y.name
        && has_third(
            index.lines(),
            a,
            b,
            x.elements.as_slice(),
            z.elements.as_slice(),
        )
}

/// Whether the third cluster stands where it is looked for.
pub(crate) fn is_placed(third: Third, y: Name, z: Name) -> bool
    ensures { IsTrue result ↔ IsPlaced third y z }
{
    match third {
        Third::Below => z.is_below(y),
        Third::Either => z != y,
    }
}
