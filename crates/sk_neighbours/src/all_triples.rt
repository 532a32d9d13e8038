// All triples of some clusters, found at once.
ghost use Rattle.std.specs.Prelude.{◌≢◌, OnOk};
ghost use Rattle.sk_triangles.specs.Ends.{EndsAmong};
ghost use Rattle.sk_triangles.specs.Growing.{FromSome, GrowsBy};
ghost use Rattle.sk_neighbours.specs.AllTriples.{EndsOf, IsMergeOfThree, IsTripleAmong};

use sk_base::{Elem, List, Name, NoMemory};
use sk_family::{Cluster, Merge};
use sk_triangles::{End, Visitor, add_ends, add_triangles, by_corner, counts_of};
use std::alloc::Global;

/// Adds the triples of three of these clusters that may merge. The lines are marked. What is sorted on
/// the way takes memory by the square of a cluster's elements.
pub fn add_all_triples(
    alloc: Global,
    lines: &[bool],
    clusters: &[Cluster],
    all: &mut List<Merge>,
) -> Result<(), NoMemory>
    ensures { OnOk result (GrowsBy (IsTripleAmong lines.now clusters.now) all.old all.new) }
{
    let mut ends = List::new(alloc);
    add_ends_of_all(clusters, &mut ends)?;
    let counts = counts_of(alloc, ends.as_slice())?;
    let sorted = by_corner(alloc, ends.as_slice())?;
    add_triangles(
        alloc,
        lines,
        counts.as_slice(),
        sorted.as_slice(),
        &AsMerges {},
        all,
    )
}

/// Adds the ends of these clusters.
fn add_ends_of_all(clusters: &[Cluster], ends: &mut List<End>) -> Result<(), NoMemory>
    ensures { OnOk result (GrowsBy (FromSome EndsOf clusters.now) ends.old ends.new) }
{
    for r in clusters {
        add_ends_of(r, ends)?;
    }
    Ok(())
}

/// Adds those of r, seen from each of its elements.
fn add_ends_of(r: &Cluster, ends: &mut List<End>) -> Result<(), NoMemory>
    ensures { OnOk result (GrowsBy (EndsOf r.now) ends.old ends.new) }
{
    for c in r.elements.as_slice() {
        add_ends_from(r, *c, ends)?;
    }
    Ok(())
}

/// Adds those seen from c.
pub(crate) fn add_ends_from(r: &Cluster, c: Elem, ends: &mut List<End>) -> Result<(), NoMemory>
    ensures { OnOk result (GrowsBy (EndsAmong r.now.name c r.now.elements) ends.old ends.new) }
{
    add_ends(r.name, r.elements.as_slice(), c, ends)
}

/// Each triangle is kept as a merge.
#[derive(Clone, Copy)]
struct AsMerges {}

impl Visitor for AsMerges {
    type Kept = Merge;

    ghost keeps = { λ v. IsMergeOfThree };

    fn visit(&self, x: Name, y: Name, z: Name, all: &mut List<Merge>) -> Result<(), NoMemory> {
        add_merge(x, y, z, all)
    }
}

/// Adds the merge of three clusters.
fn add_merge(x: Name, y: Name, z: Name, all: &mut List<Merge>) -> Result<(), NoMemory>
    requires { (x ≢ y) × (y ≢ z) × (z ≢ x) }
    ensures { OnOk result (GrowsBy (IsMergeOfThree x y z) all.old all.new) }
{
    match Merge::three(x, y, z) {
        Some(merge) => all.push(merge),
        None => unreachable!(),
    }
}
