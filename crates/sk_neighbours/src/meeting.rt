// The triples of a cluster by a look-up. What the second clusters have beside a corner is sorted, and the
// walk goes from the other corners to the third clusters and looks their elements up.
ghost use Rattle.std.specs.Prelude.{◌≢◌, ◌↔◌, IsTrue, OnOk};
ghost use Rattle.std.specs.List.Sorted.{IsNonDecreasingBy};
ghost use Rattle.sk_triangles.specs.Ends.{end_number};
ghost use Rattle.sk_triangles.specs.Growing.{FromSome, GrowsBy};
ghost use Rattle.sk_neighbours.specs.Indexed.{IsIndex, IsThirdAt};
ghost use Rattle.sk_neighbours.specs.Triples.{AtCorner};
ghost use Rattle.sk_neighbours.specs.Walked.{MeetAny, MeetAt, Meets};

use crate::all_triples::add_ends_from;
use crate::corners::is_third;
use crate::index::Index;
use crate::triples::{Third, is_placed, triple_of};
use crate::walk::{HolderVisitor, Walk};
use sk_base::{Elem, List, Name, NoMemory};
use sk_family::{Cluster, Merge};
use sk_triangles::{End, by_elem, ends_at};
use std::alloc::Global;

/// Adds the triples of x with a as the corner between it and the second.
pub(crate) fn add_by_ends(
    alloc: Global,
    index: &Index,
    x: &Cluster,
    a: Elem,
    third: Third,
    all: &mut List<Merge>,
) -> Result<(), NoMemory>
    requires { IsIndex index.now }
    ensures { OnOk result (GrowsBy (AtCorner third index.now x.now a) all.old all.new) }
{
    let walk = Walk {
        index,
        below: x.name,
    };
    let mut ends = List::new(alloc);
    walk.at_element(a, &AsEnds {}, &mut ends)?;
    let sorted = by_elem(alloc, ends.as_slice())?;
    let meetings = Meetings {
        index,
        x: x.name,
        a,
        third,
        ends: sorted.as_slice(),
    };
    walk.along(x.elements.as_slice(), &meetings, all)
}

/// Each cluster is kept as its ends, seen from the element.
#[derive(Clone, Copy)]
struct AsEnds {}

impl HolderVisitor for AsEnds {
    ghost use Rattle.sk_triangles.specs.Ends.{EndsAmong};

    type Kept = End;

    ghost can_visit = { λ v y. Unit {0} };

    ghost keeps = { λ v a y. EndsAmong y.name a y.elements };

    fn visit(&self, elem: Elem, cluster: &Cluster, all: &mut List<End>) -> Result<(), NoMemory> {
        add_ends_from(cluster, elem, all)
    }
}

/// The walk comes to the third clusters of triples of x, at a corner of the two. The corner of x and the
/// second is a, and the ends are those of the second ones, sorted by their elements.
#[derive(Clone, Copy)]
struct Meetings<'a> {
    index: &'a Index,
    x: Name,
    a: Elem,
    third: Third,
    ends: &'a [End],
}

impl<'a> HolderVisitor for Meetings<'a> {
    ghost use Rattle.std.specs.List.Sorted.{IsNonDecreasingBy};
    ghost use Rattle.sk_triangles.specs.Ends.{end_number};
    ghost use Rattle.sk_neighbours.specs.Walked.{MeetAny};

    type Kept = Merge;

    ghost can_visit = { λ v z. IsNonDecreasingBy end_number v.ends.now };

    ghost keeps = { λ v d z. MeetAny v.third v.index.now v.ends.now v.x v.a d z };

    fn visit(&self, elem: Elem, cluster: &Cluster, all: &mut List<Merge>) -> Result<(), NoMemory> {
        add_meeting_of(self, elem, cluster, all)
    }
}

/// Adds the triples of x, one of the ends' clusters, and z, which has the corner d with x.
fn add_meeting_of(
    meetings: &Meetings,
    d: Elem,
    z: &Cluster,
    all: &mut List<Merge>,
) -> Result<(), NoMemory>
    requires { IsNonDecreasingBy end_number meetings.now.ends.now }
    ensures { OnOk result (GrowsBy (MeetAny meetings.now.third meetings.now.index.now meetings.now.ends.now meetings.now.x meetings.now.a d z.now) all.old all.new) }
{
    for b in z.elements.as_slice() {
        add_meeting_at(meetings, d, z.name, *b, all)?;
    }
    Ok(())
}

/// Adds those where z meets the second at b, if b makes a triangle with the corners.
fn add_meeting_at(
    meetings: &Meetings,
    d: Elem,
    z: Name,
    b: Elem,
    all: &mut List<Merge>,
) -> Result<(), NoMemory>
    requires { IsNonDecreasingBy end_number meetings.now.ends.now }
    ensures { OnOk result (GrowsBy (MeetAt meetings.now.third meetings.now.index.now meetings.now.ends.now meetings.now.x meetings.now.a d z b) all.old all.new) }
{
    if !are_corners(meetings.index, meetings.a, b, d) {
        return Ok(());
    }
    add_meets(
        meetings.x,
        z,
        ends_at(meetings.ends, b),
        meetings.third,
        all,
    )
}

fn are_corners(index: &Index, a: Elem, b: Elem, d: Elem) -> bool
    ensures { IsTrue result ↔ ((a ≢ b) × IsThirdAt index.now a b d) }
{
    a != b && is_third(index, a, b, d)
}

/// Adds the triples of x, z and one of these ends.
fn add_meets(
    x: Name,
    z: Name,
    ends: &[End],
    third: Third,
    all: &mut List<Merge>,
) -> Result<(), NoMemory>
    ensures { OnOk result (GrowsBy (FromSome (Meets third x z) ends.now) all.old all.new) }
{
    for end in ends {
        add_meet(x, z, *end, third, all)?;
    }
    Ok(())
}

/// Adds that with this end, if z stands where it is looked for.
fn add_meet(x: Name, z: Name, end: End, third: Third, all: &mut List<Merge>) -> Result<(), NoMemory>
    ensures { OnOk result (GrowsBy (Meets third x z end) all.old all.new) }
{
    if is_placed(third, end.name, z) {
        all.push(triple_of(x, end.name, z))?;
    }
    Ok(())
}
