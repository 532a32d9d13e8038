// The walk to all triangles. It goes from a corner that is neither the highest nor the lowest to a lower
// one, and from there to a third, which it looks up among what the clusters at the first have beside it:
// a lower corner is held by fewer clusters, or by as many. So a line that all clusters share is walked
// along from few of them.
ghost use Rattle.std.specs.Prelude.{◌≢◌, ◌↔◌, IsTrue, OnOk};
ghost use Rattle.std.specs.List.Sorted.{IsNonDecreasingBy};
ghost use Rattle.sk_triangles.specs.Ends.{corner_number, end_number};
ghost use Rattle.sk_triangles.specs.Growing.{FromSome, GrowsBy};
ghost use Rattle.sk_triangles.specs.Marks.{IsThird};
ghost use Rattle.sk_triangles.specs.Walk.{DownBy, Found, FoundFrom, JoinedBy, LastBy};

use crate::ends::{End, count_up_to, ends_at, seen_from};
use crate::highs::highs_of;
use crate::marks::is_third;
use crate::ranks::is_lower;
use crate::visitor::Visitor;
use sk_base::{Elem, List, Name, NoMemory};
use std::alloc::Global;

/// Adds what the visitor keeps of the triangles of these ends, which are sorted by their corners. The lines
/// are marked. By any counts the triangles are the same, and the walk is short where each is the number of
/// clusters that hold an element. What is sorted on the way takes memory by the number of ends at a corner.
pub fn add_triangles<V: Visitor>(
    alloc: Global,
    lines: &[bool],
    counts: &[usize],
    ends: &[End],
    visitor: &V,
    all: &mut List<V::Kept>,
) -> Result<(), NoMemory>
    requires { IsNonDecreasingBy corner_number ends.now }
    ensures { OnOk result (GrowsBy (FromSome (Found (V.keeps visitor.now) lines.now counts.now ends.now) ends.now) all.old all.new) }
{
    let mut done = 0;
    while done < ends.len() {
        let corner = ends[done].corner;
        add_from_corner(alloc, lines, counts, ends, corner, visitor, all)?;
        done = count_up_to(ends, corner);
    }
    Ok(())
}

/// Adds those whose middle corner is that one.
fn add_from_corner<V: Visitor>(
    alloc: Global,
    lines: &[bool],
    counts: &[usize],
    ends: &[End],
    corner: Elem,
    visitor: &V,
    all: &mut List<V::Kept>,
) -> Result<(), NoMemory>
    requires { IsNonDecreasingBy corner_number ends.now }
    ensures { OnOk result (GrowsBy (FoundFrom (V.keeps visitor.now) lines.now counts.now ends.now corner) all.old all.new) }
{
    let seen = seen_from(ends, corner);
    let highs = highs_of(alloc, counts, seen)?;
    add_down_from(lines, counts, ends, seen, highs.as_slice(), visitor, all)
}

/// Adds those that go by one of the seen ends to a lower corner, and by one of the highs, which are sorted
/// by their elements, to a higher one.
fn add_down_from<V: Visitor>(
    lines: &[bool],
    counts: &[usize],
    ends: &[End],
    seen: &[End],
    highs: &[End],
    visitor: &V,
    all: &mut List<V::Kept>,
) -> Result<(), NoMemory>
    requires rise { IsNonDecreasingBy corner_number ends.now }
    requires sorted { IsNonDecreasingBy end_number highs.now }
    ensures { OnOk result (GrowsBy (FromSome (DownBy (V.keeps visitor.now) lines.now counts.now ends.now highs.now) seen.now) all.old all.new) }
{
    for x in seen {
        add_down_by(lines, counts, ends, *x, highs, visitor, all)?;
    }
    Ok(())
}

/// Adds those that go by x, if that leads to a lower corner.
fn add_down_by<V: Visitor>(
    lines: &[bool],
    counts: &[usize],
    ends: &[End],
    x: End,
    highs: &[End],
    visitor: &V,
    all: &mut List<V::Kept>,
) -> Result<(), NoMemory>
    requires rise { IsNonDecreasingBy corner_number ends.now }
    requires sorted { IsNonDecreasingBy end_number highs.now }
    ensures { OnOk result (GrowsBy (DownBy (V.keeps visitor.now) lines.now counts.now ends.now highs.now x) all.old all.new) }
{
    if !is_lower(counts, x.elem, x.corner) {
        return Ok(());
    }
    add_last_of(lines, x, seen_from(ends, x.elem), highs, visitor, all)
}

/// Adds those that go on by one of these ends.
fn add_last_of<V: Visitor>(
    lines: &[bool],
    x: End,
    ends: &[End],
    highs: &[End],
    visitor: &V,
    all: &mut List<V::Kept>,
) -> Result<(), NoMemory>
    requires { IsNonDecreasingBy end_number highs.now }
    ensures { OnOk result (GrowsBy (FromSome (LastBy (V.keeps visitor.now) lines.now highs.now x) ends.now) all.old all.new) }
{
    for y in ends {
        add_last_by(lines, x, *y, highs, visitor, all)?;
    }
    Ok(())
}

/// Adds those that go on by y, if that is of another cluster and its element makes a triangle.
fn add_last_by<V: Visitor>(
    lines: &[bool],
    x: End,
    y: End,
    highs: &[End],
    visitor: &V,
    all: &mut List<V::Kept>,
) -> Result<(), NoMemory>
    requires { IsNonDecreasingBy end_number highs.now }
    ensures { OnOk result (GrowsBy (LastBy (V.keeps visitor.now) lines.now highs.now x y) all.old all.new) }
{
    if !goes_on(lines, x, y) {
        return Ok(());
    }
    add_joined(x.name, y.name, ends_at(highs, y.elem), visitor, all)
}

fn goes_on(lines: &[bool], x: End, y: End) -> bool
    ensures { IsTrue result ↔ ((y.name ≢ x.name) × IsThird lines.now x.corner x.elem y.elem) }
{
    y.name != x.name && is_third(lines, x.corner, x.elem, y.elem)
}

/// Adds the triangles of p, q and one of these ends.
fn add_joined<V: Visitor>(
    p: Name,
    q: Name,
    ends: &[End],
    visitor: &V,
    all: &mut List<V::Kept>,
) -> Result<(), NoMemory>
    requires { p ≢ q }
    ensures { OnOk result (GrowsBy (FromSome (JoinedBy (V.keeps visitor.now) p q) ends.now) all.old all.new) }
{
    for end in ends {
        add_join(p, q, *end, visitor, all)?;
    }
    Ok(())
}

/// Adds that with this end, if its cluster is neither of them.
fn add_join<V: Visitor>(
    p: Name,
    q: Name,
    end: End,
    visitor: &V,
    all: &mut List<V::Kept>,
) -> Result<(), NoMemory>
    requires { p ≢ q }
    ensures { OnOk result (GrowsBy (JoinedBy (V.keeps visitor.now) p q end) all.old all.new) }
{
    if is_other_than(end.name, p, q) {
        visitor.visit(end.name, p, q, all)?;
    }
    Ok(())
}

fn is_other_than(r: Name, p: Name, q: Name) -> bool
    ensures { IsTrue result ↔ ((p ≢ r) × (q ≢ r)) }
{
    p != r && q != r
}
