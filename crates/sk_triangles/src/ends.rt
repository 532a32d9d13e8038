// The elements that clusters have beside a corner, sorted for look-ups.
ghost use Rattle.std.specs.Prelude.{◌≡◌, ◌↔◌, ◌<◌, ◌≤◌, Contains, IfOk, OnOk, length};
ghost use Rattle.std.specs.List.Sorted.{IsNonDecreasingBy, IsPartitionPoint};
ghost use Rattle.sk_triangles.specs.Growing.{GrowsBy};
ghost use Rattle.sk_triangles.specs.declared.ends.End.{End as AnyEnd};
ghost use Rattle.sk_triangles.specs.Ends.{EndsAmong, corner_number, end_number};

use sk_base::{Elem, List, Name, NoMemory};
use std::alloc::Global;

/// An element of the cluster of that name, seen from a corner of it.
#[derive(Clone, Copy)]
pub struct End {
    pub corner: Elem,
    pub elem: Elem,
    pub name: Name,
}

/// Adds the ends of the cluster of that name at these elements, seen from the corner.
pub fn add_ends(
    name: Name,
    elements: &[Elem],
    corner: Elem,
    ends: &mut List<End>,
) -> Result<(), NoMemory>
    ensures { OnOk result (GrowsBy (EndsAmong name corner elements.now) ends.old ends.new) }
{
    for elem in elements {
        ends.push(End {
            corner,
            elem: *elem,
            name,
        })?;
    }
    Ok(())
}

/// These ends, sorted by their corners.
pub fn by_corner(alloc: Global, ends: &[End]) -> Result<Vec<End>, NoMemory>
    ensures same { IfOk result (λ sorted. (x : AnyEnd) → Contains sorted.items x ↔ Contains ends.now x) }
    ensures sorted { IfOk result (λ sorted. IsNonDecreasingBy corner_number sorted.items) }
{
    let mut sorted = Vec::from_slice(alloc, ends)?;
    sorted.sort_unstable_by_key(|end| end.corner.0);
    Ok(sorted)
}

/// These ends, sorted by their elements.
pub fn by_elem(alloc: Global, ends: &[End]) -> Result<Vec<End>, NoMemory>
    ensures same { IfOk result (λ sorted. (x : AnyEnd) → Contains sorted.items x ↔ Contains ends.now x) }
    ensures sorted { IfOk result (λ sorted. IsNonDecreasingBy end_number sorted.items) }
{
    let mut sorted = Vec::from_slice(alloc, ends)?;
    sorted.sort_unstable_by_key(|end| end.elem.0);
    Ok(sorted)
}

/// How many of these ends, sorted by their corners, stand before the first of a later corner.
pub fn count_up_to(ends: &[End], corner: Elem) -> usize
    requires { IsNonDecreasingBy corner_number ends.now }
    ensures within { result ≤ length ends.now }
    ensures place { IsPartitionPoint (λ (x : AnyEnd). x.corner.0 ≤ corner.0) (λ (x : AnyEnd). corner.0 < x.corner.0) ends.now result }
{
    ends.partition_point(|end| end.corner.0 <= corner.0)
}

/// Those of these ends, sorted by their elements, that have this one.
pub fn ends_at(ends: &[End], elem: Elem) -> &[End]
    requires { IsNonDecreasingBy end_number ends.now }
    ensures { (x : AnyEnd) → Contains result.now x ↔ (Contains ends.now x × (x.elem ≡ elem)) }
{
    let first = ends.partition_point(|end| end.elem.0 < elem.0);
    let past = ends.partition_point(|end| end.elem.0 <= elem.0);
    &ends[first..past]
}

/// Those of these ends, sorted by their corners, that are seen from this one.
pub fn seen_from(ends: &[End], corner: Elem) -> &[End]
    requires { IsNonDecreasingBy corner_number ends.now }
    ensures { (x : AnyEnd) → Contains result.now x ↔ (Contains ends.now x × (x.corner ≡ corner)) }
{
    let first = ends.partition_point(|end| end.corner.0 < corner.0);
    let past = ends.partition_point(|end| end.corner.0 <= corner.0);
    &ends[first..past]
}
