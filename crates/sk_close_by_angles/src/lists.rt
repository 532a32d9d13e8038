// The lists of elements of clusters, in order.
ghost use Rattle.std.specs.Prelude.{◌≡◌, ◌≤◌, IfOk, OnOk, insert, length};
ghost use Rattle.sk_close_by_angles.specs.DerivedText.{with_list, lists_in_order as all_in_order};

use sk_base::{Elem, List, NoMemory, comes_before};
use sk_family::Cluster;
use std::alloc::Global;

/// The lists of elements of the clusters, in order.
pub(crate) fn lists_in_order(
    alloc: Global,
    clusters: &[Cluster],
) -> Result<List<List<Elem>>, NoMemory>
    ensures { IfOk result (λ lists. lists ≡ all_in_order clusters.now) }
{
    let mut lists = List::new(alloc);
    for cluster in clusters {
        let mut copy = List::new(alloc);
        copy.extend(cluster.elements.as_slice())?;
        put_list(&mut lists, copy)?;
    }
    Ok(lists)
}

/// Puts a list at its place.
fn put_list(lists: &mut List<List<Elem>>, list: List<Elem>) -> Result<(), NoMemory>
    ensures { OnOk result (lists.new ≡ with_list lists.old list) }
{
    let place = place_in_order(lists.as_slice(), list.as_slice());
    lists.insert(place, list)
}

/// The place of the list: before the first that doesn't come before it.
fn place_in_order(lists: &[List<Elem>], list: &[Elem]) -> usize
    ensures within { result ≤ length lists.now }
    ensures place { insert lists.now result list.now ≡ with_list lists.now list.now }
{
    for (place, other) in lists.iter().enumerate() {
        if !comes_before(other.as_slice(), list) {
            return place;
        }
    }
    lists.len()
}
