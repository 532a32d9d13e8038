// How many clusters hold each element, and which of two elements is the higher one.
ghost use Rattle.std.specs.Prelude.{◌≡◌, ◌↔◌, IsTrue};
ghost use Rattle.sk_triangles.specs.Ranks.{IsLower, count_in};

use crate::ends::End;
use sk_base::{Elem, NoMemory};
use std::alloc::Global;

/// How many clusters hold each element, where these are all ends of them.
pub fn counts_of(alloc: Global, ends: &[End]) -> Result<Vec<usize>, NoMemory> {
    let mut counts = Vec::new(alloc);
    for end in ends {
        count_own(&mut counts, *end)?;
    }
    Ok(counts)
}

/// Counts the end that an element is to itself: each cluster with the element has one.
fn count_own(counts: &mut Vec<usize>, end: End) -> Result<(), NoMemory> {
    if end.corner == end.elem {
        count_one(counts, end.elem)?;
    }
    Ok(())
}

fn count_one(counts: &mut Vec<usize>, elem: Elem) -> Result<(), NoMemory> {
    let at = elem.0 as usize;
    while counts.len() <= at {
        counts.push(0)?;
    }
    counts[at] = counts[at].saturating_add(1);
    Ok(())
}

/// Whether fewer clusters hold e, or as many and its number is less.
pub(crate) fn is_lower(counts: &[usize], e: Elem, c: Elem) -> bool
    ensures { IsTrue result ↔ IsLower counts.now e c }
{
    let fewer = count_of(counts, e);
    let more = count_of(counts, c);
    fewer < more || (fewer == more && e.0 < c.0)
}

/// How many clusters hold the element, as was counted.
fn count_of(counts: &[usize], elem: Elem) -> usize
    ensures { result ≡ count_in counts.now elem }
{
    match counts.get(elem.0 as usize) {
        Some(count) => *count,
        None => 0,
    }
}
