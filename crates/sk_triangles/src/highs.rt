// The ends at higher elements than the corner from which they are seen.
ghost use Rattle.std.specs.Prelude.{◌↔◌, Contains, IfOk, OnOk};
ghost use Rattle.std.specs.List.Sorted.{IsNonDecreasingBy};
ghost use Rattle.sk_triangles.specs.declared.ends.End.{End as AnyEnd};
ghost use Rattle.sk_triangles.specs.Ends.{end_number};
ghost use Rattle.sk_triangles.specs.Growing.{FromSome, GrowsBy};
ghost use Rattle.sk_triangles.specs.Ranks.{IsHigh, IsHighOf};

use crate::ends::{End, by_elem};
use crate::ranks::is_lower;
use sk_base::{List, NoMemory};
use std::alloc::Global;

/// Those of these ends that are at a higher element than their corner, sorted by elements.
pub(crate) fn highs_of(alloc: Global, counts: &[usize], ends: &[End]) -> Result<Vec<End>, NoMemory>
    ensures same { IfOk result (λ highs. (x : AnyEnd) → Contains highs.items x ↔ (Contains ends.now x × IsHigh counts.now x)) }
    ensures sorted { IfOk result (λ highs. IsNonDecreasingBy end_number highs.items) }
{
    let mut highs = List::new(alloc);
    add_highs(counts, ends, &mut highs)?;
    by_elem(alloc, highs.as_slice())
}

/// Adds them.
fn add_highs(counts: &[usize], ends: &[End], highs: &mut List<End>) -> Result<(), NoMemory>
    ensures { OnOk result (GrowsBy (FromSome (IsHighOf counts.now) ends.now) highs.old highs.new) }
{
    for end in ends {
        add_if_high(counts, *end, highs)?;
    }
    Ok(())
}

fn add_if_high(counts: &[usize], end: End, highs: &mut List<End>) -> Result<(), NoMemory>
    ensures { OnOk result (GrowsBy (IsHighOf counts.now end) highs.old highs.new) }
{
    if is_lower(counts, end.corner, end.elem) {
        highs.push(end)?;
    }
    Ok(())
}
