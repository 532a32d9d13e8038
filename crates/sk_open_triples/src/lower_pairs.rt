// The two lower clusters of a triple.
ghost use Rattle.std.specs.Prelude.{◌≡◌, ◌↔◌, ◌||◌, AllPairs, Contains, IfOk, OnOk};
ghost use Rattle.sk_base.specs.ClusterNames.{IsBelow, is_named};
ghost use Rattle.sk_triangles.specs.Growing.{FromSome, GrowsBy};
ghost use Rattle.sk_family.specs.declared.Merge.{Merge as AnyMerge};
ghost use Rattle.sk_open_triples.specs.declared.lower_pairs.LowerPair.{LowerPair as AnyPair};
ghost use Rattle.sk_open_triples.specs.Avoiding.{IsTriple};
ghost use Rattle.sk_open_triples.specs.OpenRows.{AreBefore, HasLowerPair, triple_of};

use crate::order::is_among;
use sk_base::{List, Name, NoMemory};
use sk_family::Merge;
use std::alloc::Global;

/// The two clusters of a triple that are below its greatest one.
#[derive(Clone, Copy, PartialEq, Eq, PartialOrd, Ord)]
pub(crate) struct LowerPair {
    pub second: Name,
    pub third: Name,
}

impl LowerPair {
    /// The triple of these and their greater cluster.
    pub fn below(self, greatest: Name) -> Merge
        ensures { result ≡ triple_of greatest self }
    {
        Merge::Three(greatest, self.second, self.third)
    }

    pub fn has_one_of(self, names: &[Name]) -> bool
        requires { AllPairs IsBelow names.now }
        ensures { result ≡ (is_named names.now self.second || is_named names.now self.third) }
    {
        is_among(self.second, names) || is_among(self.third, names)
    }
}

/// Adds the two lower clusters of each of these triples.
pub(crate) fn add_lower_pairs_of(found: &[Merge], all: &mut List<LowerPair>) -> Result<(), NoMemory>
    requires { (m : AnyMerge) → Contains found.now m → IsTriple m }
    ensures { OnOk result (GrowsBy (FromSome HasLowerPair found.now) all.old all.new) }
{
    for merge in found {
        all.push(lower_pair_of(*merge))?;
    }
    Ok(())
}

fn lower_pair_of(merge: Merge) -> LowerPair
    requires { IsTriple merge }
    ensures { HasLowerPair merge result }
{
    match merge {
        Merge::Two(_, _) => unreachable!(),
        Merge::Three(_, second, third) => LowerPair { second, third },
    }
}

/// These in order, each once.
pub(crate) fn lower_pairs_in_order(
    alloc: Global,
    pairs: &[LowerPair],
) -> Result<Vec<LowerPair>, NoMemory>
    ensures same { IfOk result (λ ordered. (p : AnyPair) → Contains ordered.items p ↔ Contains pairs.now p) }
    ensures in_order { IfOk result (λ ordered. AllPairs AreBefore ordered.items) }
{
    let mut ordered = Vec::from_slice(alloc, pairs)?;
    ordered.sort()?;
    ordered.dedup();
    Ok(ordered)
}
