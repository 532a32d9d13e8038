// The triples of which one cluster is the greatest.
ghost use Rattle.std.specs.Prelude.{◌≡◌, ◌<◌, AllPairs, OnOk, Some, length, slice_get};
ghost use Rattle.sk_base.specs.ClusterNames.{IsBelow};
ghost use Rattle.sk_triangles.specs.Growing.{FromSome, GrowsBy};
ghost use Rattle.sk_open_triples.specs.Avoiding.{avoiding};
ghost use Rattle.sk_open_triples.specs.Inherited.{Inherits};
ghost use Rattle.sk_open_triples.specs.OpenRows.{InheritsFrom, merges_of};

use crate::heir::{Heir, add_if_inherited};
use crate::lower_pairs::LowerPair;
use crate::order::is_among;
use sk_base::{List, Name, NoMemory};
use sk_family::Merge;
use std::alloc::Global;

/// A cluster, and the two lower ones of each triple in which it is the greatest.
#[derive(Drop)]
pub(crate) struct OpenRow {
    pub greatest: Name,
    pub lower_pairs: Vec<LowerPair>,
}

impl OpenRow {
    /// The triple at the place.
    pub fn merge(&self, place: usize) -> Merge
        requires { place < length (merges_of self.now) }
        ensures { slice_get (merges_of self.now) place ≡ Some result }
    {
        let pair = self.lower_pairs[place];
        Merge::Three(self.greatest, pair.second, pair.third)
    }

    /// Adds what the heir has instead of those of its core.
    pub fn add_inherited(
        &self,
        heir: Heir,
        gone: &[Name],
        all: &mut List<Merge>,
    ) -> Result<(), NoMemory>
        requires { AllPairs IsBelow gone.now }
        ensures { OnOk result (GrowsBy (FromSome (Inherits heir gone.now) (merges_of self.now)) all.old all.new) }
    {
        add_inherited_of(self.greatest, self.lower_pairs.as_slice(), heir, gone, all)
    }

    pub fn drop_naming(&mut self, alloc: Global, names: &[Name])
        requires { AllPairs IsBelow names.now }
        ensures { merges_of self.new ≡ avoiding names.now (merges_of self.old) }
    {
        if is_among(self.greatest, names) {
            self.lower_pairs = Vec::new(alloc);
        } else {
            self.lower_pairs.retain(|pair| !pair.has_one_of(names));
        }
    }
}

/// Adds what the heir has instead of the core's triples of these and their greater cluster.
fn add_inherited_of(
    greatest: Name,
    rest: &[LowerPair],
    heir: Heir,
    gone: &[Name],
    all: &mut List<Merge>,
) -> Result<(), NoMemory>
    requires { AllPairs IsBelow gone.now }
    ensures { OnOk result (GrowsBy (FromSome (InheritsFrom heir gone.now greatest) rest.now) all.old all.new) }
{
    for pair in rest {
        add_if_inherited(pair.below(greatest), heir, gone, all)?;
    }
    Ok(())
}
