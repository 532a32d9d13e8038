// Merges in order, and names that stand in order.
ghost use Rattle.std.specs.Prelude.{◌≡◌, ◌↔◌, AllPairs, Contains, IfOk};
ghost use Rattle.sk_base.specs.ClusterNames.{IsBelow, is_named};
ghost use Rattle.sk_family.specs.declared.Merge.{Merge as AnyMerge};
ghost use Rattle.sk_open_triples.specs.Avoiding.{IsTriple};
ghost use Rattle.sk_open_triples.specs.MergeOrder.{ComesFirst};

use sk_base::{Name, NoMemory};
use sk_family::Merge;
use std::alloc::Global;

/// These merges in order, each once.
pub(crate) fn in_order(alloc: Global, merges: &[Merge]) -> Result<Vec<Merge>, NoMemory>
    ensures same { IfOk result (λ ordered. (m : AnyMerge) → Contains ordered.items m ↔ Contains merges.now m) }
    ensures in_order { IfOk result (λ ordered. ((m : AnyMerge) → Contains merges.now m → IsTriple m) → AllPairs ComesFirst ordered.items) }
{
    let mut ordered = Vec::from_slice(alloc, merges)?;
    ordered.sort()?;
    ordered.dedup();
    Ok(ordered)
}

/// So many names are looked through one by one.
const FEW: usize = 8;

/// Whether the name is one of these, which stand in order.
pub(crate) fn is_among(name: Name, names: &[Name]) -> bool
    requires { AllPairs IsBelow names.now }
    ensures { result ≡ is_named names.now name }
{
    if names.len() <= FEW {
        name.is_among(names)
    } else {
        names.binary_search(&name).is_ok()
    }
}
