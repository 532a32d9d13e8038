// Names in order, and items in order of number.
ghost use Rattle.std.specs.Prelude.{◌↔◌, IfOk, Contains, AllPairs};
ghost use Rattle.sk_base.specs.declared.Name.{Name as AnyName};
ghost use Rattle.sk_base.specs.ClusterNames.{IsBelow};
ghost use Rattle.sk_base.specs.Rising.{IsRising};
ghost use Rattle.sk_family.specs.Joining.{HaveTheSame};

use sk_base::{List, Name, NoMemory, Numbered};
use std::alloc::Global;

/// These names in order, each once.
pub fn names_in_order(alloc: Global, names: &[Name]) -> Result<Vec<Name>, NoMemory>
    ensures same { IfOk result (λ ordered. (n : AnyName) → Contains ordered.items n ↔ Contains names.now n) }
    ensures in_order { IfOk result (λ ordered. AllPairs IsBelow ordered.items) }
{
    let mut ordered = Vec::from_slice(alloc, names)?;
    ordered.sort()?;
    ordered.dedup();
    Ok(ordered)
}

/// These items in order of number, each once.
pub(crate) fn in_order<T: Numbered>(alloc: Global, items: Vec<T>) -> Result<List<T>, NoMemory>
    ensures same { IfOk result (λ ordered. HaveTheSame items.items ordered) }
    ensures rises { IfOk result (λ ordered. IsRising T.number ordered) }
{
    let mut ordered = items;
    ordered.sort_by_key(|item| item.number())?;
    ordered.dedup_by_key(|item| item.number());
    let mut list = List::new(alloc);
    list.extend(ordered.as_slice())?;
    Ok(list)
}
