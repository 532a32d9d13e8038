// Lists of constraints, by their numbers.
ghost use Rattle.std.specs.Prelude.{◌≡◌, ◌↔◌, Contains, IfOk, IsTrue, filter};
ghost use Rattle.sk_spare.specs.Numbers.{is_kept, is_number};

use sk_base::{ConId, List, NoMemory};
use std::alloc::Global;

/// Whether the number is one of these.
pub fn is_among(numbers: &[ConId], number: ConId) -> bool
    ensures computed { result ≡ is_number numbers.now number }
    ensures decides { IsTrue result ↔ Contains numbers.now number }
{
    numbers.contains(&number)
}

/// Whether the number is none of those that are left out.
pub fn is_kept(left: &[ConId], number: ConId) -> bool
    ensures { result ≡ is_kept left.now number }
{
    !is_among(left, number)
}

/// The same numbers once more.
pub fn copy_of(alloc: Global, numbers: &[ConId]) -> Result<List<ConId>, NoMemory>
    ensures { IfOk result (λ copy. copy ≡ numbers.now) }
{
    let mut copy = List::new(alloc);
    copy.extend(numbers)?;
    Ok(copy)
}

/// Those of the numbers that are none of those that are left out.
pub fn others_of(alloc: Global, numbers: &[ConId], left: &[ConId]) -> Result<List<ConId>, NoMemory>
    ensures { IfOk result (λ kept. kept ≡ filter (is_kept left.now) numbers.now) }
{
    let mut kept = List::new(alloc);
    for number in numbers {
        if is_kept(left, *number) {
            kept.push(*number)?;
        }
    }
    Ok(kept)
}
