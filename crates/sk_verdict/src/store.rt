// Parts in order of their elements.
ghost use Rattle.std.specs.Prelude.{◌≡◌, ◌≢◌, ◌↔◌, ◌⊎◌, ◌≤◌, length, OnOk, Contains, take, drop};
ghost use Rattle.sk_verdict.specs.declared.part.Part.{Part as ThePart};
ghost use Rattle.sk_verdict.specs.Ordering.{AreInOrder};
ghost use Rattle.sk_base.specs.ElementOrder.{ElementsBefore};

use crate::part::Part;
use sk_base::{Elem, List, NoMemory, comes_before};

/// Puts a part at its place. No other part has its elements.
pub(crate) fn put(parts: &mut List<Part>, part: Part) -> Result<(), NoMemory>
    requires in_order { AreInOrder parts.old }
    requires new { (p : ThePart) → Contains parts.old p → p.elements ≢ part.elements }
    ensures in_order { OnOk result (AreInOrder parts.new) }
    ensures has { OnOk result ((p : ThePart) → Contains parts.new p ↔ ((part ≡ p) ⊎ Contains parts.old p)) }
{
    let place = count_before(parts.as_slice(), part.elements.as_slice());
    parts.insert(place, part)
}

/// How many parts come before one of these elements: its place among them.
fn count_before(parts: &[Part], elements: &[Elem]) -> usize
    requires { AreInOrder parts.now }
    ensures within { result ≤ length parts.now }
    ensures before { (p : ThePart) → Contains (take result parts.now) p → ElementsBefore p.elements elements.now }
    ensures after { (p : ThePart) → Contains (drop result parts.now) p → ¬ ElementsBefore p.elements elements.now }
{
    parts.partition_point(|part| comes_before(part.elements.as_slice(), elements))
}
