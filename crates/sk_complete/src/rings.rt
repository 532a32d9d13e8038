// Rings of lines and parts, in which an angle is told more than once.
ghost use Rattle.std.specs.Prelude.{◌≡◌, ◌≢◌, ◌↔◌, ◌<◌, IfOk, IsTrue, Contains};
ghost use Rattle.sk_base.specs.declared.Elem.{Elem as Element};
ghost use Rattle.sk_base.specs.SoundGraph.{IsSoundGraph};
ghost use Rattle.sk_verdict.specs.Ordering.{AreInOrder};
ghost use Rattle.sk_close_by_angles.specs.Classes.{class_of as class_in};
ghost use Rattle.sk_complete.specs.Rings.{IsRing};

use sk_base::{Elem, Graph, NoMemory};
use sk_close_by_angles::{class_of, lines_alone, tie_all};
use sk_verdict::Part;
use std::alloc::Global;

/// Whether the parts, in order, tell an angle twice: two lines of one part are tied by the other parts.
pub(crate) fn has_ring(alloc: Global, graph: &Graph, parts: &[Part]) -> Result<bool, NoMemory>
    requires { AreInOrder parts.now }
    ensures { IfOk result (λ ring. IsTrue ring ↔ IsRing graph.now parts.now) }
{
    let mut classes = lines_alone(alloc, graph.nodes.as_slice())?;
    for part in parts {
        if has_two_alike(classes.as_slice(), part.elements.as_slice()) {
            return Ok(true);
        }
        tie_all(classes.as_mut_slice(), part.elements.as_slice());
    }
    Ok(false)
}

/// Whether two of the elements are lines of one class.
fn has_two_alike(classes: &[usize], elements: &[Elem]) -> bool
    ensures { IsTrue result ↔ ((d : Element) × (e : Element) × Contains elements.now d × Contains elements.now e × (d ≢ e) × (0 < class_in classes.now d) × (class_in classes.now d ≡ class_in classes.now e)) }
{
    elements
        .iter()
        .any(|elem| has_alike(classes, elements, *elem))
}

/// Whether another of the elements is a line of this one's class.
fn has_alike(classes: &[usize], elements: &[Elem], elem: Elem) -> bool
    ensures { IsTrue result ↔ ((e : Element) × Contains elements.now e × (elem ≢ e) × (0 < class_in classes.now elem) × (class_in classes.now elem ≡ class_in classes.now e)) }
{
    class_of(classes, elem) > 0 && elements.iter().any(|other| is_alike(classes, elem, *other))
}

/// Whether the two are different lines of one class.
fn is_alike(classes: &[usize], one: Elem, other: Elem) -> bool
    ensures { IsTrue result ↔ ((one ≢ other) × (0 < class_in classes.now one) × (class_in classes.now one ≡ class_in classes.now other)) }
{
    one.0 != other.0
        && class_of(classes, one) > 0
        && class_of(classes, one) == class_of(classes, other)
}
