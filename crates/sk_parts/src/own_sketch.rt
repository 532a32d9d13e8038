// The own sketch of a part.
ghost use Rattle.std.specs.Prelude.{◌≡◌, filter, IfOk};
ghost use Rattle.std.specs.List.{list_all};
ghost use Rattle.sk_base.specs.Numbering.{is_elem};
ghost use Rattle.sk_base.specs.declared.Pin.{Pin as ThePin};
ghost use Rattle.sk_base.specs.SoundSketch.{IsSoundSketch};
ghost use Rattle.sk_parts.specs.OwnSketch.{has_element, lies_among, part_sketch};

use sk_base::{Constraint, Elem, Element, List, NoMemory, Pin, Rule, Sketch, copy_constraint};
use std::alloc::Global;

/// The own sketch of the part that has these elements: the elements of the sketch that it has, and the
/// constraints that name these alone, in their order, with their numbers, names and places.
pub fn sketch_of_part(alloc: Global, s: &Sketch, elements: &[Elem]) -> Result<Sketch, NoMemory>
    requires { IsSoundSketch s.now }
    ensures exact { IfOk result (λ own. own ≡ part_sketch s.now elements.now) }
    ensures sound { IfOk result IsSoundSketch }
{
    let own_elements = elements_in(alloc, elements, s.elements.as_slice())?;
    let constraints = constraints_among(alloc, elements, s.constraints.as_slice())?;
    Ok(Sketch {
        elements: own_elements,
        constraints,
    })
}

/// The elements whose numbers are among these.
fn elements_in(
    alloc: Global,
    numbers: &[Elem],
    elements: &[Element],
) -> Result<List<Element>, NoMemory>
    ensures { IfOk result (λ own. own ≡ filter (has_element numbers.now) elements.now) }
{
    let mut own = List::new(alloc);
    for element in elements {
        if element.number.is_among(numbers) {
            own.push(*element)?;
        }
    }
    Ok(own)
}

/// The constraints that name these elements alone.
fn constraints_among(
    alloc: Global,
    numbers: &[Elem],
    constraints: &[Constraint],
) -> Result<List<Constraint>, NoMemory>
    ensures { IfOk result (λ own. own ≡ filter (lies_among numbers.now) constraints.now) }
{
    let mut own = List::new(alloc);
    for constraint in constraints {
        if lies_among(numbers, constraint) {
            own.push(copy_constraint(alloc, constraint)?)?;
        }
    }
    Ok(own)
}

/// Whether the constraint names these elements alone.
fn lies_among(numbers: &[Elem], constraint: &Constraint) -> bool
    ensures { result ≡ lies_among numbers.now constraint.now }
{
    match &constraint.rule {
        Rule::Distance { u, v, .. }
        | Rule::On { u, v }
        | Rule::Tangent { u, v }
        | Rule::Outside { u, v }
        | Rule::Inside { u, v } => u.is_among(numbers) && v.is_among(numbers),
        Rule::Angle { l, m, .. } => l.is_among(numbers) && m.is_among(numbers),
        Rule::Block { pins } => has_pins(numbers, pins.as_slice()),
    }
}

/// Whether all pins are at these elements.
fn has_pins(numbers: &[Elem], pins: &[Pin]) -> bool
    ensures { result ≡ list_all (λ (pin : ThePin). is_elem numbers.now pin.elem) pins.now }
{
    pins.iter().all(|pin| pin.elem.is_among(numbers))
}
