// Which elements a body joins to the base.
use sk_base::{Elem, NoMemory};
use sk_rigid::Bodies;
use sk_triangles::is_marked;
use std::alloc::Global;

/// By key of a body the element that it shares with the base, whose elements are marked. No body but the base's own shares
/// two.
pub(crate) fn hinges_of(
    alloc: Global,
    bodies: &Bodies,
    inside: &[bool],
) -> Result<Vec<Option<Elem>>, NoMemory> {
    let mut hinges = Vec::new(alloc);
    for key in 0..bodies.len() {
        hinges.push(first_inside(bodies.elements(key), inside))?;
    }
    Ok(hinges)
}

fn first_inside(elements: &[Elem], inside: &[bool]) -> Option<Elem> {
    for elem in elements {
        if is_marked(inside, *elem) {
            return Some(*elem);
        }
    }
    None
}

/// The least element of the base that a body with this element outside shares with it.
pub(crate) fn hinge_at(bodies: &Bodies, hinges: &[Option<Elem>], outer: Elem) -> Option<Elem> {
    let mut least = None;
    for key in bodies.holders(outer) {
        if let Some(Some(shared)) = hinges.get(*key) {
            least = Some(lesser(least, *shared));
        }
    }
    least
}

fn lesser(least: Option<Elem>, elem: Elem) -> Elem {
    match least {
        Some(other) if other.0 < elem.0 => other,
        _ => elem,
    }
}
