// Some elements, as a mark at the place of each.
ghost use Rattle.std.specs.Prelude.{◌≡◌, ◌↔◌, ◌⊎◌, IsTrue, OnOk};
ghost use Rattle.sk_base.specs.declared.Elem.{Elem as Element};
ghost use Rattle.sk_triangles.specs.Marks.{IsMarked, IsThird};

use sk_base::{Elem, NoMemory};

/// Whether the element is marked.
pub fn is_marked(marks: &[bool], elem: Elem) -> bool
    ensures { IsTrue result ↔ IsMarked marks.now elem }
{
    match marks.get(elem.0 as usize) {
        Some(marked) => *marked,
        None => false,
    }
}

/// Marks one element.
pub fn mark(marks: &mut Vec<bool>, elem: Elem) -> Result<(), NoMemory>
    ensures { OnOk result ((e : Element) → IsMarked marks.new.items e ↔ (IsMarked marks.old.items e ⊎ (e ≡ elem))) }
{
    let at = elem.0 as usize;
    while marks.len() <= at {
        marks.push(false)?;
    }
    marks[at] = true;
    Ok(())
}

/// Whether c can be the third corner of a triangle, beside a and b. The lines are marked.
pub fn is_third(lines: &[bool], a: Elem, b: Elem, c: Elem) -> bool
    ensures { IsTrue result ↔ IsThird lines.now a b c }
{
    c != a && c != b && !(is_marked(lines, a) && is_marked(lines, b) && is_marked(lines, c))
}
