// Which elements are lines.
ghost use Rattle.std.specs.Prelude.{◌≡◌, ◌↔◌, ◌⊎◌, Contains, IfOk, OnOk};
ghost use Rattle.sk_base.specs.declared.Elem.{Elem as Element};
ghost use Rattle.sk_base.specs.declared.Kind.TheVariants.{Line};
ghost use Rattle.sk_triangles.specs.Marks.{IsMarked};

use crate::marks::mark;
use sk_base::{Kind, NoMemory, Node};
use std::alloc::Global;

/// Whether each element is a line.
pub fn lines_of(alloc: Global, nodes: &[Node]) -> Result<Vec<bool>, NoMemory>
    ensures { IfOk result (λ lines. (e : Element) → IsMarked lines.items e ↔ Contains nodes.now (record { elem = e; kind = Line })) }
{
    let mut lines = Vec::new(alloc);
    for node in nodes {
        mark_if_line(&mut lines, *node)?;
    }
    Ok(lines)
}

/// Marks the element of the node if it is a line.
fn mark_if_line(lines: &mut Vec<bool>, node: Node) -> Result<(), NoMemory>
    ensures { OnOk result ((e : Element) → IsMarked lines.new.items e ↔ (IsMarked lines.old.items e ⊎ (node ≡ record { elem = e; kind = Line }))) }
{
    match node.kind {
        Kind::Line => mark(lines, node.elem),
        Kind::Point => Ok(()),
    }
}
