// Which elements a constraint names, as a mark at the place of each.
ghost use Rattle.std.specs.Prelude.{◌≢◌, ◌↔◌, All, IfOk, IsTrue, OnOk};
ghost use Rattle.sk_base.specs.declared.Elem.{Elem as Element};
ghost use Rattle.sk_base.specs.declared.Edge.{Edge as AnEdge};
ghost use Rattle.sk_base.specs.declared.Pin.{Pin as APin};
ghost use Rattle.sk_triangles.specs.Marks.{IsMarked};
ghost use Rattle.sk_verdict.specs.Leaving.{LeavesOut};
ghost use Rattle.sk_verdict.specs.Parts.{EndsElsewhere, HasNoPin, IsNamedByNone};

use sk_base::{Block, Edge, Elem, Graph, NoMemory, Pin};
use sk_triangles::{is_marked, mark};
use std::alloc::Global;

/// A mark for each element that a constraint names, or a block.
pub(crate) fn named_in(alloc: Global, graph: &Graph) -> Result<Vec<bool>, NoMemory>
    ensures { IfOk result (λ marks. (e : Element) → (¬ IsMarked marks.items e) ↔ IsNamedByNone graph.now e) }
{
    let mut marks = Vec::new(alloc);
    mark_ends(&mut marks, graph.edges.as_slice())?;
    mark_pinned(&mut marks, graph.blocks.as_slice())?;
    Ok(marks)
}

/// Whether the element isn't marked.
pub(crate) fn is_unmarked(marks: &[bool], elem: Elem) -> bool
    ensures { IsTrue result ↔ ¬ IsMarked marks.now elem }
{
    !is_marked(marks, elem)
}

/// Marks the ends of these constraints.
fn mark_ends(marks: &mut Vec<bool>, edges: &[Edge]) -> Result<(), NoMemory>
    ensures { OnOk result (LeavesOut (λ e. All (λ (d : AnEdge). EndsElsewhere d e) edges.now) marks.old.items marks.new.items) }
{
    for edge in edges {
        mark_both(marks, edge)?;
    }
    Ok(())
}

/// Marks both ends.
fn mark_both(marks: &mut Vec<bool>, edge: &Edge) -> Result<(), NoMemory>
    ensures { OnOk result (LeavesOut (EndsElsewhere edge.now) marks.old.items marks.new.items) }
{
    mark(marks, edge.u)?;
    mark(marks, edge.v)
}

/// Marks the elements of the pins of these blocks.
fn mark_pinned(marks: &mut Vec<bool>, blocks: &[Block]) -> Result<(), NoMemory>
    ensures { OnOk result (LeavesOut (λ e. All (HasNoPin e) blocks.now) marks.old.items marks.new.items) }
{
    for block in blocks {
        mark_pins(marks, block.pins.as_slice())?;
    }
    Ok(())
}

/// Marks the elements of these pins.
fn mark_pins(marks: &mut Vec<bool>, pins: &[Pin]) -> Result<(), NoMemory>
    ensures { OnOk result (LeavesOut (λ e. All (λ (pin : APin). pin.elem ≢ e) pins.now) marks.old.items marks.new.items) }
{
    for pin in pins {
        mark(marks, pin.elem)?;
    }
    Ok(())
}
