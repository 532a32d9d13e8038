// Edits that stand.
ghost use Rattle.std.specs.Prelude.{◌≡◌, ◌<◌, ◌≤◌, Contains, IfOk};
ghost use Rattle.sk_base.specs.SoundSketch.{IsSoundSketch};
ghost use Rattle.sk_edits.specs.Making.{CanMake, HasConstraint};
ghost use Rattle.sk_session.specs.Past.{edit_of, Stood};
ghost use Rattle.sk_session.specs.Standing.{element_after, constraint_after, element_before, constraint_before};

use sk_base::{ConId, Constraint, Element, NoMemory, Ratio, Sketch, Um, copy_constraint};
use sk_edits::{Edit, get};
use std::alloc::Global;

/// An edit that stands. What it took away or changed is kept as it stood before, so that an undo replays
/// nothing.
#[derive(Drop)]
pub(crate) enum Done {
    Element(Element),
    Constraint(Constraint),
    Dropped(Constraint),
    Length(Um, Constraint),
    Turned(Ratio, Constraint),
    Erased(Element),
}

impl Done {
    /// The edit with what it takes away or changes in the sketch.
    pub(crate) fn of(alloc: Global, sketch: &Sketch, edit: Edit) -> Result<Done, NoMemory>
        requires { CanMake edit sketch.now }
        ensures edit { IfOk result (λ done. edit_of done ≡ edit) }
        ensures stood { IfOk result (λ done. Stood done sketch.now) }
    {
        match edit {
            Edit::Element(element) => Ok(Done::Element(element)),
            Edit::Constraint(constraint) => Ok(Done::Constraint(constraint)),
            Edit::Dropped(number) => Ok(Done::Dropped(copy_of(alloc, sketch, number)?)),
            Edit::Length(number, len) => Ok(Done::Length(len, copy_of(alloc, sketch, number)?)),
            Edit::Turned(number, ratio) => Ok(Done::Turned(ratio, copy_of(alloc, sketch, number)?)),
            Edit::Erased(number) => Ok(Done::Erased(*get(sketch.elements.as_slice(), number.0))),
        }
    }

    /// The next numbers behind the edit.
    pub(crate) fn element_after(&self, next: u32) -> u32
        requires { next ≤ 1000001 }
        ensures { result ≡ element_after (edit_of self.now) next }
    {
        match self {
            Done::Element(_) => next + 1,
            _ => next,
        }
    }

    pub(crate) fn constraint_after(&self, next: u32) -> u32
        requires { next ≤ 1000001 }
        ensures { result ≡ constraint_after (edit_of self.now) next }
    {
        match self {
            Done::Constraint(_) => next + 1,
            _ => next,
        }
    }

    /// The next numbers before the edit.
    pub(crate) fn element_before(&self, next: u32) -> u32
        requires { 0 < next }
        ensures { result ≡ element_before (edit_of self.now) next }
    {
        match self {
            Done::Element(_) => next - 1,
            _ => next,
        }
    }

    pub(crate) fn constraint_before(&self, next: u32) -> u32
        requires { 0 < next }
        ensures { result ≡ constraint_before (edit_of self.now) next }
    {
        match self {
            Done::Constraint(_) => next - 1,
            _ => next,
        }
    }
}

/// The constraint of the number once more.
fn copy_of(alloc: Global, sketch: &Sketch, number: ConId) -> Result<Constraint, NoMemory>
    requires sound { IsSoundSketch sketch.now }
    requires some { HasConstraint sketch.now number }
    ensures { IfOk result (λ c. Contains sketch.now.constraints c × (c.number ≡ number)) }
{
    copy_constraint(alloc, get(sketch.constraints.as_slice(), number.0))
}
