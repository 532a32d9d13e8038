// How places are told.
use crate::settling::PlaceBy;

/// In which frame places are told.
#[derive(Clone, Copy, PartialEq, Eq, Debug)]
pub enum FrameBy {
    /// That of the base, the constraint that no step moves.
    Base,
    /// That of the drawing: the base's frame is taken to where it is drawn.
    Drawn,
}

/// What the places of elements are while a plan is placed, and in which frame they are told.
#[derive(Clone, Copy, PartialEq, Eq, Debug)]
pub struct Layout {
    pub by: PlaceBy,
    pub frame: FrameBy,
}
