//! The boxes that a plan gives to the elements of a drawing.
#![tactic(auto)]

mod boxes;
mod carry;
mod fault;
mod joining;
mod law;
mod layout;
mod live;
mod lookup;
mod moving;
mod placing;
mod rounding;
mod setting;
mod settling;

pub use boxes::{BoxAt, Boxes};
pub use fault::{BoxFault, MoveError, Phase, PlaceError, StepFault};
pub use law::one_placing;
pub use layout::{FrameBy, Layout};
pub use moving::moved;
pub use placing::place;
pub use rounding::round;
pub use settling::PlaceBy;
