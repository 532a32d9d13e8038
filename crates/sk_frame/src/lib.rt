//! Where the frame of a plan's base lies in the drawing, and the motion that takes it there.
#![tactic(auto)]

mod bases;
mod crossings;
mod frames;
mod scaling;
mod taking;

pub use bases::base_of;
pub use frames::{Frame, frame_of};
pub use taking::frame_motion;
