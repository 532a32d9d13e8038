//! The datum sketch: two axes at a right angle, and points that are measured from both.
#![tactic(auto)]

mod constraints;
mod datum;
mod elements;
mod law;
mod lengths;

pub use datum::datum_sketch;
pub use law::datum_sketch_is_sound;
