//! The own sketches of a sketch's parts.
#![tactic(auto)]

mod law;
mod own_sketch;

pub use law::own_sketches;
pub use own_sketch::sketch_of_part;
