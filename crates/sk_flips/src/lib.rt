//! A plan with the choices of some of its steps turned over, and the lines that ask for it.
#![tactic(auto)]

mod flip;
mod flip_line;
mod flip_reading;
mod law;

pub use flip::{FlipError, flip_plan};
pub use flip_reading::{one_reading_of_flips, read_flips};
pub use law::turned_plan_is_legal;
