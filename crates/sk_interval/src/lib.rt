//! Intervals on grids of binary fractions.
#![tactic(auto)]

mod grid;
mod interval;
mod laws;
mod quotient;

pub use grid::{G16, G27, G38, Grid};
pub use interval::{Cause, Iv};
pub use laws::operations_are_least_on_every_grid;
