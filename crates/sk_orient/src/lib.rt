//! On which side, in which sense and in which turn things lie, as drawn and as placed: exact signs of
//! whole numbers.
#![tactic(auto)]

mod drawn;
mod placed;
mod vector;

pub use drawn::{advance_drawn, direction, place, sense_drawn, side_drawn, turn_drawn};
pub use placed::{advance_placed, sense_placed, side_placed, turn_placed};
pub use vector::{Vector, cross, dot, way};
