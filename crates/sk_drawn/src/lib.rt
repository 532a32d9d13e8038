//! What is drawn between two elements, as the constraint that says it, and how firmly that holds.
#![tactic(auto)]

mod fraction;
mod grade;
mod law;
mod ratio;
mod root;
mod values;

pub use grade::{Firm, firm_between, firmness, reach_of};
pub use law::one_value;
pub use values::{drawn_size, drawn_value, shape_in};
