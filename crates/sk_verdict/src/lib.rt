//! The parts of a family, and the verdict on them.
#![tactic(auto)]

mod judgement;
mod law;
mod named;
mod part;
mod store;

pub use judgement::{Judgement, Verdict, judge};
pub use law::one_judgement;
pub use part::Part;
