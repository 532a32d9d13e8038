//! Trees of triangle merges, the plans that tell them, and what the drawing chooses at their steps.
#![tactic(auto)]

mod choice;
mod joined;
mod law;
mod numbers;
mod order;
mod plan;
mod tree;

pub use choice::choice_of;
pub use joined::build;
pub use law::{fitting_choice, numbers_without_blocks, one_tree};
pub use numbers::numbers_of;
pub use order::in_order;
pub use plan::{Choice, Plan, PlanStep, last_name};
pub use tree::{Joint, Tree, height, leaf_tree, leaves, steps};
