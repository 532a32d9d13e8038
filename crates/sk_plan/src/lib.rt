//! Construction plans, and what they tell of the drawing.
#![tactic(auto)]

mod by_order;
mod error;
mod judging;
mod law;
mod making;
mod planned_tree;
mod step;

pub use by_order::{Planned, planned_by};
pub use error::PlanError;
pub use judging::judgement_of;
pub use law::{exact, joined_once, legal_plan, one_plan, sparse_parts, tight_sets, weights_among};
pub use making::plan_of;
pub use planned_tree::plan_tree;
