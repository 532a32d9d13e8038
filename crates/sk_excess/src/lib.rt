//! Which constraints of an over-constrained cluster a minimal choice leaves out.
#![tactic(auto)]

mod kept;
mod law;
mod thinning;

pub use kept::sketch_of_kept;
pub use law::{kept_sketches, minimal_choice, one_cluster, one_list_left_out};
pub use thinning::left_out;
