//! The constraints that a sketch can spare.
#![tactic(auto)]

mod halves;
mod law;
mod numbers;
mod spares;
mod text;
mod trial;

pub use halves::{are_too_few, no_graph};
pub use law::{one_list_of_spares, trials};
pub use numbers::{copy_of, is_among, is_kept, others_of};
pub use spares::spare;
pub use text::spare_text;
pub use trial::{normal_family, some_holds, with_these};
