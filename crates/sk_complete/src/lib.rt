//! The dimensions that an open sketch lacks, and no more, each with the value that the drawing has.
#![tactic(auto)]

mod choice;
mod completion;
mod draft;
mod hindrance;
mod hinges;
mod law;
mod pair;
mod proposal;
mod rings;
mod text;

pub use completion::{Completion, Reason, complete};
pub use law::{completed_reads, exact_weight, none_completes};
pub use text::complete_text;
