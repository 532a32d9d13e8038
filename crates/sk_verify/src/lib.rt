//! A checker of claims: whether steps lead to the whole drawing, and places meet what is asked.
#![tactic(auto)]

mod checking;
mod failure;
mod holding;
mod keeping;
mod law;
mod meeting;
mod step;
mod stepping;
mod texts;
mod told;
mod whole;

pub use checking::verify;
pub use failure::{Failure, VerifyError};
pub use law::{accepted, accepted_so, one_answer};
pub use texts::{failure_text, verified_text};
pub use told::unplaced;
