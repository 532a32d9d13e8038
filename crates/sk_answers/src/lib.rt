//! How a call of the program ends, and what is answered to offers, a claim or places behind a sketch.
#![tactic(auto)]

mod answer;
mod claims;
mod measure;
mod measured_lines;
mod offers;
mod status;

pub use answer::{Answer, refused};
pub use claims::claimed;
pub use measure::measured;
pub use offers::offered;
pub use status::Status;
