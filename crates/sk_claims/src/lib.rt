//! Claims on a sketch: the steps of a plan, places, radii and tolerances, as they are read behind it.
#![tactic(auto)]

mod choosing;
mod claim;
mod claim_line;
mod claim_reading;
mod element_line;
mod first_word;
mod law;
mod number;
mod place_line;
mod place_reading;
mod step_line;

pub use claim::{Claim, Radius};
pub use claim_reading::{one_reading_of_claims, read_claim};
pub use law::{
    legal_steps_can_be_said, printed_words_read_back, written_claims_read_back,
    written_places_read_back,
};
pub use place_reading::{one_reading_of_places, read_places};
