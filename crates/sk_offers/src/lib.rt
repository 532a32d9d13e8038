//! Merges that workers offer one by one, as lines say them, and the family that they and a picker lead to.
#![tactic(auto)]

mod answer;
mod board;
mod offer_line;
mod offer_reading;

pub use answer::Answer;
pub use board::{Board, Finished};
pub use offer_line::OfferLine;
pub use offer_reading::{one_reading_of_offers, read_offers};
