//! Answers lines that come piece by piece: each line of a piece is answered before the next piece is read. What a line is
//! answered is a matter of the replier; here it is cut off the pieces and handed over, and its reply is written and flushed.
#![tactic(auto)]

mod ending;
mod hearing;
mod replier;
mod turns;

pub use ending::TurnEnd;
pub use hearing::{Hearing, hand_over};
pub use replier::Replier;
pub use turns::turn;
