//! The top call: the words of the command line, a source and a sink go in, and a status comes out.
#![tactic(auto)]

mod accounts;
mod alternative;
mod complete;
mod excess;
mod flips;
mod grow;
mod live;
mod parts;
mod placing;
mod plan;
mod planning;
mod reply;
mod session;
mod solve;
mod solving;
mod top;

pub use alternative::alternative_text;
pub use reply::reply_text;
pub use solving::Report;
pub use top::run;
