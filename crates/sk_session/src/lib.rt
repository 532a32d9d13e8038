//! A session of edits, each of which can be undone, with a family of clusters that is kept.
#![tactic(auto)]

mod change;
mod closing;
mod done;
mod law;
mod lines;
mod origin;
mod reduced_sketch;
mod reply;
mod session;

pub use closing::Closing;
pub use law::{kept_along, one_reply, refused_exactly, some_to_solve, starts_as_named};
pub use reply::Reply;
pub use session::Session;
