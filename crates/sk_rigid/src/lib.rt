//! Rigid bodies, as constraints come one by one.
#![tactic(auto)]

mod bodies;
mod groups;
mod growth;
mod rigid;

pub use bodies::Bodies;
pub use groups::Groups;
pub use rigid::Rigid;
