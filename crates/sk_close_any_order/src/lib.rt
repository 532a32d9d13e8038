//! Merges clusters until no rule holds, in whatever order is quickest.
#![tactic(auto)]

mod any_order;
mod growth;

pub use any_order::close_in_any_order;
