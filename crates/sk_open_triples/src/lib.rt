//! The open triples: the triangle merges that closing by order still has to look at, a list that is kept from turn to turn.
#![tactic(auto)]

mod heir;
mod lower_pairs;
mod mentions;
mod open_triples;
mod order;
mod row;
mod rows;

pub use heir::{Heir, is_same};
pub use open_triples::OpenTriples;
