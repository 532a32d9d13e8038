//! Which clusters may merge with which: the clusters of a family by the elements that they hold, and the
//! walks from a cluster to those that may merge with it.
#![tactic(auto)]

mod all_triples;
mod corners;
mod holders;
mod index;
mod meeting;
mod meets;
mod partner;
mod triples;
mod walk;

pub use all_triples::add_all_triples;
pub use corners::is_third;
pub use holders::add_holders_of_all;
pub use index::Index;
pub use partner::{least_partner, least_partner_at};
pub use triples::{Third, add_triples_at, add_triples_of, add_triples_of_all};
