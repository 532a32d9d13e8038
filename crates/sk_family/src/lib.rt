//! Clusters, and the family that they stand in.
#![tactic(auto)]

mod cluster;
mod family;
mod joining;
mod law;
mod merge;
mod order;
mod row;
mod search;
mod start;
mod union;

pub use cluster::{Cluster, Overlap, common};
pub use family::{Family, initial};
pub use law::every_start;
pub use merge::Merge;
pub use order::names_in_order;
pub use row::Row;
