//! Finds every three clusters of which each two share another element: a walk over (cluster, corner, other element).
#![tactic(auto)]

mod corners;
mod ends;
mod highs;
mod lines;
mod marks;
mod ranks;
mod visitor;
mod walk;

pub use corners::{has_third, is_in_rising};
pub use ends::{End, add_ends, by_corner, by_elem, ends_at};
pub use lines::lines_of;
pub use marks::{is_marked, is_third, mark};
pub use ranks::counts_of;
pub use visitor::Visitor;
pub use walk::add_triangles;
