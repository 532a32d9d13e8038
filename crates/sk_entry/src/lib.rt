//! The lines of elements, constraints and rigid blocks: their reader and their writer.
#![tactic(auto)]

mod block;
mod constraint;
mod element;
mod empty;
mod entry;
mod field;
mod law;
mod line;
mod numbered;
mod scope;
mod write;

pub use empty::empty_sketch;
pub use entry::Entry;
pub use field::{element_named, label, length, not_zero};
pub use law::{entries_keep_soundness, one_entry, what_a_line_says};
pub use line::{entry_in, read_entry};
pub use numbered::{constraint_of, put_constraint_words};
pub use scope::Scope;
pub use write::{constraint_text, put_constraint, put_element};
