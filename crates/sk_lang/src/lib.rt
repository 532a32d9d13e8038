//! The texts of sketches: their reader and their writer.
#![tactic(auto)]

mod draft;
mod front;
mod header;
mod law;
mod progress;
mod read;
mod within;
mod write;

pub use front::{Front, read_sketch_front};
pub use law::{one_answer, one_front, readable_is_sound, written_reads_back};
pub use read::read_sketch;
pub use write::{write_sketch, write_sketch_2};
