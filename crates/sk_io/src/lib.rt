//! What the program reads from and writes to: a source and a sink, in memory or over std's readers and writers.
//! A fault is answered only where the object counted one, and content is told by the objects in memory alone.
#![tactic(auto)]

mod adapters;
mod calls;
mod fault;
mod mem_sink;
mod mem_source;
mod sink;
mod source;

pub use adapters::{StdSink, StdSource};
pub use fault::{Failed, LAST_COUNT, ReadEnd};
pub use mem_sink::MemSink;
pub use mem_source::MemSource;
pub use sink::{Sink, write_all};
pub use source::{Source, read_all};
