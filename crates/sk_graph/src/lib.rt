//! The constraint graph of a sketch.
#![tactic(auto)]

mod blocks;
mod drawn;
mod edges;
mod law;
mod reduction;

pub use blocks::block;
pub use drawn::shape;
pub use edges::edge;
pub use law::sound_graph;
pub use reduction::reduce;
