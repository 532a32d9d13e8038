//! The plain types of a sketch, its graph and its placement, lists and texts over memory, and numbers
//! of millimetres.
#![tactic(auto)]

mod digits;
mod graph;
mod label;
mod list;
mod measure;
mod memory;
mod millimetres;
mod name;
mod numbered;
mod order;
mod placed;
mod rounding;
mod sketch;
mod text;

pub use digits::digits_of;
pub use graph::{Block, Edge, Graph, Node};
pub use label::Label;
pub use list::List;
pub use measure::{Kind, Measure, Ratio, Sign, Um};
pub use memory::NoMemory;
pub use millimetres::{BadNumber, parse_mm, split_sign};
pub use name::Name;
pub use numbered::{ConId, Elem, Numbered};
pub use order::comes_before;
pub use placed::{At, Placed, Spot};
pub use rounding::{nearest, rounding_is_nearest};
pub use sketch::{Constraint, Element, Pin, Rule, Shape, Sketch, copy_constraint};
pub use text::Text;
