//! The geometry of one step on intervals: the frames of starting clusters, the five constructions of a third element from
//! two, and the three motions that carry a child's boxes into the kept child's frame.
#![tactic(auto)]

mod boxes;
mod carrying;
mod frames;
mod leaf;
mod moving;
mod parts;
mod rows;
mod settling;
mod third;
mod turn;
mod what;

pub use boxes::{BoxOf, Given};
pub use carrying::carry;
pub use frames::{Motion, Pair};
pub use leaf::{leaf_boxes, opposite, pin_box};
pub use moving::motion_by;
pub use settling::{settle, settle_motion};
pub use third::third_element;
pub use what::What;
