//! Where the elements of a sketch are placed, and within which tolerance each constraint, block and normal holds there.
#![tactic(auto)]

mod holding;
mod law;
mod length;
mod lookup;
mod measured;
mod offset;
mod pins;
mod whole;

pub use holding::{
    meets, meets_block, meets_normal, own_least, own_least_of_block, own_least_of_normal, own_off,
    own_off_of_block,
};
pub use law::placed_in_order;
pub use lookup::place;
