//! Where a plan places the elements of its sketch, and within which tolerance all holds there: as it is drawn, or with
//! choices turned over.
#![tactic(auto)]

mod alternative;
mod law;
mod placing;

pub use alternative::{Alternative, alternatives};
pub use law::{
    alternatives_differ, anchor_is_printed, finer_boxes_lie_inside, found_is_met, gaps_stay,
    one_alternative, place_is_printed, uncarried_is_out_of_range, untouched_plan_is_drawn,
    untouched_plan_is_placed,
};
pub use placing::{Placement, placed_on};
pub use sk_tolerance::first_off;
