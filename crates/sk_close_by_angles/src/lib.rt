//! Merges clusters by a third rule too: lines whose angle follows along a chain of lines.
#![tactic(auto)]

mod classes;
mod closing;
mod law;
mod lists;
mod pairs;
mod text;
mod tie_merges;
mod ties;

pub use classes::{class_of, lines_alone, tie_all};
pub use closing::{derive, derive_in_any_order};
pub use law::{
    derived_lists_rise, normal_lies_in_wide, one_derived_text, one_list_of_wide_choices,
    one_wide_normal_form, one_wide_run,
};
pub use text::derive_text;
