//! Against which other constraints one is too many: the kept ones that already hold its elements together.
#![tactic(auto)]

mod branches;
mod keeping;
mod law;
mod leaving;
mod owners;
mod reason_lines;
mod reasons;
mod text;
mod walking;

pub use law::{
    because_holds, follows, group_is_over, one_because, one_goes, one_report, only_group,
};
pub use reasons::because;
pub use text::why_text;
