//! The texts that the program writes: each call gives exactly its defined text.
#![tactic(auto)]

mod answer;
mod check;
mod excess;
mod fault;
mod grow;
mod plan;
mod refusal;
mod reply;
mod solve;

pub use answer::answer_text;
pub use check::{check_text, part_text, parts_head_text};
pub use excess::{put_left, put_left_words, put_line_of_off, put_off};
pub use fault::{fault_text, frame_fault_text, passed_text, turned_text};
pub use grow::grow_text;
pub use plan::plan_text;
pub use refusal::refused_text;
pub use reply::{code_text, constrained_text, declared_text, done_text};
pub use solve::{places_text, put_tolerance, shape_text, solve_text};
