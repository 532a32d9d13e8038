//! The edits of a session: what its lines say, and the sketch that edits make.
#![tactic(auto)]

mod command;
mod edit;
mod law;
mod numbered;
mod reading;

pub use command::{Change, Command, command_of};
pub use edit::Edit;
pub use law::stays_sound;
pub use numbered::{HasNumber, get, put, remove, replace};
pub use reading::read_change;
