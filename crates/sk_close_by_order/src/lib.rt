//! Closing a family: merges are taken until none holds, in the order that a picker answers.
#![tactic(auto)]

mod chosen;
mod close;
mod heir;
mod law;
mod partner;
mod picker;
mod worklist;

pub use chosen::{Chosen, Order};
pub use close::{close_family, close_with};
pub use law::{on_the_way, one_list_of_choices, one_run};
pub use picker::Picker;
pub use worklist::Worklist;
