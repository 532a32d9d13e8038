//! Numbers and names, appended to a text in their exact spelling.
#![tactic(auto)]

mod cluster;
mod law;
mod names;
mod puts;
mod spelling;

pub use cluster::cluster_name;
pub use law::coordinates_read_back;
pub use names::{put_label, put_name, put_names};
pub use puts::Puts;
pub use sk_base::{NoMemory, Text};
