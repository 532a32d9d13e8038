//! What the words of the command line ask for.
#![tactic(auto)]

mod bits;
mod command;
mod law;
mod request;
mod settings;

pub use bits::Bits;
pub use command::{Account, Command};
pub use law::one_request;
pub use request::{Request, request_of};
