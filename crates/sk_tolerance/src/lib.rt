//! How far a placed sketch is from what its constraints ask, and which signs were turned over.
#![tactic(auto)]

mod beyond;
mod corners;
mod law;
mod single;
mod spotted;
mod tolerance;
mod turned;
mod worst;

pub use beyond::{Beyond, passed};
pub use law::constraints_in_order;
pub use single::{OffBy, off};
pub use spotted::{Named, Spotted, earlier};
pub use tolerance::{Tolerance, least};
pub use turned::{Turned, Wanted, first_off, first_turned, first_turned_constraint, first_unlike};
