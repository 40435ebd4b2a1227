//! The claims of all events and their lines, taken by all processors at once.
#![tactic(auto)]

mod gate;
mod lines;
mod source;

pub use gate::{FreeGate, Gate};
pub use lines::{LineSource, lines_all};
pub use source::{ClaimSource, claims_all, one_list_law};
