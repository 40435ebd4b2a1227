//! The text of an outcome, and the placement that such a text says.
#![tactic(auto)]

mod outcome;
mod placed;
mod reading;
mod words;

pub use outcome::print_outcome;
pub use reading::{PlacementFault, read_placement};
pub use words::read_number;
