//! The writes that may have come between the two ends of an event's window, as the lines that tell of them.
#![tactic(auto)]

mod writes;

pub use writes::writes_within;
