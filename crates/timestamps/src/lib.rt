//! Moments of the wall clock from the texts that give them.
#![tactic(auto)]

mod reading;

pub use reading::read_moment;
