//! One choice of the removals' places that meets the bounds of all claims, or the first event that
//! allows none.
#![tactic(auto)]

mod room;
mod settled;

pub use settled::{Choice, Settled, settle};
