//! Moments for recorded writes and reads, so that their order in time is that of the revisions they show.
#![tactic(auto)]

mod latest;
mod moments;
mod thing;

pub use moments::{MomentList, Moments, settle_moments};
pub use thing::Thing;
