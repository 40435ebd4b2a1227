//! Builds the past of each object that a log shows: its versions with their makers, cut into incarnations, and the
//! removals that ended these.
#![tactic(auto)]

mod bodies;
mod grown;
mod hiding;
mod log_past;
mod maker;
mod making;
mod owner;
mod removal;
mod removals;
mod removed;
mod timed;
mod versions;

pub use bodies::Bodies;
pub use hiding::unrecorded_of;
pub use log_past::{LogPast, past_behind, past_of};
pub use maker::JudgedWrite;
pub use making::{Making, finding_fault, making_at, making_fault};
pub use timed::{Timed, timed_of};
