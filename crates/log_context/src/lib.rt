//! The context of a log: what a cluster's setup and its log say together, with the events in the terms of the model of
//! history, and each tree of an object kept once.
#![tactic(auto)]

mod bodies;
mod build;
mod context;
mod deciding;
mod faults;
mod foreseen;
mod keys;
mod law;
mod listing;
mod log;
mod making;
mod readers;
mod roles;
mod uses;
mod verdicts;

pub use context::Context;
pub use law::one_history_law;
pub use log::{BuildFault, Log, log_of};
pub use uses::FirstUses;
