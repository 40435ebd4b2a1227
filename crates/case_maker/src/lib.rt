//! A large setup and log made from a number, for trials of the judge.
#![tactic(auto)]

mod bodies;
mod case;
mod cluster;
mod event;
mod exchange;
mod random;

pub use case::{Case, make_case};
