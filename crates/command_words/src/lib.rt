//! The words of the command line: which command they ask for, and which question to a history.
#![tactic(auto)]

mod questions;
mod words;

pub use words::{Command, read_words};
