//! What the words of the companion's command line ask for.
#![tactic(auto)]

mod words;

pub use words::{Command, read_words};
