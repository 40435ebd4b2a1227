//! The words that a process is given: its arguments behind the first, and whether names among them differ.
#![tactic(auto)]

mod names;
mod words;

pub use names::{are_distinct, is_among};
pub use words::words_among;
