//! The lines of a log, from pieces of its bytes.
#![tactic(auto)]

mod line;
mod reader;
mod search;

pub use line::{Line, LineFault};
pub use reader::{LONGEST_PIECE, LineReader};
pub use search::{LONGEST_LINE, NEWLINE, is_dropped_line};
