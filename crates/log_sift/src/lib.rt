//! A log without the lines that a judge refuses: which of its lines stay, and for which rule each other line is left
//! out.
#![tactic(auto)]

mod answer;
mod cutting;
mod keeping;
mod law;
mod named;
mod recalling;
mod telling;
mod whole;

pub use answer::{Fate, LeftCause, LeftLine, LeftLines, Sifting, Stretch, Stretches};
pub use law::{one_sifting_law, taken_law, whole_law};
pub use named::{SiftText, sift_named, write_sifted};
pub use telling::left_text;
pub use whole::sift;
