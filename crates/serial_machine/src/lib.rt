//! A second check of a placement: the serial API machine runs through it step by step. It rests on what a context tells
//! alone, and shares no function of claims, bounds, places or settling with what judges a log.
#![tactic(auto)]

mod checked;
mod checking;
mod decisions;
mod entry;
mod fault;
mod lines;
mod listing;
mod machine;
mod places;
mod replies;
mod rows;
mod scene;
mod shown;
mod standing;
mod step;
mod steps;
mod verdicts;
mod words;

pub use checked::{Checked, one_answer_law, print_checked, verify};
pub use checking::check;
pub use fault::{CheckFault, StepFault, WrongCode};
pub use machine::Machine;
