//! Moments for the writes and reads of a log, so that their order in time is that of the revisions they show; or the
//! first two lines for which there are none.
#![tactic(auto)]

mod answer;
mod nexts;
mod numbers;
mod standing;
mod text;
mod things;
mod view;
mod viewing;

pub use answer::{LineMoment, LineMoments, StrictAnswer, one_strict_answer_law, strict_answer};
pub use text::print_strict;
pub use things::{Things, things_of};
