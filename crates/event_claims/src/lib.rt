//! What each event of a log asks of the places of removals, and why it can't be explained where it asks for what never
//! holds: the claims of a log, from a view of the log and of what it tells.
#![tactic(auto)]

mod answer;
mod case;
mod claim;
mod decided;
mod line;
mod standing;
mod verdict;
mod view;
mod word;

pub use claim::{claim_of, local_bounds_law, one_claim_law};
pub use decided::decision_window_of;
pub use line::placed_line;
pub use view::{Decisions, View};
