//! What each code, status and limit of the program means, how it comes about on an honest cluster, and what to do.
#![tactic(auto)]

mod explaining;
mod file_codes;
mod guide;
mod limits;
mod log_codes;
mod making_codes;
mod setup_codes;
mod statuses;
mod verdict_codes;

pub use explaining::explain;
