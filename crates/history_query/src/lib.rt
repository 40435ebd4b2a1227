//! What is asked of a history: which objects there were at a revision, which versions an object had, who wrote a value,
//! and what a user could do. The answers are texts, whatever the verdict on the log is.
#![tactic(auto)]

mod blaming;
mod deciding;
mod json;
mod law;
mod listing;
mod question;
mod showing;
mod sight;
mod standing;
mod telling;

pub use blaming::blame;
pub use deciding::can;
pub use law::one_text_law;
pub use listing::versions;
pub use question::{Question, answer};
pub use showing::show;
pub use standing::state;
