//! What unrecorded writes hide: of which objects nothing is known at a place of the history.
#![tactic(auto)]

mod clouds;
mod cover;
mod filing;
mod lengths;
mod mark;
mod numbers;
mod places;
mod recorded;
mod span;
mod unrecorded;
mod wide;

pub use clouds::Clouds;
pub use span::{KeyRevision, KeyRevisions, OpaqueSpan, OpaqueSpans};
pub use unrecorded::lesser_place;
