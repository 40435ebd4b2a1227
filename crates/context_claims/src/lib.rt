//! What each event of a context asks of the places of removals, and where a placement puts it: an answer shows no
//! revision of a removal, so each reader bounds one unknown place.
#![tactic(auto)]

mod claiming;
mod judge;

pub use claiming::{claim, decision_window, place};
pub use event_claims::{local_bounds_law, one_claim_law};
