//! What one answer asks of the places of removals: an answer shows no revision of a removal, so each reader bounds one
//! unknown place.
#![tactic(auto)]

mod answer;
mod asking;
mod coming;
mod demand;
mod gathering;
mod keys;
mod known;
mod listing;
mod object;
mod place;
mod seen;
mod sight;
mod standing;
mod subject;

pub use answer::asking_of;
pub use asking::{BoundDemand, KeyDemand};
pub use known::{Known, Listable};
pub use place::place_of;
