//! What a verdict is made of: what events ask of the places of removals, where a placement puts them, and outcomes.
mod claim;
mod placed;

pub use claim::{Bound, Bounds, Claim, Claims, Range, Reason};
pub use placed::{
    Outcome, PlacedAnswer, PlacedDecision, PlacedLine, Placement, Places, WriteLine, WriteLines,
};
