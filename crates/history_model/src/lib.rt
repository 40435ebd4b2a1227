//! The model of history: what versions, removals, runs and outcomes of an audit log are, and the laws that
//! hold of them. It has definitions and proofs alone: each law is the contract of a function that does
//! nothing, which a caller cites by calling it.
#![tactic(auto)]

mod bounding;
mod checking;
mod examples;
mod explaining;
mod running;

pub use bounding::{
    absent_law, bound_law, choice_law, found_law, list_law, listed_law, present_law, refused_law,
    shown_law, unplaced_law,
};
pub use checking::{fault_law, spelling_law, verified_law};
pub use examples::{explained_examples, removal_examples, unexplained_examples};
pub use explaining::{explained_law, one_list_law, one_outcome_law, outcome_law, printed_law};
pub use running::{locality_law, makings_law, removals_law, state_law};
