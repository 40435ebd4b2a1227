//! Whether the answer to an audited write is what its body asked of the object before.
#![tactic(auto)]

mod agreeing;
mod asked;
mod patched;
mod requests;
mod right;

pub use agreeing::agreement_law;
pub use right::{body_law, is_body_right};
