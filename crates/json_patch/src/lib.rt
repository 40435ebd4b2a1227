//! JSON Patch (RFC 6902): reading a patch, and applying it to a tree.
#![tactic(auto)]

mod applying;
mod chunks;
mod draft;
mod drafting;
mod edit;
mod fault;
mod members;
mod named;
mod op;
mod reading;
mod sameness;
mod size;
mod walking;

pub use applying::apply;
pub use fault::{ApplyCause, ApplyFault, PatchFault};
pub use op::{Op, Patch};
pub use reading::read_patch;
