//! The number of a value that stands once in a pool, for crates that keep such numbers and don't look into the pool.
#![tactic(auto)]

mod node;

pub use node::NodeId;
