//! Lists that clients read in pages, put together (Kubernetes API concepts, "Retrieving large results sets in
//! chunks").
#![tactic(auto)]

mod chain;
mod finding;
mod page;
mod reaching;
mod reading;

pub use chain::chains;
