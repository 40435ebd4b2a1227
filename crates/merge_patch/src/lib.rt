//! JSON Merge Patch (RFC 7386, now RFC 7396).
#![tactic(auto)]

mod merging;

pub use merging::merge;
