//! Numbers, keys, attributes, claims and placements: the words that all other crates share.
#![tactic(auto)]

mod foundation;
pub mod json;
mod kubernetes;
mod verdict;

pub use foundation::{Bytes, Listed, OutOfMemory, Shared, Text, Texts, escape};
pub use kubernetes::{
    Cover, CoverName, Decision, Level, Moment, ObjectKey, Pair, Pairs, PolicyLevel, Possible,
    RequestAttrs, Revision, Stage, StageSet, User, covers, exact_key, has_text, is_combined,
    key_text, path_matches, read_key, read_revision, revision_of, same_key,
};
pub use verdict::{
    Bound, Bounds, Claim, Claims, Outcome, PlacedAnswer, PlacedDecision, PlacedLine, Placement,
    Places, Range, Reason, WriteLine, WriteLines,
};
