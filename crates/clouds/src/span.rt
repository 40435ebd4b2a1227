use base_types::{Cover, Listed, ObjectKey, Revision};

/// An unrecorded write: it may have changed any one of the objects that the cover stands for, at a place
/// above `low` and not above `high`. `low` may lie above `high`.
#[derive(Drop, PartialEq, Eq)]
pub struct OpaqueSpan {
    pub cover: Cover,
    pub low: u64,
    pub high: u64,
}

pub type OpaqueSpans = Listed<OpaqueSpan>;

/// A recorded write: the object and the revision that shows it again.
#[derive(Drop, PartialEq, Eq)]
pub struct KeyRevision {
    pub key: ObjectKey,
    pub revision: Revision,
}

pub type KeyRevisions = Listed<KeyRevision>;
