use base_types::{Listed, ObjectKey, Revision, Text};
use node_number::NodeId;

/// Who wrote a version.
#[derive(Clone, Copy, Debug, Drop, PartialEq, Eq)]
pub enum Maker {
    /// It was there at the start.
    Snapshot,
    /// The event of this number.
    Event(u32),
    /// A write that the log doesn't show.
    Unknown,
}

/// One object from one write of it to the next.
#[derive(Drop)]
pub struct Version {
    pub key: ObjectKey,
    pub revision: Revision,
    /// `metadata.uid`
    pub uid: Text,
    /// The object's tree in stored form, by its number in the pool.
    pub node: NodeId,
    pub maker: Maker,
}

/// Versions by revision.
pub type Versions = Listed<Version>;
