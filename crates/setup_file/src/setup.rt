use crate::tracked_list::TrackedList;
use audit_policy::Policy;
use base_types::{Listed, Moment, ObjectKey, Revision, Text, Texts};
use packed_tree::Packed;
use path_shape::Shape;

/// What is known of a cluster apart from its log: where and when the log begins, how its clocks may be
/// off, what it records, which resources are judged and how, and which objects were there at the start.
#[derive(Drop)]
pub struct Setup {
    /// The last revision before the log begins.
    pub start: Revision,
    /// The moment at which the log begins.
    pub start_time: Moment,
    /// The moment at which the log ends; None for no end.
    pub until: Option<Moment>,
    /// By how many nanoseconds the times of an event may be off, at most 10^18.
    pub slack: u64,
    /// How many nanoseconds an authorizer's caches may be behind, at most 10^18.
    pub lag: u64,
    pub policy: Policy,
    /// Whether the recorded decisions are judged.
    pub authorize: bool,
    pub resources: TrackedList,
    pub snapshot: Snapshot,
    /// The groups whose members pass RBAC.
    pub bypass: Texts,
    /// The groups whose members' decisions aren't judged.
    pub skip: Texts,
    pub checkpoints: Checkpoints,
}

/// A resource that is judged (Kubernetes API concepts, "Standard API terminology").
#[derive(Drop)]
pub struct Tracked {
    /// The API group, empty for the core group.
    pub group: Text,
    /// The API version in which its objects are judged.
    pub version: Text,
    /// The resource type in the plural, as in URIs.
    pub resource: Text,
    pub kind: Text,
    /// The kind of a list of its objects.
    pub list_kind: Text,
    pub namespaced: bool,
    /// Whether a patch that is an object is a merge patch (RFC 7386, now RFC 7396).
    pub merges: bool,
    pub shape: Shape,
    pub subresources: Subresources,
}

pub type Subresources = Listed<Subresource>;

/// A subresource whose effect on its object is known.
#[derive(Drop)]
pub struct Subresource {
    pub name: Text,
    /// Whether its requests read and write the object; otherwise they leave it as it is.
    pub same: bool,
    pub shape: Shape,
}

pub type Snapshot = Listed<SnapshotObject>;

/// An object as it was read at some moment, its tree in stored form and packed.
#[derive(Drop)]
pub struct SnapshotObject {
    pub key: ObjectKey,
    pub revision: Revision,
    /// `metadata.uid`
    pub uid: Text,
    pub tree: Packed,
}

pub type Checkpoints = Listed<Checkpoint>;

/// A whole list of a resource that must fit the log: that of a backup, or one gathered from pages.
#[derive(Drop)]
pub struct Checkpoint {
    /// `checkpoint:K`, with K from 1, for those of a setup.
    pub name: Text,
    pub group: Text,
    pub resource: Text,
    /// Empty for the objects of all namespaces.
    pub namespace: Text,
    pub revision: Revision,
    pub items: Snapshot,
}
