use base_types::{Cover, ObjectKey, Revision, Text};
use label_select::Selector;
use packed_tree::Packed;
use setup_file::{Snapshot, SnapshotObject};

/// An object of a list.
pub type Item = SnapshotObject;

/// The objects of a list in its order.
pub type Items = Snapshot;

/// What an event says of the cluster. Trees are in stored form, and packed.
#[derive(Drop)]
pub enum Answer {
    /// A write that made this object.
    Made {
        key: ObjectKey,
        revision: Revision,
        uid: Text,
        tree: Packed,
        /// Whether the answer was `201 Created`.
        created: bool,
    },
    /// A write that removed the object of this uid.
    Removed {
        key: ObjectKey,
        uid: Text,
    },
    /// A write of which the log doesn't tell what it made.
    Opaque {
        cover: Cover,
    },
    /// A read that was answered by this object.
    Saw {
        key: ObjectKey,
        revision: Revision,
        uid: Text,
        tree: Packed,
    },
    /// `404 NotFound`: there was no object.
    SawNone {
        key: ObjectKey,
    },
    /// `409 AlreadyExists`: there was some object.
    SawSome {
        key: ObjectKey,
    },
    /// `409 Conflict`: the object didn't meet the request's preconditions.
    SawOther {
        key: ObjectKey,
    },
    /// A read of a list.
    Listed {
        group: Text,
        resource: Text,
        /// Empty for the objects of all namespaces and for a cluster-wide resource.
        namespace: Text,
        /// The revision at which the list was read.
        revision: Revision,
        /// Whether each object of the scope that the selector takes is among the items.
        whole: bool,
        items: Items,
        /// The label selector of a whole list that has one.
        selector: Option<Selector>,
    },
    /// The event says nothing of any object.
    Free,
    /// The event isn't judged.
    Aside,
}
