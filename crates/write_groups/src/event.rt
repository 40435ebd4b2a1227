ghost use Rattle.std.specs.Prelude.{◌≡◌};
ghost use Rattle.write_groups.specs.Lines.{line_at};
ghost use Rattle.write_groups.specs.Met.{are_met};

use base_types::{Cover, Decision, Listed, Moment, ObjectKey, Revision, Text};
use node_number::NodeId;

/// One object as an answer shows it.
#[derive(Drop)]
pub struct Item {
    pub key: ObjectKey,
    /// `metadata.resourceVersion`
    pub revision: Revision,
    /// `metadata.uid`
    pub uid: Text,
    /// The object's tree in stored form, by its number in the pool.
    pub node: NodeId,
}

pub type Items = Listed<Item>;

/// What a request asks of the object before it (Kubernetes API, `metadata.resourceVersion` and `metadata.uid` of an
/// update, `preconditions` of DeleteOptions).
#[derive(Drop)]
pub struct Preconditions {
    pub revision: Option<Revision>,
    pub uid: Option<Text>,
}

impl Preconditions {
    /// Whether an object of this revision and uid meets them.
    pub fn are_met(&self, revision: Revision, uid: &Text) -> bool
        ensures { result ≡ are_met self.now revision uid.now }
    {
        let by_revision = match self.revision {
            Some(wanted) => wanted == revision,
            None => true,
        };
        let by_uid = match &self.uid {
            Some(wanted) => *wanted == *uid,
            None => true,
        };
        by_revision && by_uid
    }
}

/// A list of objects at one revision (Kubernetes API concepts, "Collections").
#[derive(Drop)]
pub struct Listing {
    pub group: Text,
    pub resource: Text,
    /// Empty for the objects of all namespaces and for a cluster-wide resource.
    pub namespace: Text,
    pub revision: Revision,
    /// Whether each object of the scope that the selector takes is among the items.
    pub whole: bool,
    pub items: Items,
}

/// What an event's answer says of the cluster.
#[derive(Drop)]
pub enum Shown {
    /// A write, with the object that it left; `created` where the answer was `201 Created`.
    Made { item: Item, created: bool },
    /// A write that removed the object of this uid.
    Removed { key: ObjectKey, uid: Text },
    /// A write of which the log doesn't tell what it left.
    Opaque { cover: Cover },
    /// A read that shows an object.
    Saw { item: Item },
    /// `404 NotFound`
    SawNone { key: ObjectKey },
    /// `409 AlreadyExists`
    SawSome { key: ObjectKey },
    /// `409 Conflict`: the object didn't meet the preconditions.
    SawOther { key: ObjectKey },
    Listed { listing: Listing },
    /// The event says nothing of any object.
    Free,
    /// The event isn't judged.
    Aside,
}

/// Where in the history a request lets its answer be (Kubernetes API concepts, "Resource versions", semantics for get
/// and list).
#[derive(Clone, Copy, Drop, PartialEq, Eq)]
pub enum Reading {
    /// No `resourceVersion`, and every write.
    MostRecent,
    /// `resourceVersion=0`, and a list that goes on with `continue`.
    AnyVersion,
    NotOlderThan(Revision),
    /// `resourceVersionMatch=Exact`
    Exactly(Revision),
    /// No request, but a list that is known from elsewhere.
    Checkpoint(Revision),
}

/// An audit event, or a checkpoint, in the terms of the model of history.
pub struct LogEvent {
    /// The line of the log, from 1. Those of checkpoints are behind all lines of a log.
    pub line: u64,
    /// The receipt, less what clocks may be off.
    pub lo: Moment,
    /// The stage's moment, and what clocks may be off.
    pub hi: Moment,
    pub reading: Reading,
    pub preconditions: Preconditions,
    pub answer: Shown,
    /// Whether the policy gives the request another level than the event's.
    pub other_level: bool,
    /// Whether the policy omits the event's stage.
    pub omitted_stage: bool,
    /// The recorded decision, where it is judged.
    pub decision: Option<Decision>,
}

// Written out, so that a function that lets an event go has one call and not the steps of each field.
impl Drop for LogEvent {
    fn drop(self) {
        let LogEvent {
            line: _,
            lo: _,
            hi: _,
            reading: _,
            preconditions,
            answer,
            other_level: _,
            omitted_stage: _,
            decision: _,
        } = self;
        drop(preconditions);
        drop(answer);
    }
}

/// Events by line, and the checkpoints behind them.
pub type LogEvents = Listed<LogEvent>;

/// The line of the event of this number.
pub fn line_at(log: &[LogEvent], number: u32) -> u64
    ensures { result ≡ line_at log.now number }
{
    match log.get(number as usize) {
        Some(event) => event.line,
        None => 0,
    }
}
