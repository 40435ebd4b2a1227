//! Keys, covers, versions and logs that several tables use.
ghost use Rattle.std.specs.Prelude.{◌≡◌, ◌<◌, ◌^◌, ◌++◌, ◌∷◌, [], length, AllPairs};

use base_types::{Cover, CoverName, Decision, Moment, ObjectKey, Revision, Text};
use node_number::NodeId;
use std::process::Abort;
use write_groups::{Item, Items, Listing, LogEvent, Preconditions, Reading, Shown};

/// Stops the test where what was found isn't so.
pub fn check(rt: &impl Abort, holds: bool, what: &str) {
    assert!(rt; holds, "{what}");
}

pub fn text(rt: &(impl Abort + AllocGlobal), text: &str) -> Text {
    Text::from_str(rt.alloc(), text).expect(rt, "memory")
}

/// The key of an object of the namespace `d`.
pub fn key(rt: &(impl Abort + AllocGlobal), resource: &str, name: &str) -> ObjectKey {
    ObjectKey {
        group: text(rt, ""),
        resource: text(rt, resource),
        namespace: text(rt, "d"),
        name: text(rt, name),
    }
}

/// The revision of this number.
pub fn revision(rt: &impl Abort, number: u64) -> Revision {
    Revision::new(number).expect(rt, "a revision")
}

fn namespace_of(rt: &(impl Abort + AllocGlobal), pattern: &str) -> Option<Text> {
    if pattern == "*" {
        return None;
    }
    Some(text(rt, pattern))
}

fn name_of(rt: &(impl Abort + AllocGlobal), pattern: &str) -> CoverName {
    let Some(front) = pattern.strip_suffix('*') else {
        return CoverName::Exact(text(rt, pattern));
    };
    if front.is_empty() {
        return CoverName::Any;
    }
    CoverName::Prefix(text(rt, front))
}

/// A cover of a namespace, or of all by `*`, and of a name, of the front of names and `*`, or of all by `*`.
pub fn cover(
    rt: &(impl Abort + AllocGlobal),
    resource: &str,
    namespace: &str,
    pattern: &str,
) -> Cover {
    Cover {
        group: text(rt, ""),
        resource: text(rt, resource),
        namespace: namespace_of(rt, namespace),
        name: name_of(rt, pattern),
        creates: false,
    }
}

/// What an event of a log says of a config map.
#[derive(Clone, Copy)]
pub enum ToldPart {
    Created,
    Updated,
    /// An update whose condition was this revision.
    Replaced(u64),
    Removed,
    /// A write whose answer doesn't show what it left.
    Unseen,
    /// Such a write of any pods.
    UnseenPods,
    Absent,
    Present,
    Seen,
    NoneListed,
    SomeListed,
    Nothing,
    OtherLevel,
    OmittedStage,
    Allowed,
}

/// Where in the history the answer may be.
#[derive(Clone, Copy)]
pub enum Asked {
    MostRecent,
    AnyVersion,
    NotOlderThan(u64),
    Exactly(u64),
    Checkpoint(u64),
}

/// The object of an event: a config map of the namespace `d`.
#[derive(Clone, Copy)]
struct Object {
    name: &'static str,
    uid: &'static str,
    revision: u64,
}

/// What an event says, the name, the uid and the revision of its object, where in the history the answer may be, and
/// the moments between which it was.
pub type Row = (ToldPart, &'static str, &'static str, u64, Asked, i128, i128);

fn reading(rt: &impl Abort, asked: Asked) -> Reading {
    match asked {
        Asked::MostRecent => Reading::MostRecent,
        Asked::AnyVersion => Reading::AnyVersion,
        Asked::NotOlderThan(number) => Reading::NotOlderThan(revision(rt, number)),
        Asked::Exactly(number) => Reading::Exactly(revision(rt, number)),
        Asked::Checkpoint(number) => Reading::Checkpoint(revision(rt, number)),
    }
}

fn item(rt: &(impl Abort + AllocGlobal), object: &Object) -> Item {
    Item {
        key: key(rt, "configmaps", object.name),
        revision: revision(rt, object.revision),
        uid: text(rt, object.uid),
        node: NodeId(0),
    }
}

fn one_item(rt: &(impl Abort + AllocGlobal), object: &Object) -> Items {
    let mut items = Items::new(rt.alloc());
    items.push(item(rt, object)).expect(rt, "memory");
    items
}

// A whole list at the start.
fn listing(rt: &(impl Abort + AllocGlobal), items: Items) -> Shown {
    Shown::Listed {
        listing: Listing {
            group: text(rt, ""),
            resource: text(rt, "configmaps"),
            namespace: text(rt, "d"),
            revision: revision(rt, 10),
            whole: true,
            items,
        },
    }
}

fn made(rt: &(impl Abort + AllocGlobal), object: &Object, created: bool) -> Shown {
    Shown::Made {
        item: item(rt, object),
        created,
    }
}

fn removed(rt: &(impl Abort + AllocGlobal), object: &Object) -> Shown {
    Shown::Removed {
        key: key(rt, "configmaps", object.name),
        uid: text(rt, object.uid),
    }
}

// The answer to a write, or to a request that neither writes nor reads.
fn written(rt: &(impl Abort + AllocGlobal), told: ToldPart, object: &Object) -> Shown {
    match told {
        ToldPart::Created => made(rt, object, true),
        ToldPart::Updated | ToldPart::Replaced(_) => made(rt, object, false),
        ToldPart::Removed => removed(rt, object),
        ToldPart::Unseen => Shown::Opaque {
            cover: cover(rt, "configmaps", "d", object.name),
        },
        ToldPart::UnseenPods => Shown::Opaque {
            cover: cover(rt, "pods", "*", "*"),
        },
        _ => Shown::Free,
    }
}

fn answer(rt: &(impl Abort + AllocGlobal), told: ToldPart, object: &Object) -> Shown {
    match told {
        ToldPart::Absent => Shown::SawNone {
            key: key(rt, "configmaps", object.name),
        },
        ToldPart::Present => Shown::SawSome {
            key: key(rt, "configmaps", object.name),
        },
        ToldPart::Seen => Shown::Saw {
            item: item(rt, object),
        },
        ToldPart::NoneListed => listing(rt, Items::new(rt.alloc())),
        ToldPart::SomeListed => listing(rt, one_item(rt, object)),
        _ => written(rt, told, object),
    }
}

fn wanted(told: ToldPart) -> Option<Revision> {
    match told {
        ToldPart::Replaced(number) => Revision::new(number),
        _ => None,
    }
}

fn decision(told: ToldPart) -> Option<Decision> {
    match told {
        ToldPart::Allowed => Some(Decision::Allow),
        _ => None,
    }
}

/// The event of a row, on this line.
pub fn event(rt: &(impl Abort + AllocGlobal), line: u64, row: &Row) -> LogEvent
    ensures { result.line ≡ line }
{
    let (told, name, uid, revision, asked, lo, hi) = *row;
    let object = Object {
        name,
        uid,
        revision,
    };
    LogEvent {
        line,
        lo: Moment(lo),
        hi: Moment(hi),
        reading: reading(rt, asked),
        preconditions: Preconditions {
            revision: wanted(told),
            uid: None,
        },
        answer: answer(rt, told, &object),
        other_level: matches!(told, ToldPart::OtherLevel),
        omitted_stage: matches!(told, ToldPart::OmittedStage),
        decision: decision(told),
    }
}

/// Puts one more behind the others.
pub fn push<T: Drop>(rt: &impl Abort, items: &mut Vec<T>, item: T)
    ensures { items.new.items ≡ items.old.items ++ item ∷ [] }
{
    items.push(item).expect(rt, "memory");
}

/// The events of these rows, of which the first is on line 0.
pub fn log(rt: &(impl Abort + AllocGlobal), rows: &[Row]) -> Vec<LogEvent>
    requires { length rows.now < 2 ^ 32 }
    ensures few { length result.items < 2 ^ 32 }
    ensures lines { AllPairs (λ a b. a.line < b.line) result.items }
{
    let mut events = Vec::new(rt.alloc());
    for line in 0..rows.len() {
        let event = event(rt, line as u64, &rows[line]);
        push(rt, &mut events, event);
    }
    events
}
