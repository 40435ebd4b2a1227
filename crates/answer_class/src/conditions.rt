ghost use Rattle.std.specs.Prelude.{◌≡◌, IfOk};
ghost use Rattle.answer_class.specs.Conditions.{no_conditions, conditions_at, conditions_by, tracked_conditions};
ghost use Rattle.answer_class.specs.Conditions.{conditions_of, has_conditions};

use crate::bodies::body_member;
use crate::patches::is_merge;
use crate::request::{Verb, verb_of};
use audit_event::{Body, Event};
use base_types::{OutOfMemory, Revision, Text};
use packed_tree::PackedRef;
use setup_file::{Setup, Tracked, tracked_of};
use std::alloc::Global;

/// What a request asks of the object that it is for (Kubernetes `meta/v1`, Preconditions).
#[derive(Drop, PartialEq, Eq)]
pub struct Conditions {
    /// The object's `metadata.resourceVersion`, where it is one of the cluster's revisions.
    pub revision: Option<Revision>,
    /// The object's `metadata.uid`.
    pub uid: Option<Text>,
}

fn no_conditions() -> Conditions
    ensures { result ≡ no_conditions }
{
    Conditions {
        revision: None,
        uid: None,
    }
}

fn conditions_at(alloc: Global, part: Option<PackedRef<'_>>) -> Result<Conditions, OutOfMemory>
    ensures { IfOk result (λ found. found ≡ conditions_at part.entry) }
{
    let Some(part) = part else {
        return Ok(no_conditions());
    };
    let revision = part.revision_at("resourceVersion");
    let uid = match part.filled_at("uid") {
        Some(uid) => Some(Text::from_str(alloc, uid)?),
        None => None,
    };
    Ok(Conditions { revision, uid })
}

fn conditions_by(
    alloc: Global,
    verb: Verb,
    merges: bool,
    request: &Body,
) -> Result<Conditions, OutOfMemory>
    ensures { IfOk result (λ found. found ≡ conditions_by verb merges request.now) }
{
    match verb {
        Verb::Update => conditions_at(alloc, body_member(request, "metadata")),
        Verb::Patch => {
            if merges {
                conditions_at(alloc, body_member(request, "metadata"))
            } else {
                Ok(no_conditions())
            }
        }
        Verb::Delete => conditions_at(alloc, body_member(request, "preconditions")),
        _ => Ok(no_conditions()),
    }
}

/// The conditions of a request for a tracked resource.
pub fn tracked_conditions(
    alloc: Global,
    tracked: &Tracked,
    event: &Event,
) -> Result<Conditions, OutOfMemory>
    ensures { IfOk result (λ found. found ≡ tracked_conditions tracked.now event.now) }
{
    let verb = verb_of(event.attrs.verb.as_str());
    conditions_by(alloc, verb, is_merge(tracked, event), &event.request)
}

/// The conditions of an event's request: those of an update, of a merge patch and of a delete. A revision that isn't
/// one of the cluster's and a uid that is empty or no text are no condition.
pub fn conditions_of(alloc: Global, setup: &Setup, event: &Event) -> Result<Conditions, OutOfMemory>
    ensures { IfOk result (λ found. found ≡ conditions_of setup.now event.now) }
{
    match tracked_of(setup, &event.attrs) {
        Some(tracked) => tracked_conditions(alloc, tracked, event),
        None => Ok(no_conditions()),
    }
}

pub fn has_conditions(conditions: &Conditions) -> bool
    ensures { result ≡ has_conditions conditions.now }
{
    conditions.revision.is_some() || conditions.uid.is_some()
}
