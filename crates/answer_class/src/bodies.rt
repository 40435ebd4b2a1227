ghost use Rattle.std.specs.Prelude.{◌≡◌, IfOk, option_and_then};
ghost use Rattle.base_types.specs.Parts.{member_of};
ghost use Rattle.audit_event.specs.Bodies.{kept};
ghost use Rattle.answer_class.specs.Bodies.{has_items, is_positive, is_there, metadata_at, is_deleted};
ghost use Rattle.answer_class.specs.Bodies.{is_finalizing, is_ended, answered_object, asks_dry};

use crate::request::Verb;
use audit_event::{Body, Event};
use base_types::OutOfMemory;
use packed_tree::PackedRef;
use setup_file::{SnapshotObject, Tracked, read_object};
use std::alloc::Global;

// Whether a member is a list that isn't empty.
fn has_items(member: Option<PackedRef<'_>>) -> bool
    ensures { result ≡ has_items member.entry }
{
    match member {
        Some(value) => match value.as_items() {
            Some(items) => !items.is_empty(),
            None => false,
        },
        None => false,
    }
}

fn is_positive(member: Option<PackedRef<'_>>) -> bool
    ensures { result ≡ is_positive member.entry }
{
    match member {
        Some(value) => match value.as_whole() {
            Some(number) => 0 < number,
            None => false,
        },
        None => false,
    }
}

fn is_there(member: Option<PackedRef<'_>>) -> bool
    ensures { result ≡ is_there member.entry }
{
    match member {
        Some(value) => !value.is_null(),
        None => false,
    }
}

/// A member of an object's `metadata`.
pub fn metadata_at<'a>(object: &PackedRef<'a>, name: &str) -> Option<PackedRef<'a>>
    ensures { result ≡ metadata_at name.now object.now }
{
    object.member("metadata")?.member(name)
}

fn is_deleted(object: &PackedRef<'_>) -> bool
    ensures { result ≡ is_deleted object.now }
{
    is_there(metadata_at(object, "deletionTimestamp"))
}

/// Whether an object was deleted and still waits for finalizers, or for its grace period.
pub fn is_finalizing(object: &PackedRef<'_>) -> bool
    ensures { result ≡ is_finalizing object.now }
{
    is_deleted(object)
        && (has_items(metadata_at(object, "finalizers"))
            || is_positive(metadata_at(object, "deletionGracePeriodSeconds")))
}

/// Whether an object was deleted and waits for nothing more.
pub fn is_ended(object: &PackedRef<'_>) -> bool
    ensures { result ≡ is_ended object.now }
{
    is_deleted(object) && !is_finalizing(object)
}

/// The value of a body that was kept, to be read in place.
pub fn value_of(body: &Body) -> Option<PackedRef<'_>>
    ensures { result ≡ kept body.now }
{
    Some(body.kept()?.root())
}

/// A member of a body that was kept.
pub fn body_member<'a>(body: &'a Body, name: &str) -> Option<PackedRef<'a>>
    ensures { result ≡ option_and_then (member_of name.now) (kept body.now) }
{
    value_of(body)?.member(name)
}

/// The object that the answer is, under the request's path.
pub fn answered_object(
    alloc: Global,
    tracked: &Tracked,
    event: &Event,
) -> Result<Option<SnapshotObject>, OutOfMemory>
    ensures { IfOk result (λ found. found ≡ answered_object tracked.now event.now) }
{
    let attrs = &event.attrs;
    match value_of(&event.response) {
        Some(value) => read_object(alloc, tracked, &attrs.name, &attrs.namespace, &value),
        None => Ok(None),
    }
}

/// Whether a deletion asks for a dry run in its body.
pub fn asks_dry(verb: Verb, request: &Body) -> bool
    ensures { result ≡ asks_dry verb request.now }
{
    match verb {
        Verb::Delete | Verb::DeleteCollection => has_items(body_member(request, "dryRun")),
        _ => false,
    }
}
