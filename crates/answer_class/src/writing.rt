ghost use Rattle.std.specs.Prelude.{◌≡◌, IfOk, Some, option_map};
ghost use Rattle.answer_class.specs.Covers.{cover_of};
ghost use Rattle.answer_class.specs.Requests.{verb_of};
ghost use Rattle.answer_class.specs.Classes.{deleted_uid};
ghost use Rattle.answer_class.specs.Classes.{ended_uid, removed_uid, removed, is_made_by, made, made_class};
ghost use Rattle.answer_class.specs.Classes.{is_hidden_by, is_hidden, succeeded_class};

use crate::answer::Answer;
use crate::bodies::{answered_object, is_ended, is_finalizing};
use crate::covers::cover_of;
use crate::reading::path_key;
use crate::request::{
    Effect, Verb, effect_of, is_code, is_done, is_elsewhere, is_full, is_own, is_unknown, verb_of,
};
use crate::times::{is_early, is_late};
use audit_event::{Event, Status};
use base_types::{OutOfMemory, Text};
use packed_tree::PackedRef;
use setup_file::{Setup, SnapshotObject, Tracked};
use std::alloc::Global;

// The uid of the object that a delete removed.
fn deleted_uid(
    status: &Status,
    object: Option<&SnapshotObject>,
) -> Result<Option<Text>, OutOfMemory>
    ensures { IfOk result
        (λ found. found ≡ deleted_uid status.now (option_map (λ o. o.now) object.entry)) }
{
    if status.success && !status.uid.is_empty() {
        return Ok(Some(status.uid.clone()?));
    }
    let Some(object) = object else {
        return Ok(None);
    };
    if is_finalizing(&object.tree.root()) {
        return Ok(None);
    }
    Ok(Some(object.uid.clone()?))
}

// The uid of the object that an update ended.
fn ended_uid(object: Option<&SnapshotObject>) -> Result<Option<Text>, OutOfMemory>
    ensures { IfOk result (λ found. found ≡ ended_uid (option_map (λ o. o.now) object.entry)) }
{
    let Some(object) = object else {
        return Ok(None);
    };
    if is_ended(&object.tree.root()) {
        return Ok(Some(object.uid.clone()?));
    }
    Ok(None)
}

fn removed_uid(
    verb: Verb,
    event: &Event,
    object: Option<&SnapshotObject>,
) -> Result<Option<Text>, OutOfMemory>
    ensures { IfOk result
        (λ found. found ≡ removed_uid verb event.now (option_map (λ o. o.now) object.entry)) }
{
    match verb {
        Verb::Delete => deleted_uid(&event.status, object),
        Verb::Update | Verb::Patch => ended_uid(object),
        _ => Ok(None),
    }
}

/// A write of which nothing is known but what its cover takes.
pub fn opaque(alloc: Global, tracked: &Tracked, event: &Event) -> Result<Answer, OutOfMemory>
    ensures { IfOk result (λ answer. answer ≡ Answer.Opaque (cover_of tracked.now event.now)) }
{
    Ok(Answer::Opaque {
        cover: cover_of(alloc, tracked, event)?,
    })
}

// The class of a write that was made and whose answer isn't what it made.
fn removed(
    alloc: Global,
    setup: &Setup,
    tracked: &Tracked,
    event: &Event,
    uid: Option<Text>,
) -> Result<Answer, OutOfMemory>
    ensures { IfOk result (λ answer. answer ≡ removed setup.now tracked.now event.now uid) }
{
    let Some(uid) = uid else {
        return opaque(alloc, tracked, event);
    };
    if is_early(setup, event) {
        return opaque(alloc, tracked, event);
    }
    Ok(Answer::Removed {
        key: path_key(alloc, tracked, &event.attrs)?,
        uid,
    })
}

// Whether the object that a write was answered is what it made.
fn is_made_by(verb: Verb, object: &PackedRef<'_>) -> bool
    ensures { result ≡ is_made_by verb object.now }
{
    match verb {
        Verb::Create => true,
        Verb::Update | Verb::Patch => !is_ended(object),
        Verb::Delete => is_finalizing(object),
        _ => false,
    }
}

fn made_of(object: SnapshotObject, created: bool) -> Answer
    ensures { result ≡ Answer.Made object.key object.revision object.uid object.tree created }
{
    let SnapshotObject {
        key,
        revision,
        uid,
        tree,
    } = object;
    Answer::Made {
        key,
        revision,
        uid,
        tree,
        created,
    }
}

fn made(setup: &Setup, event: &Event, object: SnapshotObject) -> Answer
    ensures { result ≡ made setup.now event.now object }
{
    if setup.start.get() < object.revision.get() || !is_early(setup, event) {
        return made_of(object, is_code(201, event.status.code));
    }
    drop(object);
    Answer::Aside
}

// The class of a write that was made, and was answered this object if any, which isn't what it made.
fn removed_class(
    alloc: Global,
    setup: &Setup,
    tracked: &Tracked,
    event: &Event,
    object: Option<&SnapshotObject>,
) -> Result<Answer, OutOfMemory>
    ensures { IfOk result (λ answer. answer ≡ removed setup.now tracked.now event.now (removed_uid
        (verb_of event.now.attrs.verb) event.now (option_map (λ o. o.now) object.entry))) }
{
    let uid = removed_uid(verb_of(event.attrs.verb.as_str()), event, object)?;
    removed(alloc, setup, tracked, event, uid)
}

// The class of a write that was made and was answered this object.
fn object_class(
    alloc: Global,
    setup: &Setup,
    tracked: &Tracked,
    event: &Event,
    object: SnapshotObject,
) -> Result<Answer, OutOfMemory>
    ensures { IfOk result
        (λ answer. answer ≡ made_class setup.now tracked.now event.now (Some object)) }
{
    let verb = verb_of(event.attrs.verb.as_str());
    if is_done(event.status.code) && is_made_by(verb, &object.tree.root()) {
        return Ok(made(setup, event, object));
    }
    let answer = removed_class(alloc, setup, tracked, event, Some(&object));
    drop(object);
    answer
}

fn made_class(
    alloc: Global,
    setup: &Setup,
    tracked: &Tracked,
    event: &Event,
    object: Option<SnapshotObject>,
) -> Result<Answer, OutOfMemory>
    ensures { IfOk result (λ answer. answer ≡ made_class setup.now tracked.now event.now object) }
{
    match object {
        Some(object) => object_class(alloc, setup, tracked, event, object),
        None => removed_class(alloc, setup, tracked, event, None),
    }
}

fn is_hidden_by(verb: Verb, effect: Effect) -> bool
    ensures { result ≡ is_hidden_by verb effect }
{
    match verb {
        Verb::Create | Verb::Delete => !is_own(effect),
        Verb::Update | Verb::Patch => is_unknown(effect),
        Verb::DeleteCollection => true,
        _ => false,
    }
}

fn is_hidden(setup: &Setup, tracked: &Tracked, event: &Event) -> bool
    ensures { result ≡ is_hidden setup.now tracked.now event.now }
{
    let verb = verb_of(event.attrs.verb.as_str());
    is_late(setup, event)
        || !is_full(event.level)
        || is_elsewhere(tracked, &event.attrs)
        || is_hidden_by(verb, effect_of(tracked, &event.attrs))
}

/// The class of a write that was made.
pub fn succeeded_class(
    alloc: Global,
    setup: &Setup,
    tracked: &Tracked,
    event: &Event,
) -> Result<Answer, OutOfMemory>
    ensures { IfOk result (λ answer. answer ≡ succeeded_class setup.now tracked.now event.now) }
{
    if is_hidden(setup, tracked, event) {
        return opaque(alloc, tracked, event);
    }
    let object = answered_object(alloc, tracked, event)?;
    made_class(alloc, setup, tracked, event, object)
}
