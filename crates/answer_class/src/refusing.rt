ghost use Rattle.std.specs.Prelude.{◌≡◌, IfOk, option_map};
ghost use Rattle.answer_class.specs.Classes.{tells_kind, may_miss, is_missing, asked_name, is_taken};
ghost use Rattle.answer_class.specs.Classes.{tells_conflict, is_conflict, conflict_class, taken_class};
ghost use Rattle.answer_class.specs.Classes.{refused_class};

use crate::answer::Answer;
use crate::bodies::body_member;
use crate::conditions::{has_conditions, tracked_conditions};
use crate::covers::is_create;
use crate::reading::{key_named, path_key, read_class};
use crate::request::{Verb, effect_of, is_code, is_own, is_unknown, verb_of};
use audit_event::{Event, Status};
use base_types::OutOfMemory;
use setup_file::Tracked;
use std::alloc::Global;

fn tells_kind(tracked: &Tracked, status: &Status) -> bool
    ensures { result ≡ tells_kind tracked.now status.now }
{
    status.kind.is_empty() || status.kind == tracked.resource || status.kind == tracked.kind
}

fn may_miss(verb: Verb) -> bool
    ensures { result ≡ may_miss verb }
{
    matches!(verb, Verb::Get | Verb::Update | Verb::Patch | Verb::Delete)
}

// `404 NotFound` for the object at the path.
fn is_missing(tracked: &Tracked, event: &Event) -> bool
    ensures { result ≡ is_missing tracked.now event.now }
{
    let (attrs, status) = (&event.attrs, &event.status);
    may_miss(verb_of(attrs.verb.as_str()))
        && !attrs.name.is_empty()
        && is_code(404, status.code)
        && status.reason.as_str() == "NotFound"
        && status.name == attrs.name
        && tells_kind(tracked, status)
        && !is_unknown(effect_of(tracked, attrs))
}

fn asked_name(event: &Event) -> Option<&str>
    ensures { option_map (λ text. text.now) result ≡ asked_name event.now }
{
    let metadata = body_member(&event.request, "metadata")?;
    metadata.filled_at("name")
}

// `409 AlreadyExists` for a create of this name.
fn is_taken(tracked: &Tracked, event: &Event, name: &str) -> bool
    ensures { result ≡ is_taken tracked.now event.now name.now }
{
    let (attrs, status) = (&event.attrs, &event.status);
    is_create(verb_of(attrs.verb.as_str()))
        && is_own(effect_of(tracked, attrs))
        && is_code(409, status.code)
        && status.reason.as_str() == "AlreadyExists"
        && status.name.as_str() == name
}

// `409 Conflict` for the object at the path.
fn tells_conflict(tracked: &Tracked, event: &Event) -> bool
    ensures { result ≡ tells_conflict tracked.now event.now }
{
    let (attrs, status) = (&event.attrs, &event.status);
    !is_unknown(effect_of(tracked, attrs))
        && is_code(409, status.code)
        && status.reason.as_str() == "Conflict"
        && status.name == attrs.name
}

// The same for a request with conditions.
fn is_conflict(alloc: Global, tracked: &Tracked, event: &Event) -> Result<bool, OutOfMemory>
    ensures { IfOk result (λ is. is ≡ is_conflict tracked.now event.now) }
{
    let conditions = tracked_conditions(alloc, tracked, event)?;
    Ok(has_conditions(&conditions) && tells_conflict(tracked, event))
}

fn conflict_class(alloc: Global, tracked: &Tracked, event: &Event) -> Result<Answer, OutOfMemory>
    ensures { IfOk result (λ answer. answer ≡ conflict_class tracked.now event.now) }
{
    if is_conflict(alloc, tracked, event)? {
        return Ok(Answer::SawOther {
            key: path_key(alloc, tracked, &event.attrs)?,
        });
    }
    read_class(alloc, tracked, event)
}

fn taken_class(alloc: Global, tracked: &Tracked, event: &Event) -> Result<Answer, OutOfMemory>
    ensures { IfOk result
        (λ answer. answer ≡ taken_class tracked.now event.now (asked_name event.now)) }
{
    let Some(name) = asked_name(event) else {
        return conflict_class(alloc, tracked, event);
    };
    if is_taken(tracked, event, name) {
        return Ok(Answer::SawSome {
            key: key_named(alloc, tracked, &event.attrs, name)?,
        });
    }
    conflict_class(alloc, tracked, event)
}

/// The class of an answer that shows no write.
pub fn refused_class(alloc: Global, tracked: &Tracked, event: &Event) -> Result<Answer, OutOfMemory>
    ensures { IfOk result (λ answer. answer ≡ refused_class tracked.now event.now) }
{
    if is_missing(tracked, event) {
        return Ok(Answer::SawNone {
            key: path_key(alloc, tracked, &event.attrs)?,
        });
    }
    taken_class(alloc, tracked, event)
}
