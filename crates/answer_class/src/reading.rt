ghost use Rattle.std.specs.Prelude.{◌≡◌, IfOk};
ghost use Rattle.answer_class.specs.Lists.{list_namespace};
ghost use Rattle.answer_class.specs.Classes.{key_named, path_key, saw, listed, got, gathered, read_by, read_class};

use crate::answer::Answer;
use crate::bodies::answered_object;
use crate::lists::{Extent, answered_list, extent_of};
use crate::request::{Verb, effect_of, is_code, is_own, verb_of};
use audit_event::Event;
use base_types::{ObjectKey, OutOfMemory, RequestAttrs, Text};
use setup_file::{ListRead, SnapshotObject, Tracked};
use std::alloc::Global;

/// The key of the object of this name in the path's namespace.
pub fn key_named(
    alloc: Global,
    tracked: &Tracked,
    attrs: &RequestAttrs,
    name: &str,
) -> Result<ObjectKey, OutOfMemory>
    ensures { IfOk result (λ key. key ≡ key_named tracked.now attrs.now name.now) }
{
    Ok(ObjectKey {
        group: attrs.group.clone()?,
        resource: attrs.resource.clone()?,
        namespace: namespace_of(alloc, tracked, attrs)?,
        name: Text::from_str(alloc, name)?,
    })
}

// The path's namespace, and none for a cluster-wide resource.
fn namespace_of(alloc: Global, tracked: &Tracked, attrs: &RequestAttrs) -> Result<Text, OutOfMemory>
    ensures { IfOk result (λ namespace. namespace ≡ list_namespace tracked.now attrs.now) }
{
    if tracked.namespaced {
        Ok(attrs.namespace.clone()?)
    } else {
        Ok(Text::new(alloc))
    }
}

/// The key of the object that the path names.
pub fn path_key(
    alloc: Global,
    tracked: &Tracked,
    attrs: &RequestAttrs,
) -> Result<ObjectKey, OutOfMemory>
    ensures { IfOk result (λ key. key ≡ path_key tracked.now attrs.now) }
{
    key_named(alloc, tracked, attrs, attrs.name.as_str())
}

// What a read saw under a key.
fn saw_under(key: ObjectKey, object: SnapshotObject) -> Answer
    ensures { result ≡ Answer.Saw key object.revision object.uid object.tree }
{
    let SnapshotObject {
        key: named,
        revision,
        uid,
        tree,
    } = object;
    drop(named);
    Answer::Saw {
        key,
        revision,
        uid,
        tree,
    }
}

fn saw(
    alloc: Global,
    tracked: &Tracked,
    event: &Event,
    object: Option<SnapshotObject>,
) -> Result<Answer, OutOfMemory>
    ensures { IfOk result (λ answer. answer ≡ saw tracked.now event.now object) }
{
    let Some(object) = object else {
        return Ok(Answer::Aside);
    };
    let Ok(key) = path_key(alloc, tracked, &event.attrs) else {
        drop(object);
        return Err(OutOfMemory);
    };
    Ok(saw_under(key, object))
}

fn listed(
    alloc: Global,
    tracked: &Tracked,
    event: &Event,
    list: Option<ListRead>,
) -> Result<Answer, OutOfMemory>
    ensures { IfOk result (λ answer. answer ≡ listed tracked.now event.now list) }
{
    let Some(list) = list else {
        return Ok(Answer::Aside);
    };
    let ListRead {
        revision,
        rest,
        items,
    } = list;
    let attrs = &event.attrs;
    let Extent { whole, selector } = extent_of(alloc, attrs, rest)?;
    Ok(Answer::Listed {
        group: attrs.group.clone()?,
        resource: attrs.resource.clone()?,
        namespace: namespace_of(alloc, tracked, attrs)?,
        revision,
        whole,
        items,
        selector,
    })
}

// The class of a get that was answered `200 OK`.
fn got(alloc: Global, tracked: &Tracked, event: &Event) -> Result<Answer, OutOfMemory>
    ensures { IfOk result (λ answer. answer ≡ got tracked.now event.now) }
{
    if event.attrs.name.is_empty() {
        return Ok(Answer::Aside);
    }
    let object = answered_object(alloc, tracked, event)?;
    saw(alloc, tracked, event, object)
}

// The class of a list that was answered `200 OK`.
fn gathered(alloc: Global, tracked: &Tracked, event: &Event) -> Result<Answer, OutOfMemory>
    ensures { IfOk result (λ answer. answer ≡ gathered tracked.now event.now) }
{
    if !is_own(effect_of(tracked, &event.attrs)) {
        return Ok(Answer::Aside);
    }
    let list = answered_list(alloc, tracked, event)?;
    listed(alloc, tracked, event, list)
}

fn read_by(
    alloc: Global,
    verb: Verb,
    tracked: &Tracked,
    event: &Event,
) -> Result<Answer, OutOfMemory>
    ensures { IfOk result (λ answer. answer ≡ read_by verb tracked.now event.now) }
{
    match verb {
        Verb::Get => got(alloc, tracked, event),
        Verb::Listing => gathered(alloc, tracked, event),
        _ => Ok(Answer::Free),
    }
}

/// The class of a read that was answered with what it asked for.
pub fn read_class(alloc: Global, tracked: &Tracked, event: &Event) -> Result<Answer, OutOfMemory>
    ensures { IfOk result (λ answer. answer ≡ read_class tracked.now event.now) }
{
    if is_code(200, event.status.code) {
        return read_by(alloc, verb_of(event.attrs.verb.as_str()), tracked, event);
    }
    Ok(Answer::Free)
}
