ghost use Rattle.std.specs.Prelude.{◌≡◌, ◌≢◌, IfOk, OnErr, IsTrue, IsFalse};
ghost use Rattle.answer_class.specs.Requests.{is_empty};
ghost use Rattle.answer_class.specs.Covers.{is_create, created_name, cover_name, cover_namespace, cover_of};

use crate::bodies::body_member;
use crate::request::{Verb, verb_of};
use audit_event::Event;
use base_types::{Cover, CoverName, OutOfMemory, RequestAttrs, Text};
use packed_tree::PackedRef;
use setup_file::Tracked;
use std::alloc::Global;

pub fn is_create(verb: Verb) -> bool
    ensures { result ≡ is_create verb }
{
    matches!(verb, Verb::Create)
}

// The names that an object may have which is to be created with this metadata.
fn created_name(alloc: Global, metadata: Option<PackedRef<'_>>) -> Result<CoverName, OutOfMemory>
    ensures name { IfOk result (λ name. name ≡ created_name metadata.entry) }
    ensures memory { OnErr result (created_name metadata.entry ≢ CoverName.Any) }
{
    let Some(metadata) = metadata else {
        return Ok(CoverName::Any);
    };
    if let Some(name) = metadata.filled_at("name") {
        return Ok(CoverName::Exact(Text::from_str(alloc, name)?));
    }
    match metadata.filled_at("generateName") {
        Some(front) => Ok(CoverName::Prefix(Text::from_str(alloc, front)?)),
        None => Ok(CoverName::Any),
    }
}

fn cover_name(alloc: Global, event: &Event) -> Result<CoverName, OutOfMemory>
    ensures name { IfOk result (λ name. name ≡ cover_name event.now) }
    ensures memory { OnErr result (cover_name event.now ≢ CoverName.Any) }
{
    let attrs = &event.attrs;
    if !attrs.name.is_empty() {
        return Ok(CoverName::Exact(attrs.name.clone()?));
    }
    if is_create(verb_of(attrs.verb.as_str())) {
        return created_name(alloc, body_member(&event.request, "metadata"));
    }
    Ok(CoverName::Any)
}

fn cover_namespace(
    alloc: Global,
    tracked: &Tracked,
    attrs: &RequestAttrs,
) -> Result<Option<Text>, OutOfMemory>
    ensures covered { IfOk result (λ covered. covered ≡ cover_namespace tracked.now attrs.now) }
    ensures namespaced { OnErr result (IsTrue tracked.now.namespaced) }
    ensures memory { OnErr result (IsFalse (is_empty attrs.now.namespace)) }
{
    if !tracked.namespaced {
        return Ok(Some(Text::new(alloc)));
    }
    if attrs.namespace.is_empty() {
        return Ok(None);
    }
    Ok(Some(attrs.namespace.clone()?))
}

/// The objects that a write may have changed of which the log doesn't tell what it made.
pub fn cover_of(alloc: Global, tracked: &Tracked, event: &Event) -> Result<Cover, OutOfMemory>
    ensures { IfOk result (λ cover. cover ≡ cover_of tracked.now event.now) }
{
    let attrs = &event.attrs;
    Ok(Cover {
        group: attrs.group.clone()?,
        resource: attrs.resource.clone()?,
        namespace: cover_namespace(alloc, tracked, attrs)?,
        name: cover_name(alloc, event)?,
        creates: is_create(verb_of(attrs.verb.as_str())),
    })
}
