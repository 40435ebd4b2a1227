ghost use Rattle.std.specs.Prelude.{◌≡◌, IfOk, option_map};
ghost use Rattle.base_types.specs.Parts.{member_of};
ghost use Rattle.setup_file.specs.Lists.{objects_in, is_blank, goes_on, list_with, list_of};

use crate::objects::{has_text_at, read_object};
use crate::setup::{Snapshot, Tracked};
use crate::values::values_or_none;
use base_types::{OutOfMemory, Revision, Text};
use packed_tree::PackedRef;
use std::alloc::Global;

/// A list of objects as it was answered, whole or a page of it.
#[derive(Drop)]
pub struct ListRead {
    /// The revision at which the list was read, its `metadata.resourceVersion`.
    pub revision: Revision,
    /// Whether more pages follow: its `metadata.continue` isn't absent, null or empty.
    pub rest: bool,
    pub items: Snapshot,
}

fn read_objects(
    alloc: Global,
    tracked: &Tracked,
    name: &Text,
    namespace: &Text,
    values: &[PackedRef<'_>],
) -> Result<Option<Snapshot>, OutOfMemory>
    ensures { IfOk result (λ found. found ≡ objects_in tracked.now name.now namespace.now
        values.now) }
{
    let mut objects = Snapshot::new(alloc);
    for value in values {
        let Some(object) = read_object(alloc, tracked, name, namespace, value)? else {
            return Ok(None);
        };
        objects.push(object)?;
    }
    Ok(Some(objects))
}

fn is_blank(text: Option<&str>) -> bool
    ensures { result ≡ is_blank (option_map (λ text. text.now) text.entry) }
{
    match text {
        Some(text) => text.is_empty(),
        None => false,
    }
}

fn goes_on(member: Option<PackedRef<'_>>) -> bool
    ensures { result ≡ goes_on member.entry }
{
    match member {
        None => false,
        Some(value) => !value.is_null() && !is_blank(value.as_text()),
    }
}

fn list_with(
    alloc: Global,
    tracked: &Tracked,
    name: &Text,
    namespace: &Text,
    metadata: &PackedRef<'_>,
    value: &PackedRef<'_>,
) -> Result<Option<ListRead>, OutOfMemory>
    ensures { IfOk result (λ found. found ≡ list_with tracked.now name.now namespace.now
        metadata.now value.now) }
{
    let Some(revision) = metadata.revision_at("resourceVersion") else {
        return Ok(None);
    };
    let Some(values) = values_or_none(alloc, value.member("items"))? else {
        return Ok(None);
    };
    let Some(items) = read_objects(alloc, tracked, name, namespace, &values)? else {
        return Ok(None);
    };
    let rest = goes_on(metadata.member("continue"));
    Ok(Some(ListRead {
        revision,
        rest,
        items,
    }))
}

/// Reads the answer to a list request (Kubernetes API concepts, "Collections") that a value is, under a
/// path with this name and namespace, of which an empty text is none. Each item is an object of the
/// resource.
pub fn read_list(
    alloc: Global,
    tracked: &Tracked,
    name: &Text,
    namespace: &Text,
    value: &PackedRef<'_>,
) -> Result<Option<ListRead>, OutOfMemory>
    ensures { IfOk result (λ found. found ≡ list_of tracked.now name.now namespace.now value.now) }
{
    let Some(metadata) = value.member("metadata") else {
        return Ok(None);
    };
    if !has_text_at(value, "kind", tracked.list_kind.as_str()) {
        return Ok(None);
    }
    list_with(alloc, tracked, name, namespace, &metadata, value)
}
