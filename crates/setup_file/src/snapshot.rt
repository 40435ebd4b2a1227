ghost use Rattle.std.specs.Prelude.{◌≡◌, ◌==◌, IfOk, IfErr, IsSome, map, option_map, option_and_then, bytes_eq};
ghost use Rattle.std.specs.Prelude.{nat_le, codes};
ghost use Rattle.std.specs.List.{list_all};
ghost use Rattle.base_types.specs.Parts.{member_of, items_of};
ghost use Rattle.setup_file.specs.Distinct.{are_distinct, key_eq};
ghost use Rattle.setup_file.specs.Snapshots.{own_namespace, may_be_kind, snapshot_object_of, snapshot_entry_of};
ghost use Rattle.setup_file.specs.Snapshots.{snapshot_in, are_at_start};
ghost use Rattle.setup_file.specs.Reading.{snapshot_at};
ghost use Rattle.setup_file.specs.Steps.{IsCause};

use crate::distinct::{are_keys_distinct, are_revisions_distinct, are_texts_distinct};
use crate::fault::{SetupFault, SetupRule};
use crate::form::is_form;
use crate::objects::{has_no, has_text_at, object_with};
use crate::setup::{Snapshot, SnapshotObject, Tracked};
use crate::tracked_list::TrackedList;
use crate::values::values_of;
use base_types::{OutOfMemory, Revision};
use hash_seed::Seed;
use packed_tree::PackedRef;
use std::alloc::Global;

// The namespace of an object: one of a namespaced resource has one, and one of a cluster-wide resource none.
fn own_namespace<'a>(tracked: &Tracked, metadata: &PackedRef<'a>) -> Option<&'a str>
    ensures { option_map (λ text. text.now) result ≡ own_namespace tracked.now metadata.now }
{
    if tracked.namespaced {
        return metadata.filled_at("namespace");
    }
    match metadata.filled_at("namespace") {
        Some(_) => None,
        None => Some(""),
    }
}

// `kind` may be absent.
fn may_be_kind(tracked: &Tracked, value: &PackedRef<'_>) -> bool
    ensures { result ≡ may_be_kind tracked.now value.now }
{
    has_no(value, "kind") || has_text_at(value, "kind", tracked.kind.as_str())
}

fn read_object(
    alloc: Global,
    tracked: &Tracked,
    value: &PackedRef<'_>,
) -> Result<Option<SnapshotObject>, OutOfMemory>
    ensures { IfOk result (λ found. found ≡ snapshot_object_of tracked.now value.now) }
{
    let Some(metadata) = value.member("metadata") else {
        return Ok(None);
    };
    let Some(name) = metadata.filled_at("name") else {
        return Ok(None);
    };
    let Some(uid) = metadata.filled_at("uid") else {
        return Ok(None);
    };
    let Some(revision) = metadata.revision_at("resourceVersion") else {
        return Ok(None);
    };
    let Some(namespace) = own_namespace(tracked, &metadata) else {
        return Ok(None);
    };
    if !may_be_kind(tracked, value) {
        return Ok(None);
    }
    let object = object_with(alloc, tracked, namespace, name, uid, revision, value)?;
    Ok(Some(object))
}

fn read_entry(
    alloc: Global,
    resources: &TrackedList,
    value: &PackedRef<'_>,
) -> Result<Option<SnapshotObject>, OutOfMemory>
    ensures { IfOk result (λ found. found ≡ snapshot_entry_of resources.now value.now) }
{
    if !is_form(&["group", "resource", "object"], value) {
        return Ok(None);
    }
    let Some(group) = value.text_at("group") else {
        return Ok(None);
    };
    let Some(resource) = value.text_at("resource") else {
        return Ok(None);
    };
    let Some(tracked) = resources.find_named(alloc, group, resource)? else {
        return Ok(None);
    };
    let Some(object) = value.member("object") else {
        return Ok(None);
    };
    read_object(alloc, tracked, &object)
}

fn read_entries(
    alloc: Global,
    resources: &TrackedList,
    values: &[PackedRef<'_>],
) -> Result<Option<Snapshot>, OutOfMemory>
    ensures { IfOk result (λ found. found ≡ snapshot_in resources.now values.now) }
{
    let mut objects = Snapshot::new(alloc);
    for value in values {
        let Some(object) = read_entry(alloc, resources, value)? else {
            return Ok(None);
        };
        objects.push(object)?;
    }
    Ok(Some(objects))
}

fn have_distinct_keys(
    alloc: Global,
    objects: &[SnapshotObject],
    seed: Seed,
) -> Result<bool, OutOfMemory>
    ensures { IfOk result (λ have. have ≡ are_distinct key_eq
        (map (λ object. object.key) objects.now)) }
{
    let mut keys = Vec::with_capacity(alloc, objects.len())?;
    for object in objects {
        keys.push(&object.key)?;
    }
    are_keys_distinct(alloc, &keys, seed)
}

fn have_distinct_uids(
    alloc: Global,
    objects: &[SnapshotObject],
    seed: Seed,
) -> Result<bool, OutOfMemory>
    ensures { IfOk result (λ have. have ≡ are_distinct bytes_eq
        (map (λ object. object.uid) objects.now)) }
{
    let mut uids = Vec::with_capacity(alloc, objects.len())?;
    for object in objects {
        uids.push(&object.uid)?;
    }
    are_texts_distinct(alloc, &uids, seed)
}

fn have_distinct_revisions(
    alloc: Global,
    objects: &[SnapshotObject],
    seed: Seed,
) -> Result<bool, OutOfMemory>
    ensures { IfOk result (λ have. have ≡ are_distinct (λ a b. a == b)
        (map (λ object. object.revision) objects.now)) }
{
    let mut revisions = Vec::with_capacity(alloc, objects.len())?;
    for object in objects {
        revisions.push(&object.revision)?;
    }
    are_revisions_distinct(alloc, &revisions, seed)
}

fn are_below(start: Revision, objects: &[SnapshotObject]) -> bool
    ensures { result ≡ list_all (λ object. nat_le object.revision start) objects.now }
{
    objects
        .iter()
        .all(|object| object.revision.get() <= start.get())
}

// Whether no two objects have one key, uid or revision, and none is above the start.
fn are_at_start(
    alloc: Global,
    start: Revision,
    objects: &[SnapshotObject],
    seed: Seed,
) -> Result<bool, OutOfMemory>
    ensures { IfOk result (λ are. are ≡ are_at_start start objects.now) }
{
    let keys = have_distinct_keys(alloc, objects, seed)?;
    let uids = have_distinct_uids(alloc, objects, seed)?;
    let revisions = have_distinct_revisions(alloc, objects, seed)?;
    Ok(keys && uids && revisions && are_below(start, objects))
}

/// The objects that were there at the start.
pub fn read_snapshot(
    alloc: Global,
    start: Revision,
    resources: &TrackedList,
    value: &PackedRef<'_>,
    seed: Seed,
) -> Result<Snapshot, SetupFault>
    ensures snapshot { IfOk result (λ snapshot. snapshot_at start resources.now value.now
        ≡ Ok snapshot) }
    ensures cause { IfErr result (IsCause (snapshot_at start resources.now value.now)) }
    ensures memory { result ≡ Err SetupFault.OutOfMemory → IsSome
        (option_and_then items_of (member_of (codes "snapshot") value.now)) }
{
    let Some(member) = value.member("snapshot") else {
        return Err(SetupFault::Rule(SetupRule::S12));
    };
    let Some(list) = member.as_items() else {
        return Err(SetupFault::Rule(SetupRule::S12));
    };
    let values = values_of(alloc, list)?;
    let Some(objects) = read_entries(alloc, resources, &values)? else {
        return Err(SetupFault::Rule(SetupRule::S12));
    };
    if !are_at_start(alloc, start, objects.as_slice(), seed)? {
        return Err(SetupFault::Rule(SetupRule::S13));
    }
    Ok(objects)
}
