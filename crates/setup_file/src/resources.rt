ghost use Rattle.std.specs.Prelude.{◌≡◌, ◌≢◌, IfOk, IfErr, OnErr, IsSome, IsTrue, is_some, codes};
ghost use Rattle.std.specs.Prelude.{map, option_map, option_and_then};
ghost use Rattle.std.specs.List.{list_all, list_any};
ghost use Rattle.std.specs.Result.{result_ok};
ghost use Rattle.base_types.specs.Parts.{member_of, flag_of, items_of};
ghost use Rattle.setup_file.specs.Distinct.{are_distinct, pair_eq};
ghost use Rattle.setup_file.specs.Resources.{merges_as, merges_of, entry_of, entries_in, are_apart, shape_or_root};
ghost use Rattle.setup_file.specs.Resources.{shape_at, has_shape, tracked_of, tracked_in};
ghost use Rattle.setup_file.specs.Reading.{resources_at};
ghost use Rattle.setup_file.specs.Steps.{unless_breaks, IsCause};

use crate::distinct::are_pairs_distinct;
use crate::fault::{SetupFault, SetupRule};
use crate::form::is_form;
use crate::setup::{Subresources, Tracked};
use crate::subresources::subresources_or_none;
use crate::tracked_list::TrackedList;
use crate::values::{flag_of, values_of};
use base_types::{Listed, OutOfMemory, Text};
use hash_seed::Seed;
use packed_tree::PackedRef;
use path_shape::{FieldClass, Shape, ShapeEntries, ShapeFault};
use std::alloc::Global;

/// An entry of `resources`, its shapes and subresources aside.
pub struct Entry {
    pub group: Text,
    pub version: Text,
    pub resource: Text,
    pub kind: Text,
    pub list_kind: Text,
    pub namespaced: bool,
    pub merges: bool,
}

// Written out, so that a function which drops entries makes one call for each.
impl Drop for Entry {
    fn drop(self) {
        let Entry {
            group: _,
            version: _,
            resource: _,
            kind: _,
            list_kind: _,
            namespaced: _,
            merges: _,
        } = self;
    }
}

impl Entry {
    fn into_tracked(self, shape: Shape, subresources: Subresources) -> Tracked
        ensures { result ≡ record {
          group = self.group;
          version = self.version;
          resource = self.resource;
          kind = self.kind;
          list_kind = self.list_kind;
          namespaced = self.namespaced;
          merges = self.merges;
          shape = shape;
          subresources = subresources;
        } }
    {
        let Entry {
            group,
            version,
            resource,
            kind,
            list_kind,
            namespaced,
            merges,
        } = self;
        Tracked {
            group,
            version,
            resource,
            kind,
            list_kind,
            namespaced,
            merges,
            shape,
            subresources,
        }
    }
}

const ENTRY_MEMBERS: [&str; 9] = [
    "group",
    "version",
    "resource",
    "kind",
    "listKind",
    "namespaced",
    "objectPatch",
    "shapes",
    "subresources",
];

fn merges_as(name: &str) -> Option<bool>
    ensures { result ≡ merges_as name.now }
{
    match name {
        "merge" => Some(true),
        "recorded" => Some(false),
        _ => None,
    }
}

fn merges_of(member: Option<PackedRef<'_>>) -> Option<bool>
    ensures { result ≡ merges_of member.entry }
{
    match member {
        Some(value) => merges_as(value.as_text()?),
        None => Some(false),
    }
}

fn namespaced_of(value: &PackedRef<'_>) -> Option<bool>
    ensures { result ≡ option_and_then flag_of (member_of (codes "namespaced") value.now) }
{
    let member = value.member("namespaced")?;
    flag_of(&member)
}

fn entry_with(
    alloc: Global,
    group: &str,
    version: &str,
    resource: &str,
    kind: &str,
    list_kind: &str,
    namespaced: bool,
    merges: bool,
) -> Result<Entry, OutOfMemory>
    ensures { IfOk result (λ entry. entry ≡ record {
      group = group.now;
      version = version.now;
      resource = resource.now;
      kind = kind.now;
      list_kind = list_kind.now;
      namespaced = namespaced;
      merges = merges;
    }) }
{
    Ok(Entry {
        group: Text::from_str(alloc, group)?,
        version: Text::from_str(alloc, version)?,
        resource: Text::from_str(alloc, resource)?,
        kind: Text::from_str(alloc, kind)?,
        list_kind: Text::from_str(alloc, list_kind)?,
        namespaced,
        merges,
    })
}

fn read_entry(alloc: Global, value: &PackedRef<'_>) -> Result<Option<Entry>, OutOfMemory>
    ensures entry { IfOk result (λ found. found ≡ entry_of value.now) }
    ensures memory { OnErr result (IsSome (entry_of value.now)) }
{
    if !is_form(&ENTRY_MEMBERS, value) {
        return Ok(None);
    }
    let Some(group) = value.text_at("group") else {
        return Ok(None);
    };
    let Some(version) = value.filled_at("version") else {
        return Ok(None);
    };
    let Some(resource) = value.filled_at("resource") else {
        return Ok(None);
    };
    let Some(kind) = value.filled_at("kind") else {
        return Ok(None);
    };
    let Some(list_kind) = value.filled_at("listKind") else {
        return Ok(None);
    };
    let Some(namespaced) = namespaced_of(value) else {
        return Ok(None);
    };
    let Some(merges) = merges_of(value.member("objectPatch")) else {
        return Ok(None);
    };
    let entry = entry_with(
        alloc, group, version, resource, kind, list_kind, namespaced, merges,
    )?;
    Ok(Some(entry))
}

fn read_entries(alloc: Global, values: &[PackedRef<'_>]) -> Result<Option<Vec<Entry>>, OutOfMemory>
    ensures { IfOk result (λ found. option_map (λ entries. entries.items) found
        ≡ entries_in values.now) }
{
    let mut entries = Vec::new(alloc);
    for value in values {
        let Some(entry) = read_entry(alloc, value)? else {
            return Ok(None);
        };
        entries.push(entry)?;
    }
    Ok(Some(entries))
}

fn have_distinct_resources(
    alloc: Global,
    entries: &[Entry],
    seed: Seed,
) -> Result<bool, OutOfMemory>
    ensures { IfOk result (λ have. have ≡ are_distinct pair_eq
        (map (λ entry. (entry.group, entry.resource)) entries.now)) }
{
    let mut pairs = Vec::with_capacity(alloc, entries.len())?;
    for entry in entries {
        pairs.push((&entry.group, &entry.resource))?;
    }
    are_pairs_distinct(alloc, &pairs, seed)
}

fn have_distinct_kinds(alloc: Global, entries: &[Entry], seed: Seed) -> Result<bool, OutOfMemory>
    ensures { IfOk result (λ have. have ≡ are_distinct pair_eq
        (map (λ entry. (entry.group, entry.kind)) entries.now)) }
{
    let mut pairs = Vec::with_capacity(alloc, entries.len())?;
    for entry in entries {
        pairs.push((&entry.group, &entry.kind))?;
    }
    are_pairs_distinct(alloc, &pairs, seed)
}

// Whether no two entries have one group and resource, or one group and kind.
fn are_apart(alloc: Global, entries: &[Entry], seed: Seed) -> Result<bool, OutOfMemory>
    ensures { IfOk result (λ are. are ≡ are_apart entries.now) }
{
    Ok(have_distinct_resources(alloc, entries, seed)? && have_distinct_kinds(alloc, entries, seed)?)
}

// Whether the entries are apart, where each is in its form.
fn are_entries_apart(
    alloc: Global,
    values: &[PackedRef<'_>],
    seed: Seed,
) -> Result<Option<bool>, OutOfMemory>
    ensures { IfOk result (λ apart. apart ≡ option_map are_apart (entries_in values.now)) }
{
    let Some(entries) = read_entries(alloc, values)? else {
        return Ok(None);
    };
    Ok(Some(are_apart(alloc, &entries, seed)?))
}

// The shape that was read, or none where the list isn't in its form.
fn formed(read: Result<Shape, ShapeFault>) -> Result<Option<Shape>, OutOfMemory>
    ensures shape { IfOk result (λ found. (found ≡ result_ok read)
        × (read ≢ Err ShapeFault.OutOfMemory)) }
    ensures memory { OnErr result (read ≡ Err ShapeFault.OutOfMemory) }
{
    match read {
        Ok(shape) => Ok(Some(shape)),
        Err(ShapeFault::NotList) => Ok(None),
        Err(ShapeFault::Entry { .. }) => Ok(None),
        Err(ShapeFault::OutOfMemory) => Err(OutOfMemory),
    }
}

fn shape_or_root(
    alloc: Global,
    root: FieldClass,
    member: Option<PackedRef<'_>>,
) -> Result<Option<Shape>, OutOfMemory>
    ensures shape { IfOk result (λ found. found ≡ shape_or_root root member.entry) }
    ensures memory { OnErr result (IsSome member.entry) }
{
    let Some(member) = member else {
        let entries = ShapeEntries::new(alloc);
        return Ok(Some(Shape { root, entries }));
    };
    let list = member.tree(alloc)?;
    formed(Shape::read(alloc, &list, root))
}

pub fn shape_at(
    alloc: Global,
    root: FieldClass,
    value: &PackedRef<'_>,
) -> Result<Option<Shape>, OutOfMemory>
    ensures shape { IfOk result (λ found. found ≡ shape_at root value.now) }
    ensures memory { OnErr result (IsSome (member_of (codes "shapes") value.now)) }
{
    shape_or_root(alloc, root, value.member("shapes"))
}

// Whether the shape of each entry is in its form.
fn have_shapes(alloc: Global, values: &[PackedRef<'_>]) -> Result<bool, OutOfMemory>
    ensures have { IfOk result (λ have. have ≡ list_all has_shape values.now) }
    ensures memory { OnErr result (IsTrue (list_any
        (λ value. is_some (member_of (codes "shapes") value)) values.now)) }
{
    for value in values {
        if shape_at(alloc, FieldClass::Asked, value)?.is_none() {
            return Ok(false);
        }
    }
    Ok(true)
}

fn read_tracked(
    alloc: Global,
    value: &PackedRef<'_>,
    seed: Seed,
) -> Result<Option<Tracked>, OutOfMemory>
    ensures tracked { IfOk result (λ found. found ≡ tracked_of value.now) }
    ensures memory { OnErr result (IsSome (entry_of value.now)) }
{
    let Some(entry) = read_entry(alloc, value)? else {
        return Ok(None);
    };
    let Some(shape) = shape_at(alloc, FieldClass::Asked, value)? else {
        return Ok(None);
    };
    let Some(subresources) = subresources_or_none(alloc, value.member("subresources"), seed)? else {
        return Ok(None);
    };
    Ok(Some(entry.into_tracked(shape, subresources)))
}

fn read_all_tracked(
    alloc: Global,
    values: &[PackedRef<'_>],
    seed: Seed,
) -> Result<Option<Listed<Tracked>>, OutOfMemory>
    ensures { IfOk result (λ found. found ≡ tracked_in values.now) }
{
    let mut resources = Listed::new(alloc);
    for value in values {
        let Some(tracked) = read_tracked(alloc, value, seed)? else {
            return Ok(None);
        };
        resources.push(tracked)?;
    }
    Ok(Some(resources))
}

// The rule is broken where its test fails. Its type has no want of memory.
fn unless_breaks(rule: SetupRule, holds: bool) -> Result<(), SetupRule>
    ensures { result ≡ unless_breaks rule holds (Ok tt) }
{
    if holds { Ok(()) } else { Err(rule) }
}

/// The resources of a setup. All entries are in their form before any two are compared, and so on.
pub fn read_resources(
    alloc: Global,
    value: &PackedRef<'_>,
    seed: Seed,
) -> Result<TrackedList, SetupFault>
    ensures resources { IfOk result (λ resources. resources_at value.now ≡ Ok resources) }
    ensures cause { IfErr result (IsCause (resources_at value.now)) }
    ensures memory { result ≡ Err SetupFault.OutOfMemory → IsSome
        (option_and_then items_of (member_of (codes "resources") value.now)) }
{
    let Some(member) = value.member("resources") else {
        return Err(SetupFault::Rule(SetupRule::S8));
    };
    let Some(list) = member.as_items() else {
        return Err(SetupFault::Rule(SetupRule::S8));
    };
    let values = values_of(alloc, list)?;
    let apart = are_entries_apart(alloc, &values, seed)?.ok_or(SetupRule::S8)?;
    unless_breaks(SetupRule::S9, apart)?;
    unless_breaks(SetupRule::S10, have_shapes(alloc, &values)?)?;
    let resources = read_all_tracked(alloc, &values, seed)?.ok_or(SetupRule::S11)?;
    Ok(TrackedList::of(alloc, resources.into_vec())?)
}
