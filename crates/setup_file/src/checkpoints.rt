ghost use Rattle.std.specs.Prelude.{◌≡◌, ◌≤◌, ◌||◌, ◌&&◌, ◌++◌, length, IfOk, OnErr, IsSome, codes, decimal};
ghost use Rattle.std.specs.Prelude.{option_and_then};
ghost use Rattle.base_types.specs.Parts.{items_of};
ghost use Rattle.setup_file.specs.Checkpoints.{is_no_text, is_whole_at, checkpoint_of, checkpoints_from};
ghost use Rattle.setup_file.specs.Checkpoints.{few_checkpoints, checkpoints_of};
ghost use Rattle.setup_file.specs.Parts.{fit_list_of};

use crate::form::is_form;
use crate::lists::{ListRead, read_list};
use crate::setup::{Checkpoint, Checkpoints, Tracked};
use crate::tracked_list::TrackedList;
use crate::values::values_of;
use base_types::{OutOfMemory, Revision, Text};
use packed_tree::PackedRef;
use std::alloc::Global;

/// The most checkpoints that a setup may have.
const MOST_CHECKPOINTS: usize = 10_000;

// The list is whole, and it isn't older than the log.
fn is_whole_at(start: Revision, list: &ListRead) -> bool
    ensures { result ≡ is_whole_at start list.now }
{
    !list.rest && start.get() <= list.revision.get()
}

// Whether a list is one that a checkpoint may have.
fn is_fit(namespace: &str, tracked: &Tracked, start: Revision, list: &ListRead) -> bool
    ensures { result ≡ ((is_no_text namespace.now || tracked.now.namespaced) && is_whole_at
        start list.now) }
{
    (namespace.is_empty() || tracked.namespaced) && is_whole_at(start, list)
}

// The name of a checkpoint, and what it is a list of.
struct Label {
    name: Text,
    group: Text,
    resource: Text,
    namespace: Text,
}

impl Label {
    fn into_checkpoint(self, list: ListRead) -> Checkpoint
        ensures { result ≡ record {
          name = self.name;
          group = self.group;
          resource = self.resource;
          namespace = self.namespace;
          revision = list.revision;
          items = list.items;
        } }
    {
        let Label {
            name,
            group,
            resource,
            namespace,
        } = self;
        Checkpoint {
            name,
            group,
            resource,
            namespace,
            revision: list.revision,
            items: list.items,
        }
    }
}

fn name_of(alloc: Global, number: usize) -> Result<Text, OutOfMemory>
    ensures { IfOk result (λ name. name ≡ codes "checkpoint:" ++ decimal number) }
{
    Ok(Text::from_string(format!(in alloc; "checkpoint:{number}")?))
}

fn label_of(
    alloc: Global,
    number: usize,
    group: &str,
    resource: &str,
    namespace: &str,
) -> Result<Label, OutOfMemory>
    ensures { IfOk result (λ label. label ≡ record {
      name = codes "checkpoint:" ++ decimal number;
      group = group.now;
      resource = resource.now;
      namespace = namespace.now;
    }) }
{
    Ok(Label {
        name: name_of(alloc, number)?,
        group: Text::from_str(alloc, group)?,
        resource: Text::from_str(alloc, resource)?,
        namespace: Text::from_str(alloc, namespace)?,
    })
}

// Reads a list that a checkpoint may have.
fn read_fit_list(
    alloc: Global,
    start: Revision,
    tracked: &Tracked,
    namespace: &str,
    value: &PackedRef<'_>,
) -> Result<Option<ListRead>, OutOfMemory>
    ensures { IfOk result (λ found. found ≡ fit_list_of start tracked.now namespace.now value.now) }
{
    let under = Text::from_str(alloc, namespace)?;
    let Some(list) = read_list(alloc, tracked, &Text::new(alloc), &under, value)? else {
        return Ok(None);
    };
    if !is_fit(namespace, tracked, start, &list) {
        return Ok(None);
    }
    Ok(Some(list))
}

fn read_checkpoint(
    alloc: Global,
    start: Revision,
    resources: &TrackedList,
    number: usize,
    value: &PackedRef<'_>,
) -> Result<Option<Checkpoint>, OutOfMemory>
    ensures { IfOk result (λ found. found ≡ checkpoint_of start resources.now number value.now) }
{
    if !is_form(&["group", "resource", "namespace", "list"], value) {
        return Ok(None);
    }
    let Some(group) = value.text_at("group") else {
        return Ok(None);
    };
    let Some(resource) = value.text_at("resource") else {
        return Ok(None);
    };
    let Some(namespace) = value.text_at("namespace") else {
        return Ok(None);
    };
    let Some(tracked) = resources.find_named(alloc, group, resource)? else {
        return Ok(None);
    };
    let Some(member) = value.member("list") else {
        return Ok(None);
    };
    let Some(list) = read_fit_list(alloc, start, tracked, namespace, &member)? else {
        return Ok(None);
    };
    let label = label_of(alloc, number, group, resource, namespace)?;
    Ok(Some(label.into_checkpoint(list)))
}

fn read_entries(
    alloc: Global,
    start: Revision,
    resources: &TrackedList,
    values: &[PackedRef<'_>],
) -> Result<Option<Checkpoints>, OutOfMemory>
    requires { length values.now ≤ 10_000 }
    ensures { IfOk result (λ found. found ≡ checkpoints_from start resources.now 1 values.now) }
{
    let mut checkpoints = Checkpoints::new(alloc);
    for (i, value) in values.iter().enumerate() {
        let Some(checkpoint) = read_checkpoint(alloc, start, resources, i + 1, value)? else {
            return Ok(None);
        };
        checkpoints.push(checkpoint)?;
    }
    Ok(Some(checkpoints))
}

/// Reads the checkpoints of a setup, at most 10,000: whole lists of tracked resources, at the start or
/// later.
pub fn read_checkpoints(
    alloc: Global,
    start: Revision,
    resources: &TrackedList,
    member: Option<PackedRef<'_>>,
) -> Result<Option<Checkpoints>, OutOfMemory>
    ensures checkpoints { IfOk result (λ found. found ≡ checkpoints_of start resources.now
        member.entry) }
    ensures memory { OnErr result (IsSome (option_and_then items_of member.entry)) }
{
    let Some(member) = member else {
        return Ok(Some(Checkpoints::new(alloc)));
    };
    let Some(list) = member.as_items() else {
        return Ok(None);
    };
    let values = values_of(alloc, list)?;
    if values.len() > MOST_CHECKPOINTS {
        return Ok(None);
    }
    read_entries(alloc, start, resources, &values)
}
