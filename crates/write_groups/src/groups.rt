ghost use Rattle.std.specs.Prelude.{◌≡◌, ◌≤◌, ◌<◌, ◌++◌, [], ◌∷◌, ℕ, List, IfOk, OnOk, All, AllPairs, option_map};
ghost use Rattle.std.specs.BTreeMap.{Updates};
ghost use Rattle.std.specs.Ordering.{nat_cmp};
ghost use Rattle.history_model.specs.Histories.{History};
ghost use Rattle.history_model.specs.Judging.{IsOrder};
ghost use Rattle.write_groups.specs.Grouped.{made_item, item_at, is_of_key, members_of, group_in, numbers_at};
ghost use Rattle.write_groups.specs.Grouped.{number_if, revision_above, AreGathered, AreGroups, AreWrites};
ghost use Rattle.write_groups.specs.Members.{AreGroupsOf};
ghost use Rattle.write_groups.specs.Modelled.{HasEvents};

use crate::event::{Item, LogEvent, Shown};
use base_types::{Listed, ObjectKey, OutOfMemory, Revision};
use std::alloc::Global;
use std::collections::BTreeMap;

/// Numbers of events.
pub type Numbers = Listed<u32>;

/// The writes of one key that were answered with one revision above the start.
#[derive(Drop)]
pub struct Group {
    pub revision: Revision,
    /// The key of the first write in the order of judgement that was answered with the revision.
    pub key: ObjectKey,
    /// The writes of the key, in the order of judgement; there is at least one.
    pub members: Numbers,
}

/// Groups by revision.
pub type Groups = Listed<Group>;

/// The object that a write was answered with; None for other events.
pub fn made_item(event: &LogEvent) -> Option<&Item>
    ensures { option_map (λ item. item.now) result ≡ made_item event.now }
{
    match &event.answer {
        Shown::Made { item, .. } => Some(item),
        _ => None,
    }
}

fn item_at(events: &[LogEvent], number: u32) -> Option<&Item>
    ensures { option_map (λ item. item.now) result ≡ item_at events.now number }
{
    made_item(events.get(number as usize)?)
}

// One number more at the revision.
fn add(
    alloc: Global,
    made: &mut BTreeMap<u64, Numbers>,
    revision: u64,
    number: u32,
) -> Result<(), OutOfMemory>
    ensures { OnOk result ((other : ℕ) → numbers_at made.new other
        ≡ numbers_at made.old other ++ number_if revision number other) }
{
    match made.get_mut(&revision) {
        Some(numbers) => {
            numbers.push(number)?;
            return Ok(());
        }
        None => {
            let mut numbers = Numbers::new(alloc);
            numbers.push(number)?;
            let _none = made.insert(revision, numbers)?;
        }
    }
    Ok(())
}

// The revision above the start that a write was answered with.
fn revision_above(start: Revision, events: &[LogEvent], number: u32) -> Option<u64>
    ensures { result ≡ revision_above start events.now number }
{
    let item = item_at(events, number)?;
    if start.get() < item.revision.get() {
        return Some(item.revision.get());
    }
    None
}

// The writes above the start by their revision, those of one revision in order.
fn gather(
    alloc: Global,
    start: Revision,
    events: &[LogEvent],
    order: &[u32],
) -> Result<BTreeMap<u64, Numbers>, OutOfMemory>
    ensures { IfOk result (AreGathered start events.now order.now) }
{
    let mut made = BTreeMap::new(alloc);
    for number in order {
        if let Some(revision) = revision_above(start, events, *number) {
            add(alloc, &mut made, revision, *number)?;
        }
    }
    Ok(made)
}

fn is_of_key(events: &[LogEvent], key: &ObjectKey, number: u32) -> bool
    ensures { result ≡ is_of_key events.now key.now number }
{
    match item_at(events, number) {
        Some(item) => item.key == *key,
        None => false,
    }
}

fn members_of(
    alloc: Global,
    events: &[LogEvent],
    key: &ObjectKey,
    numbers: &[u32],
) -> Result<Numbers, OutOfMemory>
    ensures { IfOk result (λ members. members ≡ members_of events.now key.now numbers.now) }
{
    let mut members = Numbers::new(alloc);
    for number in numbers {
        if is_of_key(events, key, *number) {
            members.push(*number)?;
        }
    }
    Ok(members)
}

// The group among the writes that were answered with one revision, in order; the others are strays.
fn group_in(
    alloc: Global,
    events: &[LogEvent],
    numbers: &[u32],
) -> Result<Option<Group>, OutOfMemory>
    ensures { IfOk result (λ group. group ≡ group_in events.now numbers.now) }
{
    let Some(first) = numbers.first() else {
        return Ok(None);
    };
    let Some(item) = item_at(events, *first) else {
        return Ok(None);
    };
    Ok(Some(Group {
        revision: item.revision,
        key: item.key.clone()?,
        members: members_of(alloc, events, &item.key, numbers)?,
    }))
}

// The group of each revision.
fn group_each(
    alloc: Global,
    events: &[LogEvent],
    made: &BTreeMap<u64, Numbers>,
) -> Result<Groups, OutOfMemory>
    ensures { IfOk result (λ groups. (start : ℕ) (order : List ℕ)
        → AreGathered start events.now order made.now → AreGroups start events.now order groups) }
{
    let mut groups = Groups::new(alloc);
    for numbers in made.values() {
        if let Some(group) = group_in(alloc, events, numbers.as_slice())? {
            groups.push(group)?;
        }
    }
    Ok(groups)
}

/// The groups of all revisions above the start that writes were answered with.
pub fn groups_of(
    alloc: Global,
    start: Revision,
    events: &[LogEvent],
    order: &[u32],
) -> Result<Groups, OutOfMemory>
    ensures rising { IfOk result (λ groups. AllPairs (λ a b. a.revision < b.revision) groups) }
    ensures above { IfOk result (λ groups. All (λ group. start < group.revision) groups) }
    ensures members { IfOk result (λ groups. All
        (λ group. AreWrites events.now group.members) groups) }
    ensures groups { IfOk result (λ groups. (h : History) → HasEvents events.now h → h.start ≡ start
        → h.order ≡ order.now → IsOrder h → AreGroupsOf h groups) }
{
    let made = gather(alloc, start, events, order)?;
    group_each(alloc, events, &made)
}
