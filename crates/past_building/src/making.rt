ghost use Rattle.std.specs.Prelude.{◌≡◌, ◌↔◌, ◌||◌, true, IfOk, IsTrue, is_some, option_map};
ghost use Rattle.history_model.specs.Histories.{History};
ghost use Rattle.history_model.specs.Making.{IsUsedUid, IsLeastFault};
ghost use Rattle.write_groups.specs.Modelled.{HasTimes};
ghost use Rattle.object_past.specs.Faulted.{IsLeastFoundFault};
ghost use Rattle.past_building.specs.Chosen.{finding_at};
ghost use Rattle.past_building.specs.Faults.{meets, is_other, node_of, clear_code, found_code, IsOutside};
ghost use Rattle.object_past.specs.Modelled.{version_of};
ghost use Rattle.past_building.specs.Modelled.{making_of};
ghost use Rattle.past_building.specs.Surrounded.{IsJudgedBy};
ghost use Rattle.past_building.specs.Written.{making_at};

use crate::bodies::Bodies;
use base_types::{OutOfMemory, Reason, Revision, Text};
use clouds::Clouds;
use node_number::NodeId;
use object_past::Version;
use std::alloc::Global;
use time_windows::Windows;
use write_groups::{Item, LogEvent, Preconditions, Shown, highest, lowest};

/// A write, and the object that it was answered with.
#[derive(Clone, Copy)]
pub struct Making<'a> {
    pub number: u32,
    pub event: &'a LogEvent,
    pub item: &'a Item,
    /// Whether the answer was `201 Created`.
    pub created: bool,
}

/// The write of this number; None for an event that is no write.
pub fn making_at(events: &[LogEvent], number: u32) -> Option<Making<'_>>
    ensures { option_map making_of result ≡ making_at events.now number }
{
    let event = events.get(number as usize)?;
    match &event.answer {
        Shown::Made { item, created } => Some(Making {
            number,
            event,
            item,
            created: *created,
        }),
        _ => None,
    }
}

// Whether the object meets the preconditions; no object meets those that ask for nothing.
fn meets(asked: &Preconditions, before: Option<&Version>) -> bool
    ensures { result ≡ meets asked.now (option_map (λ v. v.now) before.entry) }
{
    match before {
        Some(version) => asked.are_met(version.revision, &version.uid),
        None => asked.revision.is_none() && asked.uid.is_none(),
    }
}

// Whether the object before the write is another one than the write was answered with, or none.
fn is_other(item: &Item, before: Option<&Version>) -> bool
    ensures { result ≡ is_other item.now (option_map (λ v. v.now) before.entry) }
{
    match before {
        Some(version) => version.uid != item.uid,
        None => true,
    }
}

fn node_of(before: Option<&Version>) -> Option<NodeId>
    ensures { option_map (λ node. node.0) result ≡ node_of (option_map (λ v. v.now) before.entry) }
{
    Some(before?.node)
}

// Whether the write can't have made its revision between its moments.
fn is_out_of_reach(windows: &Windows, making: Making<'_>) -> bool
    ensures { (h : History) → HasTimes windows.now h
        → IsTrue result ↔ IsOutside h (making_of making.entry) }
{
    let revision = making.item.revision.get();
    revision <= lowest(windows, making.event.lo) || highest(windows, making.event.hi) < revision
}

// Why a write could not have made its revision from the object before it, where its key isn't clouded; `is_used` tells
// whether an earlier version has the uid.
fn clear_fault<B: Bodies>(
    alloc: Global,
    bodies: &B,
    making: Making<'_>,
    is_used: bool,
    before: Option<&Version>,
) -> Result<Option<Reason>, OutOfMemory>
    ensures { IfOk result (λ found. found ≡ clear_code (B.body bodies.now) making.entry.number
        making.entry.event.now making.entry.item.now making.entry.created is_used
        (option_map (λ v. v.now) before.entry)) }
{
    if making.created {
        if before.is_some() {
            return Ok(Some(Reason::U4));
        }
        if is_used {
            return Ok(Some(Reason::U5));
        }
    } else if is_other(making.item, before) {
        return Ok(Some(Reason::U6));
    }
    if !meets(&making.event.preconditions, before) {
        return Ok(Some(Reason::U7));
    }
    if !bodies.is_right(alloc, making.number, node_of(before))? {
        return Ok(Some(Reason::U8));
    }
    Ok(None)
}

/// The least fault by which a write could not have made its revision, `before` being the object that was there before
/// it; None where it could. `is_used` tells of a write that created its object whether an earlier version has the uid;
/// of others it isn't asked.
pub fn making_fault<B: Bodies>(
    alloc: Global,
    windows: &Windows,
    clouds: &Clouds,
    bodies: &B,
    making: Making<'_>,
    is_used: bool,
    before: Option<&Version>,
) -> Result<Option<Reason>, OutOfMemory>
    ensures { IfOk result (λ found. (h : History) → HasTimes windows.now h
        → IsJudgedBy clouds.now (B.body bodies.now) h
        → (making.entry.created ≡ true → IsTrue is_used ↔ IsUsedUid h (making_of making.entry))
        → IsLeastFault h (making_of making.entry) (option_map (λ v. version_of v.now) before.entry)
        found) }
{
    if is_out_of_reach(windows, making) {
        return Ok(Some(Reason::U3));
    }
    if clouds.clouded(&making.item.key, making.item.revision.get() - 1) {
        if making.created && is_used {
            return Ok(Some(Reason::U5));
        }
        return Ok(None);
    }
    clear_fault(alloc, bodies, making, is_used, before)
}

// Why a write could not have found its answer and left it as it was.
fn found_fault<B: Bodies>(
    alloc: Global,
    bodies: &B,
    making: Making<'_>,
) -> Result<Option<Reason>, OutOfMemory>
    ensures { IfOk result
        (λ found. found ≡ found_code (B.body bodies.now) (making_of making.entry)) }
{
    if making.created {
        return Ok(Some(Reason::U4));
    }
    let item = making.item;
    if !making.event.preconditions.are_met(item.revision, &item.uid) {
        return Ok(Some(Reason::U7));
    }
    if !bodies.is_right(alloc, making.number, Some(item.node))? {
        return Ok(Some(Reason::U8));
    }
    Ok(None)
}

/// The least fault by which a write could not have found its answer and left it as it was; None where it could.
pub fn finding_fault<B: Bodies>(
    alloc: Global,
    bodies: &B,
    making: Making<'_>,
) -> Result<Option<Reason>, OutOfMemory>
    ensures { IfOk result (λ found. (h : History) → h.body ≡ B.body bodies.now
        → IsLeastFoundFault h (making_of making.entry) found) }
{
    found_fault(alloc, bodies, making)
}

/// Why the write of this number could not have found its answer and left it as it was; None also for an event that is
/// no write.
pub fn finding_at<B: Bodies>(
    alloc: Global,
    bodies: &B,
    events: &[LogEvent],
    number: u32,
) -> Result<Option<Reason>, OutOfMemory>
    ensures { IfOk result (λ found. found ≡ finding_at (B.body bodies.now) events.now number) }
{
    match making_at(events, number) {
        Some(making) => found_fault(alloc, bodies, making),
        None => Ok(None),
    }
}
