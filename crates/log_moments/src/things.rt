ghost use Rattle.std.specs.Prelude.{◌≡◌, ◌≤◌, ◌≤ℤ◌, All, IfOk, IsTrue};
ghost use Rattle.history_model.specs.Events.{is_checkpoint};
ghost use Rattle.history_model.specs.Histories.{History};
ghost use Rattle.history_model.specs.Readable.{IsReadable};
ghost use Rattle.log_moments.specs.Things.{AreThings, IsThingOf};
ghost use Rattle.log_moments.specs.Views.{IsFoundThing, IsLogViewOf};
ghost use Rattle.log_context.specs.Histories.{history_of};
ghost use Rattle.write_groups.specs.Modelled.{event_of};

use crate::nexts::nexts_of;
use crate::numbers::numbers_of;
use crate::view::LogView;
use crate::viewing::view_of;
use base_types::{Listed, OutOfMemory};
use log_context::Context;
use std::alloc::Global;
use strict_order::Thing;
use write_groups::{LogEvent, Reading};

/// Things by line.
pub type Things = Listed<Thing>;

fn is_checkpoint(event: &LogEvent) -> bool
    ensures { result ≡ is_checkpoint (event_of event.now) }
{
    match event.reading {
        Reading::MostRecent => false,
        Reading::AnyVersion => false,
        Reading::NotOlderThan(_) => false,
        Reading::Exactly(_) => false,
        Reading::Checkpoint(_) => true,
    }
}

// The thing that the event of this number is.
fn thing_of(view: &LogView<'_>, number: usize, event: &LogEvent) -> Option<Thing>
    ensures { (h : History) → IsLogViewOf view.now h
        → IsFoundThing (IsThingOf h number (event_of event.now)) result }
{
    if is_checkpoint(event) {
        return None;
    }
    let numbers = numbers_of(view, number, event)?;
    Some(Thing {
        line: event.line,
        lo: event.lo,
        hi: event.hi,
        least: numbers.least,
        greatest: numbers.greatest,
    })
}

fn things_in(alloc: Global, view: &LogView<'_>) -> Result<Vec<Thing>, OutOfMemory>
    ensures things { IfOk result (λ things. (h : History) → IsLogViewOf view.now h → IsReadable h
        → AreThings h things.items) }
    ensures numbers { IfOk result (λ things. (h : History) → IsLogViewOf view.now h
        → All (λ thing. thing.least ≤ thing.greatest) things.items) }
{
    let mut things = Vec::new(alloc);
    for (number, event) in view.log.iter().enumerate() {
        if let Some(thing) = thing_of(view, number, event) {
            things.push(thing)?;
        }
    }
    Ok(things)
}

/// The things of a context's log: its writes, and its reads of versions and of lists, each with the moments of its
/// event and its numbers in the order of revisions.
pub fn things_of(alloc: Global, context: &Context) -> Result<Things, OutOfMemory>
    ensures things { IfOk result (AreThings (history_of context.now)) }
    ensures moments { IfOk result (All (λ thing. thing.lo.0 ≤ℤ thing.hi.0)) }
    ensures numbers { IfOk result (All (λ thing. thing.least ≤ thing.greatest)) }
{
    let nexts = nexts_of(alloc, context.past().versions())?;
    let view = view_of(context, &nexts);
    let things = things_in(alloc, &view)?;
    Ok(Listed::from_vec(things))
}
