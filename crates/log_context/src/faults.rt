ghost use Rattle.std.specs.Prelude.{◌≡◌, ◌<◌, ◌^◌, ◌↔◌, length, IfOk, IsTrue};
ghost use Rattle.history_model.specs.Groups.{IsMaking};
ghost use Rattle.history_model.specs.Histories.{History, IsEvent};
ghost use Rattle.history_model.specs.Readable.{IsReadable};
ghost use Rattle.object_past.specs.Faulted.{AreFaults, IsFaultOf};
ghost use Rattle.object_past.specs.Past.{HasPast};
ghost use Rattle.past_building.specs.Modelled.{making_of};
ghost use Rattle.write_groups.specs.Modelled.{HasEvents, event_of};
ghost use Rattle.log_context.specs.Makings.{AreMakersCodes, AreMakingsOf, making_code};

use base_types::{ObjectKey, OutOfMemory, Reason, Revision};
use object_past::{Maker, Past, Version};
use past_building::{Bodies, JudgedWrite, Making, finding_fault};
use std::alloc::Global;
use std::collections::BTreeMap;
use write_groups::{LogEvent, Shown};

/// Why writes could not have made their revisions, by the numbers of their events.
pub type Makings = BTreeMap<u32, Option<Reason>>;

/// The codes of writes that were judged.
pub fn makings_of(alloc: Global, judged: &[JudgedWrite]) -> Result<Makings, OutOfMemory>
    ensures { IfOk result (AreMakingsOf judged.now) }
{
    let mut makings = Makings::new(alloc);
    for one in judged {
        let _before = makings.insert(one.number, one.making)?;
    }
    Ok(makings)
}

fn making_code(makings: &Makings, number: u32) -> Option<Reason>
    ensures { result ≡ making_code makings.now number }
{
    match makings.get(&number) {
        Some(code) => *code,
        None => None,
    }
}

fn is_of(version: &Version, key: &ObjectKey) -> bool
    ensures { IsTrue result ↔ (version.now.key ≡ key.now) }
{
    version.key == *key
}

fn is_maker(version: &Version, number: u32) -> bool
    ensures { IsTrue result ↔ (version.now.maker ≡ Maker.Event number) }
{
    version.maker == Maker::Event(number)
}

// Why a write could not have made its revision, where it is the maker, or could not have found it; U3 for a write of
// another key.
fn write_fault<B: Bodies>(
    alloc: Global,
    bodies: &B,
    start: Revision,
    past: &Past,
    makings: &Makings,
    making: Making<'_>,
) -> Result<Option<Reason>, OutOfMemory>
    ensures { IfOk result (λ fault. (h : History) → IsReadable h → h.start ≡ start
        → h.body ≡ B.body bodies.now → HasPast past.now h
        → AreMakersCodes h makings.now → IsMaking h (making_of making.entry)
        → IsFaultOf h making.entry.number (event_of making.entry.event.now) fault) }
{
    let revision = making.item.revision.get();
    if revision <= start.get() {
        return finding_fault(alloc, bodies, making);
    }
    let Some(version) = past.at(revision) else {
        return finding_fault(alloc, bodies, making);
    };
    if !is_of(version, &making.item.key) {
        return Ok(Some(Reason::U3));
    }
    if is_maker(version, making.number) {
        return Ok(making_code(makings, making.number));
    }
    finding_fault(alloc, bodies, making)
}

// The fault of the event of this number.
fn event_fault<B: Bodies>(
    alloc: Global,
    bodies: &B,
    start: Revision,
    past: &Past,
    makings: &Makings,
    number: u32,
    event: &LogEvent,
) -> Result<Option<Reason>, OutOfMemory>
    ensures { IfOk result (λ fault. (h : History) → IsReadable h → h.start ≡ start
        → h.body ≡ B.body bodies.now → HasPast past.now h
        → AreMakersCodes h makings.now → IsEvent h number (event_of event.now)
        → IsFaultOf h number (event_of event.now) fault) }
{
    match &event.answer {
        Shown::Made { item, created } => {
            let making = Making {
                number,
                event,
                item,
                created: *created,
            };
            write_fault(alloc, bodies, start, past, makings, making)
        }
        Shown::Removed { .. } => Ok(None),
        Shown::Opaque { .. } => Ok(None),
        Shown::Saw { .. } => Ok(None),
        Shown::SawNone { .. } => Ok(None),
        Shown::SawSome { .. } => Ok(None),
        Shown::SawOther { .. } => Ok(None),
        Shown::Listed { .. } => Ok(None),
        Shown::Free => Ok(None),
        Shown::Aside => Ok(None),
    }
}

/// Of each event of a log why its write could not have made its revision, or could not have found it.
pub fn faults_of<B: Bodies>(
    alloc: Global,
    bodies: &B,
    start: Revision,
    log: &[LogEvent],
    past: &Past,
    makings: &Makings,
) -> Result<Vec<Option<Reason>>, OutOfMemory>
    requires { length log.now < 2 ^ 32 }
    ensures { IfOk result (λ faults. (h : History) → IsReadable h → h.start ≡ start
        → h.body ≡ B.body bodies.now → HasPast past.now h
        → AreMakersCodes h makings.now → HasEvents log.now h → AreFaults h faults.items) }
{
    let mut faults = Vec::with_capacity(alloc, log.len())?;
    for (i, event) in log.iter().enumerate() {
        let fault = event_fault(alloc, bodies, start, past, makings, i as u32, event)?;
        faults.push(fault)?;
    }
    Ok(faults)
}
