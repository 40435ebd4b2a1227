ghost use Rattle.std.specs.Prelude.{◌≡◌, ◌+◌, ◌<◌, ◌≤◌, ◌⊎◌, ◌^◌, Ok, Err, OnOk, IfOk, IfErr, IsOk, IsErr, All, length};
ghost use Rattle.std.specs.List.{AllZip};
ghost use Rattle.audit_event.specs.Events.{IsSound};
ghost use Rattle.batch_decode.specs.Batches.{IsDecodedLine};
ghost use Rattle.log_intake.specs.Keeping.{AreNext, AreNextBehind, IsLineNext, KeepsAndDecodes, KeepsBoth};
ghost use Rattle.log_intake.specs.Keeping.{KeepsEvent, KeepsEvents, KeepsLine, KeepsLines};
ghost use Rattle.log_intake.specs.Kept.{AreBefore};

use crate::stop::LogStop;
use audit_event::{Event, Events, Malformed, Seen, SeenFault, Sighting};
use base_types::OutOfMemory;
use batch_decode::{Decoded, DecodedList, decode_all};
use judge_pool::Gate;
use line_reader::Line;
use std::alloc::Global;
use std::marker::Sync;
use std::mem;
use std::thread::{Threads, join_mut};

/// So many events of a log are kept.
const MOST_EVENTS: u32 = 4_194_304;

/// How far the numbers of a log were taken.
#[derive(Clone, Copy)]
pub struct Place {
    /// The line that was last, counted without its items.
    pub line: u64,
    /// The numbers that lists took beyond one for each line.
    pub extra: u64,
}

/// The lines of a batch that were decoded, and wait to be kept.
#[derive(Drop)]
pub struct DecodedBatch {
    pub lines: Vec<Line>,
    pub decoded: DecodedList,
}

/// What goes on behind lines that were kept.
#[derive(Drop)]
pub struct Step<T> {
    pub place: Place,
    /// What was made meanwhile of the lines behind them.
    pub ahead: T,
}

/// Keeps the events of the batch in front, and takes its decoding, while other threads decode the lines of the next
/// one.
pub fn keep_and_decode<R: Threads + Sync, G: Gate>(
    rt: &R,
    alloc: Global,
    next: &[Line],
    gate: &G,
    place: Place,
    front: &mut DecodedBatch,
    seen: &mut Seen,
) -> (Result<Place, LogStop>, Result<DecodedList, OutOfMemory>)
    requires few { length next.now < 2 ^ 32 }
    requires decoded { AllZip IsDecodedLine front.old.lines.items front.old.decoded }
    requires ready { AreNext front.old.lines.items place seen.old }
    ensures { KeepsAndDecodes front.old.lines.items next.now place seen.old seen.new result.0
        result.1 }
{
    let mut keep = || -> Result<Place, LogStop>
        requires { AllZip IsDecodedLine front.now.lines.items front.now.decoded
            × AreNext front.now.lines.items place seen.now }
        ensures { KeepsLines front.entry.now.lines.items place seen.entry.now seen.exit.now
            result }
    { keep_decoded(alloc, place, front, seen) };
    let mut decode = move || -> Result<DecodedList, OutOfMemory>
        requires { length next.now < 2 ^ 32 }
        ensures { IfOk result (AllZip IsDecodedLine next.entry.now) }
    { decode_all(rt, alloc, next, gate) };
    // The longer work is begun by this thread, since a new one may have to wait for a processor.
    let (kept, decoded) = join_mut(rt, &mut keep, &mut decode);
    (kept, decoded)
}

// Keeps the events of a batch that was decoded, and takes its decoding.
fn keep_decoded(
    alloc: Global,
    place: Place,
    batch: &mut DecodedBatch,
    seen: &mut Seen,
) -> Result<Place, LogStop>
    requires decoded { AllZip IsDecodedLine batch.old.lines.items batch.old.decoded }
    requires next { AreNext batch.old.lines.items place seen.old }
    ensures { KeepsLines batch.old.lines.items place seen.old seen.new result }
{
    let decoded = mem::replace(&mut batch.decoded, DecodedList::new(alloc));
    keep_lines(place, batch.lines.as_slice(), decoded, seen)
}

/// Keeps the events of the batch in front, and then those of the last one, which is decoded meanwhile.
pub fn keep_rest<R: Threads + Sync, G: Gate>(
    rt: &R,
    alloc: Global,
    last: &[Line],
    gate: &G,
    place: Place,
    front: &mut DecodedBatch,
    seen: &mut Seen,
) -> Result<Place, LogStop>
    requires few { length last.now < 2 ^ 32 }
    requires decoded { AllZip IsDecodedLine front.old.lines.items front.old.decoded }
    requires ready { AreNext front.old.lines.items place seen.old }
    requires behind { AreNextBehind front.old.lines.items last.now place seen.old }
    ensures { KeepsBoth front.old.lines.items last.now place seen.old seen.new result }
{
    let (kept, decoded) = keep_and_decode(rt, alloc, last, gate, place, front, seen);
    match both(kept, decoded) {
        Ok(step) => keep_lines(step.place, last, step.ahead, seen),
        Err(stop) => Err(stop),
    }
}

/// What goes on behind lines that were kept. A refusal of theirs comes before want of memory for what is ahead.
pub fn both<T: Drop>(
    kept: Result<Place, LogStop>,
    ahead: Result<T, OutOfMemory>,
) -> Result<Step<T>, LogStop>
    ensures ok { IfOk result (λ step. (kept ≡ Ok step.place) × (ahead ≡ Ok step.ahead)) }
    ensures err { IfErr result (λ stop. (kept ≡ Err stop)
        ⊎ (IsOk kept × IsErr ahead × (stop ≡ LogStop.OutOfMemory))) }
{
    let place = match kept {
        Ok(place) => place,
        Err(stop) => {
            drop(ahead);
            return Err(stop);
        }
    };
    match ahead {
        Ok(ahead) => Ok(Step { place, ahead }),
        Err(OutOfMemory) => Err(LogStop::OutOfMemory),
    }
}

// Keeps the events of lines that were decoded.
fn keep_lines(
    place: Place,
    lines: &[Line],
    decoded: DecodedList,
    seen: &mut Seen,
) -> Result<Place, LogStop>
    requires decoded { AllZip IsDecodedLine lines.now decoded }
    requires next { AreNext lines.now place seen.old }
    ensures { KeepsLines lines.now place seen.old seen.new result }
{
    let mut place = place;
    let mut at = 0;
    for line in decoded.into_vec() {
        match keep_line(seen, place, &lines[at], line) {
            Ok(after) => place = after,
            Err(stop) => return Err(stop),
        }
        at += 1;
    }
    Ok(place)
}

// Keeps the events of a line, up to its fault.
fn keep_line(seen: &mut Seen, place: Place, line: &Line, decoded: Decoded) -> Result<Place, LogStop>
    requires decoded { IsDecodedLine line.now decoded }
    requires next { IsLineNext line.now place seen.old }
    ensures { KeepsLine line.now place seen.old seen.new result }
{
    let Decoded {
        events,
        taken,
        fault,
    } = decoded;
    let first = line.number + place.extra;
    if let Err(stop) = keep_events(seen, first, events) {
        return Err(stop);
    }
    match fault {
        None => Ok(Place {
            line: line.number,
            extra: place.extra + (taken - 1),
        }),
        Some(fault) => Err(LogStop::Malformed {
            line: first + fault.index,
            code: fault.code,
        }),
    }
}

// Keeps events, which have their numbers from the first on.
fn keep_events(seen: &mut Seen, first: u64, events: Events) -> Result<(), LogStop>
    requires sound { All IsSound events }
    requires from { 1 ≤ first }
    requires room { first + length events < 2 ^ 64 }
    requires before { AreBefore first seen.old }
    ensures { KeepsEvents first events seen.old seen.new result }
{
    let mut number = first;
    for event in events.into_vec() {
        if let Err(stop) = keep_event(seen, number, event) {
            return Err(stop);
        }
        number += 1;
    }
    Ok(())
}

// Keeps an event under its number, or drops it where it repeats one that was kept.
fn keep_event(seen: &mut Seen, number: u64, event: Event) -> Result<(), LogStop>
    requires sound { IsSound event }
    requires from { 1 ≤ number }
    requires before { AreBefore number seen.old }
    ensures { KeepsEvent record event { line = number } seen.old seen.new result }
{
    let mut event = event;
    event.line = number;
    match seen.keep(event) {
        Ok(Sighting::Repeat) => Ok(()),
        Ok(Sighting::Fresh) => within_limit(seen.count()),
        Err(SeenFault::Differs { .. }) => Err(LogStop::Malformed {
            line: number,
            code: Malformed::M12,
        }),
        Err(SeenFault::OutOfMemory) => Err(LogStop::OutOfMemory),
    }
}

fn within_limit(events: u32) -> Result<(), LogStop>
    ensures ok { OnOk result (events ≤ MOST_EVENTS) }
    ensures err { IfErr result (λ stop. (stop ≡ LogStop.TooManyEvents) × (MOST_EVENTS < events)) }
{
    if events > MOST_EVENTS {
        return Err(LogStop::TooManyEvents);
    }
    Ok(())
}
