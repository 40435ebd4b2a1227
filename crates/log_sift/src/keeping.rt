ghost use Rattle.std.specs.Prelude.{IfOk};
ghost use Rattle.batch_decode.specs.Batches.{IsDecoded};
ghost use Rattle.log_intake.specs.Steps.{InOrder};
ghost use Rattle.log_sift.specs.Recalling.{Moves, SiftsBehind};
ghost use Rattle.log_sift.specs.Sift.{KeepsDecoded, KeepsEvent, KeepsLine};

use crate::answer::{Fate, LeftCause};
use crate::recalling::{EventIdentity, KeptEvents, compare, kept_of};
use audit_event::{Event, Events};
use base_types::{Bytes, OutOfMemory};
use batch_decode::{Decoded, decode_line};
use line_reader::{LONGEST_LINE, Line, is_dropped_line};
use std::alloc::Global;

// Keeps an event, unless it repeats a kept one; tells why it isn't kept where it differs from that.
fn keep_event(kept: &mut KeptEvents, event: Event) -> Result<Option<LeftCause>, OutOfMemory>
    ensures { IfOk result (Moves kept.old.entries kept.new.entries
        (λ before. KeepsEvent before event)) }
{
    let audit_id = event.audit_id.clone()?;
    let identity = EventIdentity {
        audit_id,
        stage: event.stage,
    };
    match kept_of(kept, &identity) {
        Some(earlier) => Ok(compare(earlier, event)),
        None => {
            kept.insert(identity, event)?;
            Ok(None)
        }
    }
}

// Keeps the events of a line, up to one that differs from a kept one.
fn keep_events(kept: &mut KeptEvents, events: Events) -> Result<Option<LeftCause>, OutOfMemory>
    ensures { IfOk result (Moves kept.old.entries kept.new.entries
        (λ before. InOrder KeepsEvent before events)) }
{
    for event in events.into_vec() {
        match keep_event(kept, event)? {
            Some(cause) => return Ok(Some(cause)),
            None => {}
        }
    }
    Ok(None)
}

// Keeps the events of a line, up to its fault.
fn keep_decoded(kept: &mut KeptEvents, decoded: Decoded) -> Result<Option<LeftCause>, OutOfMemory>
    ensures { IfOk result (Moves kept.old.entries kept.new.entries
        (λ before. KeepsDecoded before decoded)) }
{
    let Decoded {
        events,
        taken: _,
        fault,
    } = decoded;
    if let Some(cause) = keep_events(kept, events)? {
        return Ok(Some(cause));
    }
    match fault {
        None => Ok(None),
        Some(fault) => Ok(Some(LeftCause::Rule(fault.code))),
    }
}

// What a line holds.
fn decode(alloc: Global, line: &[u8]) -> Result<Decoded, OutOfMemory>
    ensures { IfOk result (IsDecoded line.now) }
{
    let line = Line {
        number: 0,
        bytes: Bytes::from_vec(line.to_vec(alloc)?),
    };
    decode_line(alloc, &line)
}

// Keeps the events of a line that isn't blank.
fn keep_line(
    alloc: Global,
    kept: &mut KeptEvents,
    line: &[u8],
) -> Result<Option<LeftCause>, OutOfMemory>
    ensures { IfOk result (Moves kept.old.entries kept.new.entries
        (λ before. KeepsLine before line.now)) }
{
    if line.len() > LONGEST_LINE {
        return Ok(Some(LeftCause::LineTooLong));
    }
    let decoded = decode(alloc, line)?;
    keep_decoded(kept, decoded)
}

/// What becomes of a line. Where it stays, its events are kept.
pub fn sift_line(alloc: Global, kept: &mut KeptEvents, line: &[u8]) -> Result<Fate, OutOfMemory>
    ensures { IfOk result (SiftsBehind kept.old.entries kept.new.entries line.now) }
{
    if is_dropped_line(line) {
        return Ok(Fate::Blank);
    }
    let before = kept.len();
    match keep_line(alloc, kept, line)? {
        None => Ok(Fate::Stays),
        Some(cause) => {
            kept.truncate(before);
            Ok(Fate::Left(cause))
        }
    }
}
