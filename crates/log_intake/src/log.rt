ghost use Rattle.std.specs.Prelude.{◌≡◌, ◌≢◌, ℕ, ◌<◌, ◌≤◌, ◌⊎◌, ◌^◌, List, [], Ok, Err, IfErr, IfOk, IsErr, IsOk, OnOk};
ghost use Rattle.std.specs.Prelude.{length};
ghost use Rattle.std.specs.List.{AllZip};
ghost use Rattle.audit_event.specs.Keeping.{AreKept};
ghost use Rattle.batch_decode.specs.Batches.{IsDecodedLine};
ghost use Rattle.log_intake.specs.Batches.{GathersBatch, HoldsOpen, MayGather};
ghost use Rattle.log_intake.specs.Keeping.{AreNext, KeepsAndDecodes};
ghost use Rattle.log_intake.specs.Taking.{ReadsLog};

use crate::batch::{Batch, gather};
use crate::keeping::{DecodedBatch, Place, both, keep_and_decode, keep_rest};
use crate::stop::LogStop;
use audit_event::{Events, Seen};
use base_types::OutOfMemory;
use batch_decode::DecodedList;
use edge_io::Desk;
use hash_seed::Seed;
use judge_pool::Gate;
use line_reader::LineReader;
use std::alloc::Global;
use std::marker::Sync;
use std::thread::{Threads, join_mut};

// How far a log was advanced: one batch was kept, the next one decoded, and the one behind that gathered.
#[derive(Drop)]
struct Advanced {
    place: Place,
    decoded: DecodedList,
    gathered: Batch,
}

/// Reads the events of a log from a desk, by name, in batches of lines. Several threads decode a batch; each line's
/// index in it enters the gate before the line is decoded. While the events of one batch are kept, the next one is
/// decoded, and the one behind that is taken from the desk. A batch that is refused is refused whatever the desk met
/// behind it, a failed read say. The hashes of audit IDs begin with the seed.
pub fn read_log<R: Threads + Sync, D: Desk, G: Gate>(
    rt: &R,
    alloc: Global,
    desk: &mut D,
    name: &str,
    buffer: &mut [u8],
    seed: Seed,
    gate: &G,
) -> Result<Events, LogStop>
    requires some { 0 < length buffer.old }
    requires piece { length buffer.old ≤ 65536 }
    ensures reads { ReadsLog (D.left desk.old name.now) (D.left desk.new name.now)
        (D.faults desk.old)
        (D.faults desk.new) result }
    ensures others { (other : List ℕ) → other ≢ name.now
        → D.left desk.new other ≡ D.left desk.old other }
{
    let mut seen = Seen::new(alloc, seed)?;
    read_batches(rt, alloc, desk, name, buffer, &mut seen, gate)?;
    Ok(seen.finish())
}

// Keeps the events of a log, of which none is kept yet, batch by batch.
#[tactic(auto, using(crate::proofs::LogFacts::nothing_read_from))]
fn read_batches<R: Threads + Sync, D: Desk, G: Gate>(
    rt: &R,
    alloc: Global,
    desk: &mut D,
    name: &str,
    buffer: &mut [u8],
    seen: &mut Seen,
    gate: &G,
) -> Result<(), LogStop>
    requires some { 0 < length buffer.old }
    requires piece { length buffer.old ≤ 65536 }
    requires none { seen.old ≡ [] }
    ensures whole { OnOk result
        (AreKept seen.new → ReadsLog (D.left desk.old name.now) (D.left desk.new name.now)
        (D.faults desk.old) (D.faults desk.new) (Ok seen.new)) }
    ensures stopped { IfErr result
        (λ stop. ReadsLog (D.left desk.old name.now) (D.left desk.new name.now)
        (D.faults desk.old) (D.faults desk.new) (Err stop)) }
    ensures others { (other : List ℕ) → other ≢ name.now
        → D.left desk.new other ≡ D.left desk.old other }
{
    let mut reader = LineReader::new(alloc)?;
    let mut next = gather(alloc, desk, name, &mut reader, 0, buffer)?;
    let mut place = Place { line: 0, extra: 0 };
    let mut front = DecodedBatch {
        lines: Vec::new(alloc),
        decoded: DecodedList::new(alloc),
    };
    'batches: while next.end.goes_on() {
        let (kept, decoded, gathered) = advance(
            rt,
            alloc,
            &next,
            gate,
            place,
            &mut front,
            seen,
            desk,
            name,
            &mut reader,
            buffer,
        );
        let after = all_three(kept, decoded, gathered)?;
        place = after.place;
        front = DecodedBatch {
            lines: next.lines,
            decoded: after.decoded,
        };
        next = after.gathered;
    }
    let last = next.lines.as_slice();
    keep_rest(rt, alloc, last, gate, place, &mut front, seen)?;
    next.end.answer()
}

// Keeps the events of the batch in front and decodes the next one, while this thread takes the one behind that from
// the desk.
fn advance<R: Threads + Sync, D: Desk, G: Gate>(
    rt: &R,
    alloc: Global,
    next: &Batch,
    gate: &G,
    place: Place,
    front: &mut DecodedBatch,
    seen: &mut Seen,
    desk: &mut D,
    name: &str,
    reader: &mut LineReader,
    buffer: &mut [u8],
) -> (
    Result<Place, LogStop>,
    Result<DecodedList, OutOfMemory>,
    Result<Batch, OutOfMemory>,
)
    requires few { length next.now.lines.items < 2 ^ 32 }
    requires decoded { AllZip IsDecodedLine front.old.lines.items front.old.decoded }
    requires ready { AreNext front.old.lines.items place seen.old }
    requires may_gather { MayGather buffer.old next.now.taken reader.old }
    ensures keeps { KeepsAndDecodes front.old.lines.items next.now.lines.items place seen.old
        seen.new result.0 result.1 }
    ensures gathers { GathersBatch (D.left desk.old) (D.left desk.new) name.now (D.faults desk.old)
        (D.faults desk.new) reader.old reader.new next.now.taken result.2 }
{
    let lines = next.lines.as_slice();
    let taken = next.taken;
    let mut keep = || -> (Result<Place, LogStop>, Result<DecodedList, OutOfMemory>)
        requires few { length lines.now < 2 ^ 32 }
        requires decoded { AllZip IsDecodedLine front.now.lines.items front.now.decoded }
        requires ready { AreNext front.now.lines.items place seen.now }
        ensures { KeepsAndDecodes front.entry.now.lines.items lines.entry.now place
            seen.entry.now seen.exit.now result.0 result.1 }
    { keep_and_decode(rt, alloc, lines, gate, place, front, seen) };
    let mut gather_next = || -> Result<Batch, OutOfMemory>
        requires some { 0 < length buffer.now }
        requires piece { length buffer.now ≤ 65536 }
        requires within { taken ≤ 1099511627776 }
        requires going { HoldsOpen reader.now }
        ensures { GathersBatch (D.left desk.entry.now) (D.left desk.exit.now) name.entry.now
            (D.faults desk.entry.now) (D.faults desk.exit.now) reader.entry.now reader.exit.now
            taken result }
    { gather(alloc, desk, name, reader, taken, buffer) };
    let ((kept, decoded), gathered) = join_mut(rt, &mut keep, &mut gather_next);
    (kept, decoded, gathered)
}

// What goes on behind a batch that was kept. A refusal in it comes before want of memory for those behind it.
fn all_three(
    kept: Result<Place, LogStop>,
    decoded: Result<DecodedList, OutOfMemory>,
    gathered: Result<Batch, OutOfMemory>,
) -> Result<Advanced, LogStop>
    ensures ok { IfOk result (λ after. (kept ≡ Ok after.place) × (decoded ≡ Ok after.decoded)
        × (gathered ≡ Ok after.gathered)) }
    ensures err { IfErr result (λ stop. (kept ≡ Err stop)
        ⊎ (IsOk kept × (IsErr decoded ⊎ IsErr gathered) × (stop ≡ LogStop.OutOfMemory))) }
{
    let step = match both(kept, decoded) {
        Ok(step) => step,
        Err(stop) => {
            drop(gathered);
            return Err(stop);
        }
    };
    match gathered {
        Ok(gathered) => Ok(Advanced {
            place: step.place,
            decoded: step.ahead,
            gathered,
        }),
        Err(OutOfMemory) => Err(LogStop::OutOfMemory),
    }
}
