ghost use Rattle.std.specs.Prelude.{◌≡◌, ◌<◌, ◌+◌, [], IfOk, OnOk, List};
ghost use Rattle.indexmap.specs.IndexMap.{hasher_of};
ghost use Rattle.log_sift.specs.declared.answer.Fate.{Fate as Became};
ghost use Rattle.log_sift.specs.Seeding.{AreSeeded, seed_of};
ghost use Rattle.log_sift.specs.Sifted.{IsSifting, noted, stays_from, with_stretch};

use crate::answer::{Fate, LeftLine, LeftLines, Sifting, Stretch, Stretches};
use crate::cutting::cut_line;
use crate::keeping::sift_line;
use crate::recalling::KeptEvents;
use base_types::OutOfMemory;
use hash_seed::{Seed, Seeded};
use std::alloc::Global;

/// The hashes of audit IDs begin with a seed of so many bytes of the log.
const SEED_BYTES: usize = 65_536;

// Puts the bytes between two indexes behind the stretches that stay, where there are any.
fn add_stretch(stays: &mut Stretches, start: usize, end: usize) -> Result<(), OutOfMemory>
    ensures { OnOk result (stays.new ≡ with_stretch stays.old start end) }
{
    if start < end {
        stays.push(Stretch { start, end })?;
    }
    Ok(())
}

// Notes what becomes of a line, before which all lines from an index on stay.
fn note(
    sifting: &mut Sifting,
    from: usize,
    start: usize,
    number: u64,
    fate: Fate,
) -> Result<(), OutOfMemory>
    requires { sifting.old.kept < number }
    ensures { OnOk result (sifting.new ≡ noted sifting.old from start number fate) }
{
    match fate {
        Fate::Blank => {}
        Fate::Stays => sifting.kept += 1,
        Fate::Left(cause) => {
            add_stretch(&mut sifting.stays, from, start)?;
            sifting.left.push(LeftLine {
                line: number,
                cause,
            })?;
        }
    }
    Ok(())
}

// From where on all lines stay, behind a line of which this becomes.
fn stays_from(from: usize, next: usize, fate: Fate) -> usize
    ensures { result ≡ stays_from from next fate }
{
    match fate {
        Fate::Blank | Fate::Stays => from,
        Fate::Left(_) => next,
    }
}

// Sifts a log's lines, behind no kept event. The hashes of their identities begin with the seed of the log's first
// bytes.
fn sift_lines(
    alloc: Global,
    log: &[u8],
    events: &mut KeptEvents,
    sifting: &mut Sifting,
) -> Result<(), OutOfMemory>
    requires events { events.old.entries ≡ [] }
    requires seed { AreSeeded log.now (hasher_of events.old) }
    requires sifting { sifting.old ≡ record { stays = []; left = []; kept = 0 } }
    ensures { OnOk result ((fates : List Became) × IsSifting log.now fates sifting.new) }
{
    let mut number = 0;
    let mut from = 0;
    let mut start = 0;
    'lines: while start < log.len() {
        let cut = cut_line(log, start);
        let fate = sift_line(alloc, events, &log[start..cut.end])?;
        number += 1;
        note(sifting, from, start, number, fate)?;
        from = stays_from(from, cut.next, fate);
        start = cut.next;
    }
    add_stretch(&mut sifting.stays, from, start)?;
    Ok(())
}

// The seed of the log's first bytes: there is no setup here. The times and audit IDs in them aren't chosen by whoever
// wants other audit IDs to collide.
fn seed_of(log: &[u8]) -> Seed
    ensures { result.digest ≡ seed_of log.now }
{
    Seed::of(&log[..log.len().min(SEED_BYTES)])
}

/// What becomes of each line of a log: a line stays where its events can be taken behind those of the lines before it
/// that stay. No event of a line that is left out is kept.
pub fn sift(alloc: Global, log: &[u8]) -> Result<Sifting, OutOfMemory>
    ensures { IfOk result (λ sifting. (fates : List Became) × IsSifting log.now fates sifting) }
{
    let mut events = KeptEvents::with_hasher(alloc, Seeded::new(seed_of(log)));
    let mut sifting = Sifting {
        stays: Stretches::new(alloc),
        left: LeftLines::new(alloc),
        kept: 0,
    };
    let sifted = sift_lines(alloc, log, &mut events, &mut sifting);
    drop(events);
    match sifted {
        Ok(()) => Ok(sifting),
        Err(OutOfMemory) => Err(OutOfMemory),
    }
}
