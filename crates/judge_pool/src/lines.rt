ghost use Rattle.std.specs.Prelude.{◌≡◌, ◌<◌, ℕ, Option, IfOk};
ghost use Rattle.base_types.specs.declared.verdict.placed.PlacedLine.{PlacedLine};
ghost use Rattle.judge_pool.specs.Lines.{AreLines};

use crate::source::EVENTS_FOR_A_THREAD;
use base_types::{OutOfMemory, PlacedLine};
use rayon::prelude::*;
use std::alloc::Global;
use std::marker::Sync;
use std::thread::Threads;

/// What the lines of events are taken from.
pub trait LineSource: Sync {
    ghost events: { Self → ℕ };

    ghost is_line: { Self → ℕ → Option PlacedLine → Type 0 };

    /// How many events there are.
    fn count(&self) -> u32
        ensures { result ≡ events self.now };

    /// The line of an event in a placement; None where the placement has none of it.
    fn line(&self, alloc: Global, event: u32) -> Result<Option<PlacedLine>, OutOfMemory>
        requires { event < events self.now }
        ensures { IfOk result (is_line self.now event) };
}

/// The lines of all events, in order. Several threads take them.
pub fn lines_all<R: Threads + Sync, S: LineSource>(
    rt: &R,
    alloc: Global,
    source: &S,
) -> Result<Vec<Option<PlacedLine>>, OutOfMemory>
    ensures { IfOk result (λ lines. AreLines (S.events source.now) (S.is_line source.now)
        lines.items) }
{
    let gathered: Result<Vec<Option<PlacedLine>>, OutOfMemory> = (0..source.count())
        .into_par_iter()
        .with_min_len(EVENTS_FOR_A_THREAD)
        .map(
            |event: u32| -> Result<Option<PlacedLine>, OutOfMemory>
                requires { event < S.events source.now }
                ensures { IfOk result (S.is_line source.entry.now event) }
            { source.line(alloc, event) },
        )
        .collect(rt, alloc)?;
    Ok(gathered?)
}
