ghost use Rattle.std.specs.Prelude.{◌≡◌, ℕ, ◌<◌, ◌^◌, length, Some, IfOk, slice_get};
ghost use Rattle.std.specs.List.{AllZip};
ghost use Rattle.line_reader.specs.declared.line.Line.{Line};
ghost use Rattle.batch_decode.specs.Batches.{IsDecodedLine};

use crate::decoded::{Decoded, DecodedList};
use crate::line::decode_with;
use base_types::OutOfMemory;
use borrowed_json::Scratch;
use judge_pool::Gate;
use line_reader::Line;
use rayon::prelude::*;
use std::alloc::Global;
use std::marker::Sync;
use std::thread::Threads;

/// How many lines are worth a thread of their own.
const LINES_FOR_A_THREAD: usize = 16;

/// What each line holds, in their order. Several threads decode them, each with one scratch; each line's
/// index enters the gate before the line is decoded.
pub fn decode_all<R: Threads + Sync, G: Gate>(
    rt: &R,
    alloc: Global,
    lines: &[Line],
    gate: &G,
) -> Result<DecodedList, OutOfMemory>
    requires { length lines.now < 2 ^ 32 }
    ensures decoded { IfOk result (AllZip IsDecodedLine lines.now) }
    ensures entered { IfOk result
        (λ _. (index : ℕ) → index < length lines.now → G.is_entered gate.now index) }
{
    let gathered: Result<Vec<Decoded>, OutOfMemory> = (0..lines.len() as u32)
        .into_par_iter()
        .with_min_len(LINES_FOR_A_THREAD)
        .map_init(
            move || Scratch::new(alloc),
            |scratch: &mut Scratch, index: u32| -> Result<Decoded, OutOfMemory>
                requires { index < length lines.now }
                ensures { IfOk result (λ decoded. ((line : Line)
                    × (slice_get lines.entry.now index ≡ Some line) × IsDecodedLine line decoded)
                    × G.is_entered gate.entry.now index) }
            {
                gate.enter(index);
                decode_behind(alloc, scratch, lines, gate, index)
            },
        )
        .collect(rt, alloc)?;
    Ok(DecodedList::from_vec(gathered?))
}

// What a line holds whose index has entered.
fn decode_behind<G: Gate>(
    alloc: Global,
    scratch: &mut Scratch,
    lines: &[Line],
    _gate: &G,
    index: u32,
) -> Result<Decoded, OutOfMemory>
    requires index { index < length lines.now }
    requires entered { G.is_entered _gate.now index }
    ensures { IfOk result (λ decoded. (line : Line)
        × (slice_get lines.now index ≡ Some line) × IsDecodedLine line decoded) }
{
    decode_with(alloc, scratch, &lines[index as usize])
}
