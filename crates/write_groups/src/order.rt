ghost use Rattle.std.specs.Prelude.{◌≡◌, ◌<◌, ◌^◌, length, map, IfOk, AllPairs};
ghost use Rattle.std.specs.List.Sorted.{IsPermutation, IsSorted};
ghost use Rattle.history_model.specs.Histories.{History};
ghost use Rattle.history_model.specs.Judging.{IsOrder};
ghost use Rattle.write_groups.specs.Modelled.{HasEvents};
ghost use Rattle.write_groups.specs.Ordered.{turn_cmp, turn_of, turns_of};

use crate::event::{LogEvent, Reading};
use base_types::{Moment, OutOfMemory};
use std::alloc::Global;

// What events are judged by: those of the log by the end of their time, then by line; the checkpoints behind them by
// line alone.
#[derive(Clone, Copy, PartialEq, Eq, PartialOrd, Ord)]
pub struct Turn {
    is_checkpoint: bool,
    hi: Moment,
    line: u64,
    number: u32,
}

fn turn_of(number: u32, event: &LogEvent) -> Turn
    ensures { result ≡ turn_of number event.now }
{
    match event.reading {
        Reading::Checkpoint(_) => Turn {
            is_checkpoint: true,
            hi: Moment(0),
            line: event.line,
            number,
        },
        _ => Turn {
            is_checkpoint: false,
            hi: event.hi,
            line: event.line,
            number,
        },
    }
}

fn turns_of(alloc: Global, events: &[LogEvent]) -> Result<Vec<Turn>, OutOfMemory>
    requires { length events.now < 2 ^ 32 }
    ensures { IfOk result (λ turns. turns.items ≡ turns_of 0 events.now) }
{
    let mut turns = Vec::with_capacity(alloc, events.len())?;
    for (i, event) in events.iter().enumerate() {
        turns.push(turn_of(i as u32, event))?;
    }
    Ok(turns)
}

fn sorted(mut turns: Vec<Turn>) -> Result<Vec<Turn>, OutOfMemory>
    ensures same { IfOk result (λ order. IsPermutation turns.items order.items) }
    ensures sorted { IfOk result (λ order. IsSorted turn_cmp order.items) }
{
    turns.sort()?;
    Ok(turns)
}

fn numbers_of(alloc: Global, turns: &[Turn]) -> Result<Vec<u32>, OutOfMemory>
    ensures { IfOk result (λ numbers. numbers.items ≡ map (λ turn. turn.number) turns.now) }
{
    let numbers = turns.iter().map(|turn| turn.number).collect(alloc)?;
    Ok(numbers)
}

/// The numbers of all events in the order of judgement.
pub fn order_of(alloc: Global, events: &[LogEvent]) -> Result<Vec<u32>, OutOfMemory>
    requires few { length events.now < 2 ^ 32 }
    requires lines { AllPairs (λ a b. a.line < b.line) events.now }
    ensures { IfOk result (λ order. (h : History) → HasEvents events.now h → h.order ≡ order.items
        → IsOrder h) }
{
    let turns = sorted(turns_of(alloc, events)?)?;
    Ok(numbers_of(alloc, &turns)?)
}
