ghost use Rattle.std.specs.Prelude.{◌≡◌, ℕ, IfOk, option_and_then, slice_get};
ghost use Rattle.std.specs.List.Sorted.{IsPermutation, IsSortedByKey};
ghost use Rattle.base_types.specs.Placements.{RisesByLine};
ghost use Rattle.history_model.specs.Checking.{IsFitting};
ghost use Rattle.history_model.specs.Histories.{History};
ghost use Rattle.history_model.specs.Machine as model;
ghost use Rattle.history_model.specs.Machine.{event_line, maker_line};
ghost use Rattle.object_past.specs.Modelled.{maker_of, recorded, version_of};
ghost use Rattle.serial_machine.specs.Ordered.{AreRows, AreRowsOf, IsInTurn, placed_at, placed_puts};
ghost use Rattle.serial_machine.specs.Ordered.{placed_removals, placed_replies, row_step, step_turn_cmp};
ghost use Rattle.log_context.specs.Histories.{history_of};
ghost use Rattle.write_groups.specs.Modelled.{HasEvents, event_of};

use crate::places::line_place;
use crate::step::{Step, event_at};
use base_types::{OutOfMemory, PlacedAnswer, PlacedLine};
use log_context::Context;
use object_past::{Maker, Removal, Version};
use std::alloc::Global;
use write_groups::LogEvent;

/// When a step is made: by place, writes before answers, then by line.
#[derive(Clone, Copy, PartialEq, Eq, PartialOrd, Ord)]
pub struct StepTurn {
    pub place: u64,
    pub is_answer: bool,
    pub line: u64,
}

/// A step and its turn.
#[derive(Clone, Copy)]
pub struct Row<'a> {
    pub turn: StepTurn,
    pub step: Step<'a>,
}

/// Steps with their turns.
pub type Rows<'a> = Vec<Row<'a>>;

// The line of the event of this number.
fn line_of(log: &[LogEvent], number: u32) -> u64
    ensures { (h : History) → HasEvents log.now h
        → result ≡ event_line (slice_get h.events number) }
{
    match event_at(log, number) {
        Some(event) => event.line,
        None => 0,
    }
}

fn maker_line(log: &[LogEvent], maker: Maker) -> u64
    ensures { (h : History) → HasEvents log.now h → result ≡ maker_line h (maker_of maker) }
{
    match maker {
        Maker::Event(number) => line_of(log, number),
        Maker::Snapshot => 0,
        Maker::Unknown => 0,
    }
}

fn put_row<'a>(log: &[LogEvent], version: &'a Version) -> Row<'a>
    ensures step { row_step result ≡ model.Put (version_of version.now) }
    ensures turn { (h : History) → HasEvents log.now h → IsInTurn h result }
{
    Row {
        turn: StepTurn {
            place: version.revision.get(),
            is_answer: false,
            line: maker_line(log, version.maker),
        },
        step: Step::Put(version),
    }
}

fn removal_row<'a>(log: &[LogEvent], removal: &'a Removal, place: u64) -> Row<'a>
    ensures step { row_step result ≡ model.Remove
        (record { removal = recorded removal.now; place = place }) }
    ensures turn { (h : History) → HasEvents log.now h → IsInTurn h result }
{
    Row {
        turn: StepTurn {
            place,
            is_answer: false,
            line: line_of(log, removal.range.event),
        },
        step: Step::Remove { removal, place },
    }
}

fn reply_row(number: u32, event: &LogEvent, place: u64) -> Row<'_>
    ensures step { row_step result ≡ model.Reply number (event_of event.now) place }
    ensures turn { (h : History) → IsInTurn h result }
{
    Row {
        turn: StepTurn {
            place,
            is_answer: true,
            line: event.line,
        },
        step: Step::Reply {
            number,
            event,
            place,
        },
    }
}

// All versions above the start are written.
fn put_rows(alloc: Global, context: &Context) -> Result<Rows<'_>, OutOfMemory>
    ensures { IfOk result (λ rows. AreRowsOf (history_of context.now)
        (placed_puts (history_of context.now)) rows.items) }
{
    let log = context.log();
    let start = context.setup().start.get();
    let versions = context.versions();
    let mut rows = Vec::new(alloc);
    for version in versions {
        if start < version.revision.get() {
            rows.push(put_row(log, version))?;
        }
    }
    Ok(rows)
}

// Each removal takes place where the line of its event says.
fn removal_rows<'a>(
    alloc: Global,
    context: &'a Context,
    lines: &[PlacedLine],
) -> Result<Rows<'a>, OutOfMemory>
    ensures { IfOk result (λ rows. AreRowsOf (history_of context.now) (placed_removals
        (history_of context.now) lines.now) rows.items) }
{
    let log = context.log();
    let removals = context.past().removals();
    let mut rows = Vec::new(alloc);
    for removal in removals {
        let place = line_place(lines, removal.range.event);
        rows.push(removal_row(log, removal, place))?;
    }
    Ok(rows)
}

fn placed_at(answer: PlacedAnswer) -> Option<u64>
    ensures { result ≡ placed_at answer }
{
    match answer {
        PlacedAnswer::Made(_) => None,
        PlacedAnswer::Removed(_) => None,
        PlacedAnswer::At(place) => Some(place),
        PlacedAnswer::Nowhere => None,
    }
}

// Where the line of this number puts an answer.
fn answer_at(lines: &[PlacedLine], number: u32) -> Option<u64>
    ensures { result ≡ option_and_then (λ line. placed_at line.answer)
        (slice_get lines.now number) }
{
    match lines.get(number as usize) {
        Some(line) => placed_at(line.answer),
        None => None,
    }
}

// The answers stand where the lines say.
fn reply_rows<'a>(
    alloc: Global,
    context: &'a Context,
    lines: &[PlacedLine],
) -> Result<Rows<'a>, OutOfMemory>
    ensures { IfOk result (λ rows. AreRowsOf (history_of context.now)
        (placed_replies (history_of context.now) lines.now) rows.items) }
{
    let log = context.log();
    let mut rows = Vec::new(alloc);
    for (i, event) in log.iter().enumerate() {
        if let Some(place) = answer_at(lines, i as u32) {
            rows.push(reply_row(i as u32, event, place))?;
        }
    }
    Ok(rows)
}

fn sorted(mut rows: Rows<'_>) -> Result<Rows<'_>, OutOfMemory>
    ensures same { IfOk result (λ sorted. IsPermutation rows.entry.items sorted.items) }
    ensures sorted { IfOk result (λ sorted. IsSortedByKey (λ row. row.turn) step_turn_cmp
        sorted.items) }
{
    rows.sort_by_key(|row| row.turn)?;
    Ok(rows)
}

/// The steps of a placement whose lines and words are those of the log, in the machine's order.
pub fn rows_of<'a>(
    alloc: Global,
    context: &'a Context,
    lines: &[PlacedLine],
) -> Result<Rows<'a>, OutOfMemory>
    requires rising { RisesByLine lines.now }
    requires fitting { IsFitting (history_of context.now) lines.now }
    ensures { IfOk result (λ rows. AreRows (history_of context.now) lines.now rows.items) }
{
    // For the proof alone, as for a machine's start.
    let _log = context.log();
    let mut rows = put_rows(alloc, context)?;
    rows.append(&mut removal_rows(alloc, context, lines)?)?;
    rows.append(&mut reply_rows(alloc, context, lines)?)?;
    sorted(rows)
}
