ghost use Rattle.std.specs.Prelude.{◌≡◌, ◌<◌, ◌↔◌, All, IfOk, IsSome, IsTrue, Some, length, map, option_map};
ghost use Rattle.std.specs.List.{filter_map};
ghost use Rattle.std.specs.List.Sorted.{IsSorted};
ghost use Rattle.history_model.specs.Makers.{IsMadeVersion};
ghost use Rattle.history_model.specs.Readable.{IsReadable};
ghost use Rattle.object_past.specs.Modelled.{version_of};
ghost use Rattle.log_context.specs.Histories.{history_of};
ghost use Rattle.window_writes.specs.Lines.{AreWriteLines};
ghost use Rattle.window_writes.specs.Lines.{write_line};
ghost use Rattle.window_writes.specs.Turns.{made_write, removed_write, write_turn_order, write_of_turn, AreMadeTurns};
ghost use Rattle.window_writes.specs.Turns.{AreRemovedTurns, AreTurns, IsFirstWriter, IsShownLine, IsMadeTurn};
ghost use Rattle.window_writes.specs.Turns.{IsMadeWithin, IsRemovedTurn, IsRemovedWithin, IsShownBy};

use base_types::{OutOfMemory, WriteLine, WriteLines, key_text};
use log_context::Context;
use object_past::{Maker, Removal, Version};
use std::alloc::Global;
use write_groups::Window;

/// What a write is listed by among those of a window: they come by place, those that made a revision before removals,
/// and then by line.
#[derive(PartialEq, Eq, PartialOrd, Ord, Drop)]
pub struct WriteTurn {
    // The revision, or the least place of the removal.
    place: u64,
    removes: bool,
    line: u64,
    // The position of the version, or of the removal.
    position: usize,
}

/// The texts of all writes in a window.
pub fn writes_within(
    alloc: Global,
    context: &Context,
    window: Window,
) -> Result<WriteLines, OutOfMemory>
    requires { IsReadable (history_of context.now) }
    ensures { IfOk result (AreWriteLines context.now window.low window.high) }
{
    let turns = turns_within(alloc, context, window)?;
    lines_of(alloc, context, &turns)
}

// The turns of all writes in a window, in order.
fn turns_within(
    alloc: Global,
    context: &Context,
    window: Window,
) -> Result<Vec<WriteTurn>, OutOfMemory>
    requires { IsReadable (history_of context.now) }
    ensures all { IfOk result (λ turns. AreTurns context.now window.low window.high turns.items) }
    ensures sorted { IfOk result (λ turns. IsSorted write_turn_order turns.items) }
{
    let mut turns = made_within(alloc, context, window)?;
    let mut removed = removed_within(alloc, context, window)?;
    turns.append(&mut removed)?;
    turns.sort()?;
    Ok(turns)
}

// The turns of the revisions above the start in a window.
fn made_within(
    alloc: Global,
    context: &Context,
    window: Window,
) -> Result<Vec<WriteTurn>, OutOfMemory>
    requires { IsReadable (history_of context.now) }
    ensures { IfOk result (λ turns. AreMadeTurns context.now window.low window.high
        (length context.now.versions) turns.items) }
{
    let start = context.setup().start.get();
    let versions = context.versions();
    let mut turns = Vec::new(alloc);
    for (position, version) in versions.iter().enumerate() {
        if is_made_within(start, window, version) {
            turns.push(made_turn(context, position, version))?;
        }
    }
    Ok(turns)
}

fn is_made_within(start: u64, window: Window, version: &Version) -> bool
    ensures { IsTrue result ↔ IsMadeWithin start window.low window.high version.now }
{
    let revision = version.revision.get();
    start < revision && window.low <= revision && revision <= window.high
}

fn made_turn(context: &Context, position: usize, version: &Version) -> WriteTurn
    requires readable { IsReadable (history_of context.now) }
    requires made { IsMadeVersion (history_of context.now) (version_of version.now) }
    ensures position { result.position ≡ position }
    ensures turn { IsMadeTurn context.now version.now result }
{
    WriteTurn {
        place: version.revision.get(),
        removes: false,
        line: shown_line(context, version),
        position,
    }
}

// The line of the write whose answer shows a version above the start.
fn shown_line(context: &Context, version: &Version) -> u64
    requires readable { IsReadable (history_of context.now) }
    requires made { IsMadeVersion (history_of context.now) (version_of version.now) }
    ensures { IsShownLine context.now version.now result }
{
    context.line_of(shown_by(context, version))
}

// The version's maker, or without one the first write of its group.
fn shown_by(context: &Context, version: &Version) -> u32
    requires readable { IsReadable (history_of context.now) }
    requires made { IsMadeVersion (history_of context.now) (version_of version.now) }
    ensures { IsShownBy context.now version.now result }
{
    match version.maker {
        Maker::Event(number) => number,
        Maker::Snapshot => unreachable!(),
        Maker::Unknown => first_writer(context, version),
    }
}

fn first_writer(context: &Context, version: &Version) -> u32
    requires readable { IsReadable (history_of context.now) }
    requires made { IsMadeVersion (history_of context.now) (version_of version.now) }
    ensures { IsFirstWriter context.now version.now result }
{
    let members = context.group(version.revision);
    members[0]
}

// The turns of the removals that may have taken place in a window.
fn removed_within(
    alloc: Global,
    context: &Context,
    window: Window,
) -> Result<Vec<WriteTurn>, OutOfMemory>
    requires { IsReadable (history_of context.now) }
    ensures { IfOk result (λ turns. AreRemovedTurns context.now window.low window.high
        (length context.now.removals) turns.items) }
{
    let removals = context.past().removals();
    let mut turns = Vec::new(alloc);
    for (position, removal) in removals.iter().enumerate() {
        if is_removed_within(window, removal) {
            turns.push(removed_turn(context, position, removal))?;
        }
    }
    Ok(turns)
}

fn is_removed_within(window: Window, removal: &Removal) -> bool
    ensures { IsTrue result ↔ IsRemovedWithin window.low window.high removal.now }
{
    let range = removal.range;
    window.low <= window.high && range.low <= window.high && window.low <= range.high
}

fn removed_turn(context: &Context, position: usize, removal: &Removal) -> WriteTurn
    requires { removal.now.range.event < length context.now.log }
    ensures position { result.position ≡ position }
    ensures turn { IsRemovedTurn context.now removal.now result }
{
    WriteTurn {
        place: removal.range.low,
        removes: true,
        line: context.line_of(removal.range.event),
        position,
    }
}

fn lines_of(
    alloc: Global,
    context: &Context,
    turns: &[WriteTurn],
) -> Result<WriteLines, OutOfMemory>
    requires { All (λ turn. IsSome (write_of_turn context.now turn)) turns.now }
    ensures { IfOk result (λ lines. lines
        ≡ map write_line (filter_map (write_of_turn context.now) turns.now)) }
{
    let mut lines = WriteLines::new(alloc);
    for turn in turns {
        lines.push(line_of(alloc, context, turn)?)?;
    }
    Ok(lines)
}

fn line_of(alloc: Global, context: &Context, turn: &WriteTurn) -> Result<WriteLine, OutOfMemory>
    requires { IsSome (write_of_turn context.now turn.now) }
    ensures { IfOk result (λ line. option_map write_line (write_of_turn context.now turn.now)
        ≡ Some line) }
{
    if turn.removes {
        let removals = context.past().removals();
        return removed_line(alloc, turn, &removals[turn.position]);
    }
    let versions = context.versions();
    made_line(alloc, turn, &versions[turn.position])
}

fn made_line(alloc: Global, turn: &WriteTurn, version: &Version) -> Result<WriteLine, OutOfMemory>
    ensures { IfOk result (λ line. line ≡ write_line (made_write turn.now version.now)) }
{
    Ok(WriteLine::Made {
        revision: turn.place,
        line: turn.line,
        key: key_text(alloc, &version.key)?,
    })
}

fn removed_line(
    alloc: Global,
    turn: &WriteTurn,
    removal: &Removal,
) -> Result<WriteLine, OutOfMemory>
    ensures { IfOk result (λ line. line ≡ write_line (removed_write turn.now removal.now)) }
{
    Ok(WriteLine::Removed {
        low: turn.place,
        high: removal.range.high,
        line: turn.line,
        key: key_text(alloc, &removal.key)?,
    })
}
