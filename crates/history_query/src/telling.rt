ghost use Rattle.std.specs.Prelude.{◌≡◌, ◌<◌, ◌↔◌, ◌++◌, codes, IsTrue, OnOk, option_map, string_bytes};
ghost use Rattle.base_types.specs.Escapes.{escaped};
ghost use Rattle.history_query.specs.Telling.{IsBelowStart, IsTracked, IsUntold, user_or_none, user_text, who_text};
ghost use Rattle.verdict_text.specs.Words.{ended};
ghost use Rattle.write_groups.specs.Lines.{line_at};

use audit_event::Event;
use base_types::{ObjectKey, OutOfMemory, Text, escape};
use log_context::Context;
use object_past::Maker;
use setup_file::{Setup, Tracked};
use std::alloc::{AllocError, Global};
use write_groups::LogEvent;

fn is_of(tracked: &Tracked, key: &ObjectKey) -> bool
    ensures { IsTrue result ↔ ((tracked.now.group ≡ key.now.group)
        × (tracked.now.resource ≡ key.now.resource)) }
{
    tracked.group == key.group && tracked.resource == key.resource
}

/// Whether the setup names the key's group and resource.
pub fn is_tracked(setup: &Setup, key: &ObjectKey) -> bool
    ensures { IsTrue result ↔ IsTracked setup.now key.now }
{
    setup.resources.iter().any(|tracked| is_of(tracked, key))
}

/// Whether the log begins above the place.
pub fn is_below_start(context: &Context, place: u64) -> bool
    ensures { IsTrue result ↔ IsBelowStart context.now place }
{
    place < context.setup().start.get()
}

/// Whether the log tells nothing of such an object, or of this place.
pub fn is_untold(context: &Context, key: &ObjectKey, place: u64) -> bool
    ensures { IsTrue result ↔ IsUntold context.now key.now place }
{
    is_below_start(context, place) || !is_tracked(context.setup(), key)
}

/// The line of the event of this number.
pub fn line_at(log: &[LogEvent], number: u32) -> u64
    ensures { result ≡ line_at log.now number }
{
    match log.get(number as usize) {
        Some(event) => event.line,
        None => 0,
    }
}

/// Appends a piece of a text.
pub fn append_piece(text: &mut String, piece: &str) -> Result<(), OutOfMemory>
    ensures { OnOk result (string_bytes text.new ≡ string_bytes text.old ++ piece.now) }
{
    Ok(text.push_str(piece)?)
}

/// Appends the line of the write that made a version, `snapshot` or `unknown`.
pub fn append_who(text: &mut String, log: &[LogEvent], maker: Maker) -> Result<(), AllocError>
    ensures { OnOk result (string_bytes text.new ≡ string_bytes text.old
        ++ who_text log.now maker) }
{
    match maker {
        Maker::Snapshot => text.push_str("snapshot"),
        Maker::Event(number) => write!(text, "{}", line_at(log, number)),
        Maker::Unknown => text.push_str("unknown"),
    }
}

// The event that made a version, where a line tells of it.
fn write_of(events: &[Event], maker: Maker) -> Option<&Event>
    ensures { user_text events.now maker ≡ user_or_none (option_map (λ event. event.now) result) }
{
    match maker {
        Maker::Event(number) => events.get(number as usize),
        Maker::Snapshot => None,
        Maker::Unknown => None,
    }
}

// Appends a name as the last word of a line.
fn append_name(alloc: Global, text: &mut String, name: &Text) -> Result<(), OutOfMemory>
    ensures { OnOk result (string_bytes text.new
        ≡ string_bytes text.old ++ ended (codes " " ++ escaped name.now)) }
{
    let word = escape(alloc, name)?;
    let wrote = writeln!(text, " {}", word.as_str());
    drop(word);
    Ok(wrote?)
}

/// Appends as the last word of a line who authenticated for that write, or `-` where no line tells of it.
pub fn append_user(
    alloc: Global,
    text: &mut String,
    events: &[Event],
    maker: Maker,
) -> Result<(), OutOfMemory>
    ensures { OnOk result (string_bytes text.new ≡ string_bytes text.old
        ++ ended (codes " " ++ user_text events.now maker)) }
{
    match write_of(events, maker) {
        Some(event) => append_name(alloc, text, &event.user.name),
        None => append_piece(text, " -\n"),
    }
}
