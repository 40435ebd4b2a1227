ghost use Rattle.std.specs.Prelude.{◌≡◌, ◌++◌, OnOk, flat_map, map, string_bytes};
ghost use Rattle.log_picture.specs.Lanes.{asked_cells, decision_words, event_row, events_table, pair_of};
ghost use Rattle.log_picture.specs.Revised.{unrecorded_row, unrecorded_table, maker_text, version_cells, version_row};
ghost use Rattle.log_picture.specs.Revised.{versions_table};

use crate::gone::TABLE_END;
use crate::kind::{kind_of, kind_words};
use crate::lanes::Marked;
use crate::limits::{UNRECORDED_LIMIT, VERSION_LIMIT};
use crate::revised::UnrecordedWrite;
use crate::spreading::spread;
use audit_event::Event;
use base_types::{Decision, OutOfMemory, key_text};
use markup::{EscapedText, push_moment};
use object_past::{Maker, Version};
use std::alloc::Global;
use write_groups::{LogEvent, line_at};

/// What stands in front of the rows of the versions.
pub const VERSIONS_HEAD: &str = r#"<h3>Versions behind the start</h3>
<table>
<thead><tr><th scope="col">Revision</th><th scope="col">Object</th><th scope="col">Written by</th></tr></thead>
<tbody>
"#;

/// What stands in front of the rows of the unrecorded writes.
pub const UNRECORDED_HEAD: &str = r#"<h3>Unrecorded writes</h3>
<p>From the lowest place of its window on, nothing is known of the objects that such a write may have changed.</p>
<table>
<thead><tr><th scope="col">Line</th><th scope="col">Lowest place</th></tr></thead>
<tbody>
"#;

/// What stands in front of the rows of the drawn events.
pub const EVENTS_HEAD: &str = r#"<details>
<summary>The drawn events as a table</summary>
<table>
<thead><tr><th scope="col">Line</th><th scope="col">Receipt</th><th scope="col">Request</th>
<th scope="col">What the answer says</th><th scope="col">Decision</th></tr></thead>
<tbody>
"#;

/// What stands behind them.
pub const EVENTS_END: &str = "</tbody>\n</table>\n</details>\n";

/// Appends the table of the drawn versions.
#[tactic(auto, unfolding(crate::specs::Revised::versions_table))]
pub fn append_versions(
    alloc: Global,
    text: &mut String,
    log: &[LogEvent],
    versions: &[&Version],
) -> Result<(), OutOfMemory>
    ensures { OnOk result (string_bytes text.new ≡ string_bytes text.old ++ versions_table log.now
        (map (λ one. one.now) versions.now)) }
{
    let listed = spread(alloc, versions, VERSION_LIMIT)?;
    text.push_str(VERSIONS_HEAD)?;
    append_version_rows(alloc, text, log, listed.as_slice())?;
    text.push_str(TABLE_END)?;
    Ok(())
}

fn append_version_rows(
    alloc: Global,
    text: &mut String,
    log: &[LogEvent],
    versions: &[&Version],
) -> Result<(), OutOfMemory>
    ensures { OnOk result (string_bytes text.new ≡ string_bytes text.old ++ flat_map
        (version_row log.now) (map (λ one. one.now) versions.now)) }
{
    for version in versions {
        append_version_row(alloc, text, log, version)?;
    }
    Ok(())
}

#[tactic(auto, unfolding(crate::specs::Revised::version_row))]
fn append_version_row(
    alloc: Global,
    text: &mut String,
    log: &[LogEvent],
    version: &Version,
) -> Result<(), OutOfMemory>
    ensures { OnOk result (string_bytes text.new ≡ string_bytes text.old
        ++ version_row log.now version.now) }
{
    append_version_cells(alloc, text, version)?;
    append_maker(text, log, version.maker)?;
    text.push_str("</td></tr>\n")?;
    Ok(())
}

#[tactic(auto, unfolding(crate::specs::Revised::version_cells))]
fn append_version_cells(
    alloc: Global,
    text: &mut String,
    version: &Version,
) -> Result<(), OutOfMemory>
    ensures { OnOk result (string_bytes text.new ≡ string_bytes text.old
        ++ version_cells version.now) }
{
    let revision = version.revision.get();
    let key = key_text(alloc, &version.key)?;
    write!(
        text,
        "<tr><td>{revision}</td><td>{}</td><td>",
        EscapedText(key.as_str())
    )?;
    Ok(())
}

#[tactic(auto, unfolding(crate::specs::Revised::maker_text))]
fn append_maker(text: &mut String, log: &[LogEvent], maker: Maker) -> Result<(), OutOfMemory>
    ensures { OnOk result (string_bytes text.new ≡ string_bytes text.old
        ++ maker_text log.now maker) }
{
    match maker {
        Maker::Snapshot => text.push_str("there at the start")?,
        Maker::Event(number) => write!(text, "line {}", line_at(log, number))?,
        Maker::Unknown => text.push_str("an unrecorded write")?,
    }
    Ok(())
}

/// Appends the table of the drawn unrecorded writes.
#[tactic(auto, unfolding(crate::specs::Revised::unrecorded_table))]
pub fn append_unrecorded(
    alloc: Global,
    text: &mut String,
    unrecorded_writes: &[UnrecordedWrite],
) -> Result<(), OutOfMemory>
    ensures { OnOk result (string_bytes text.new ≡ string_bytes text.old
        ++ unrecorded_table unrecorded_writes.now) }
{
    let listed = spread(alloc, unrecorded_writes, UNRECORDED_LIMIT)?;
    text.push_str(UNRECORDED_HEAD)?;
    append_unrecorded_rows(text, listed.as_slice())?;
    text.push_str(TABLE_END)?;
    Ok(())
}

fn append_unrecorded_rows(
    text: &mut String,
    unrecorded_writes: &[UnrecordedWrite],
) -> Result<(), OutOfMemory>
    ensures { OnOk result (string_bytes text.new ≡ string_bytes text.old
        ++ flat_map unrecorded_row unrecorded_writes.now) }
{
    for unrecorded in unrecorded_writes {
        append_unrecorded_row(text, *unrecorded)?;
    }
    Ok(())
}

#[tactic(auto, unfolding(crate::specs::Revised::unrecorded_row))]
fn append_unrecorded_row(text: &mut String, unrecorded: UnrecordedWrite) -> Result<(), OutOfMemory>
    ensures { OnOk result (string_bytes text.new ≡ string_bytes text.old
        ++ unrecorded_row unrecorded) }
{
    let UnrecordedWrite { line, low } = unrecorded;
    writeln!(text, "<tr><td>{line}</td><td>{low}</td></tr>")?;
    Ok(())
}

/// Appends the table of the drawn events.
#[tactic(auto, unfolding(crate::specs::Lanes::events_table, crate::specs::Texts::events_head))]
pub fn append_events(text: &mut String, drawn: &[Marked<'_>]) -> Result<(), OutOfMemory>
    ensures { OnOk result (string_bytes text.new ≡ string_bytes text.old
        ++ events_table (map pair_of drawn.now)) }
{
    text.push_str(EVENTS_HEAD)?;
    append_event_rows(text, drawn)?;
    text.push_str(EVENTS_END)?;
    Ok(())
}

fn decision_words(decision: Option<Decision>) -> &'static str
    ensures { result.now ≡ decision_words decision }
{
    match decision {
        Some(Decision::Allow) => "allow",
        Some(Decision::Forbid) => "forbid",
        None => "not judged",
    }
}

fn append_event_rows(text: &mut String, drawn: &[Marked<'_>]) -> Result<(), OutOfMemory>
    ensures { OnOk result (string_bytes text.new ≡ string_bytes text.old ++ flat_map event_row
        (map pair_of drawn.now)) }
{
    for one in drawn {
        append_event_row(text, one.event, one.logged)?;
    }
    Ok(())
}

#[tactic(auto, unfolding(crate::specs::Lanes::event_row))]
fn append_event_row(text: &mut String, event: &Event, logged: &LogEvent) -> Result<(), OutOfMemory>
    ensures { OnOk result (string_bytes text.new ≡ string_bytes text.old
        ++ event_row (event.now, logged.now)) }
{
    write!(text, "<tr><td>{}</td><td>", event.line)?;
    push_moment(text, event.received)?;
    append_asked(text, event, logged)
}

#[tactic(auto, unfolding(crate::specs::Lanes::asked_cells))]
fn append_asked(text: &mut String, event: &Event, logged: &LogEvent) -> Result<(), OutOfMemory>
    ensures { OnOk result (string_bytes text.new ≡ string_bytes text.old
        ++ asked_cells event.now logged.now) }
{
    let answered = kind_words(kind_of(&logged.answer));
    let decided = decision_words(logged.decision);
    writeln!(
        text,
        "</td><td>{} {}</td><td>{answered}</td><td>{decided}</td></tr>",
        EscapedText(event.attrs.verb.as_str()),
        EscapedText(event.attrs.path.as_str())
    )?;
    Ok(())
}
