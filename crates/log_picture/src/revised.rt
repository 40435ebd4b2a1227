ghost use Rattle.std.specs.Prelude.{◌≡◌, ◌++◌, IfOk, OnOk, flat_map, map, string_bytes};
ghost use Rattle.log_picture.specs.Revised.{axis_text, bar_text, bar_width, unrecorded_mark, history_drawing};
ghost use Rattle.log_picture.specs.Revised.{history_marks, history_text, is_written, left_out_text, range_text};
ghost use Rattle.log_picture.specs.Revised.{removal_mark, version_mark, written_versions};

use crate::limits::{REMOVAL_LIMIT, UNRECORDED_LIMIT, VERSION_LIMIT};
use crate::spreading::{append_rest, spread};
use crate::tables::{append_unrecorded, append_versions};
use base_types::{OutOfMemory, Range, key_text};
use markup::{Axis, EscapedText};
use object_past::{Maker, Removal, Version};
use std::alloc::Global;
use write_groups::{LogEvent, line_at};

/// An unrecorded write.
#[derive(Clone, Copy)]
pub struct UnrecordedWrite {
    /// The event's line.
    pub line: u64,
    /// The lowest place of its window.
    pub low: u64,
}

/// What is drawn of a log's history by revision.
#[derive(Clone, Copy)]
pub struct Drawn<'a> {
    pub axis: Axis,
    pub log: &'a [LogEvent],
    pub versions: &'a [&'a Version],
    pub removals: &'a [&'a Removal],
    pub unrecorded_writes: &'a [UnrecordedWrite],
}

/// What stands in front of the drawing's marks.
pub const HISTORY_HEAD: &str = r#"<h2>The history by revision</h2>
<figure>
<svg viewBox="0 0 960 205" role="img" aria-labelledby="history-title history-desc">
<title id="history-title">The history by revision</title>
<desc id="history-desc">Each version behind the start is a tick at its revision, each removal a bar over the range of
its places, each unrecorded write a broken tick at the lowest place of its window. The tables below say the same.</desc>
<text x="4" y="36">Versions</text>
<text x="4" y="98">Removals</text>
<text x="4" y="158">Unrecorded writes</text>
"#;

fn is_written(maker: Maker) -> bool
    ensures { result ≡ is_written maker }
{
    match maker {
        Maker::Snapshot => false,
        Maker::Event(_) => true,
        Maker::Unknown => true,
    }
}

/// The versions behind the start.
pub fn written_of(alloc: Global, versions: &[Version]) -> Result<Vec<&Version>, OutOfMemory>
    ensures { IfOk result (λ written. map (λ one. one.now) written.items
        ≡ written_versions versions.now) }
{
    let mut written = Vec::new(alloc);
    for version in versions {
        if is_written(version.maker) {
            written.push(version)?;
        }
    }
    Ok(written)
}

/// Appends the drawing of the history by revision, and its tables but that of the removals.
#[tactic(auto, unfolding(crate::specs::Revised::history_text))]
pub fn append_history(
    alloc: Global,
    text: &mut String,
    drawn: &Drawn<'_>,
) -> Result<(), OutOfMemory>
    ensures { OnOk result (string_bytes text.new ≡ string_bytes text.old
        ++ history_text drawn.now.axis drawn.now.log.now
        (map (λ one. one.now) drawn.now.versions.now) (map (λ one. one.now) drawn.now.removals.now)
        drawn.now.unrecorded_writes.now) }
{
    append_drawing(alloc, text, drawn)?;
    append_left_out(alloc, text, drawn)?;
    append_versions(alloc, text, drawn.log, drawn.versions)?;
    append_unrecorded(alloc, text, drawn.unrecorded_writes)
}

#[tactic(auto, unfolding(crate::specs::Revised::history_drawing))]
fn append_drawing(alloc: Global, text: &mut String, drawn: &Drawn<'_>) -> Result<(), OutOfMemory>
    ensures { OnOk result (string_bytes text.new ≡ string_bytes text.old
        ++ history_drawing drawn.now.axis drawn.now.log.now
        (map (λ one. one.now) drawn.now.versions.now) (map (λ one. one.now) drawn.now.removals.now)
        drawn.now.unrecorded_writes.now) }
{
    text.push_str(HISTORY_HEAD)?;
    append_history_marks(alloc, text, drawn)?;
    append_axis(text, &drawn.axis)
}

#[tactic(auto, unfolding(crate::specs::Revised::history_marks))]
fn append_history_marks(
    alloc: Global,
    text: &mut String,
    drawn: &Drawn<'_>,
) -> Result<(), OutOfMemory>
    ensures { OnOk result (string_bytes text.new ≡ string_bytes text.old
        ++ history_marks drawn.now.axis drawn.now.log.now
        (map (λ one. one.now) drawn.now.versions.now) (map (λ one. one.now) drawn.now.removals.now)
        drawn.now.unrecorded_writes.now) }
{
    let axis = &drawn.axis;
    let versions = spread(alloc, drawn.versions, VERSION_LIMIT)?;
    let removals = spread(alloc, drawn.removals, REMOVAL_LIMIT)?;
    let unrecorded_writes = spread(alloc, drawn.unrecorded_writes, UNRECORDED_LIMIT)?;
    append_version_marks(alloc, text, axis, versions.as_slice())?;
    append_removal_marks(alloc, text, axis, drawn.log, removals.as_slice())?;
    append_unrecorded_marks(text, axis, unrecorded_writes.as_slice())
}

fn append_version_marks(
    alloc: Global,
    text: &mut String,
    axis: &Axis,
    versions: &[&Version],
) -> Result<(), OutOfMemory>
    ensures { OnOk result (string_bytes text.new ≡ string_bytes text.old ++ flat_map
        (version_mark axis.now) (map (λ one. one.now) versions.now)) }
{
    for version in versions {
        append_version_mark(alloc, text, axis, version)?;
    }
    Ok(())
}

#[tactic(auto, unfolding(crate::specs::Revised::tick_text))]
fn append_version_mark(
    alloc: Global,
    text: &mut String,
    axis: &Axis,
    version: &Version,
) -> Result<(), OutOfMemory>
    ensures { OnOk result (string_bytes text.new ≡ string_bytes text.old
        ++ version_mark axis.now version.now) }
{
    let revision = version.revision.get();
    let x = axis.position(revision);
    let key = key_text(alloc, &version.key)?;
    writeln!(
        text,
        "<line class=\"tick\" x1=\"{x}\" y1=\"20\" x2=\"{x}\" y2=\"44\"><title>Revision {revision}: {}</title></line>",
        EscapedText(key.as_str())
    )?;
    Ok(())
}

fn append_removal_marks(
    alloc: Global,
    text: &mut String,
    axis: &Axis,
    log: &[LogEvent],
    removals: &[&Removal],
) -> Result<(), OutOfMemory>
    ensures { OnOk result (string_bytes text.new ≡ string_bytes text.old ++ flat_map
        (removal_mark axis.now log.now) (map (λ one. one.now) removals.now)) }
{
    for removal in removals {
        append_removal_mark(alloc, text, axis, log, removal)?;
    }
    Ok(())
}

fn bar_width(axis: &Axis, low: u64, high: u64) -> u64
    ensures { result ≡ bar_width axis.now low high }
{
    axis.position(high)
        .saturating_sub(axis.position(low))
        .max(3)
}

#[tactic(auto, unfolding(crate::specs::Revised::removal_mark))]
fn append_removal_mark(
    alloc: Global,
    text: &mut String,
    axis: &Axis,
    log: &[LogEvent],
    removal: &Removal,
) -> Result<(), OutOfMemory>
    ensures { OnOk result (string_bytes text.new ≡ string_bytes text.old
        ++ removal_mark axis.now log.now removal.now) }
{
    let range = removal.range;
    let line = line_at(log, range.event);
    let key = key_text(alloc, &removal.key)?;
    append_bar(text, axis, range)?;
    append_range(text, line, range.low, range.high, key.as_str())
}

#[tactic(auto, unfolding(crate::specs::Revised::rect_text))]
fn append_bar(text: &mut String, axis: &Axis, range: Range) -> Result<(), OutOfMemory>
    ensures { OnOk result (string_bytes text.new ≡ string_bytes text.old
        ++ bar_text axis.now range) }
{
    let x = axis.position(range.low);
    let y = 62 + range.event % 6 * 11;
    let width = bar_width(axis, range.low, range.high);
    write!(
        text,
        "<rect class=\"bar\" x=\"{x}\" y=\"{y}\" width=\"{width}\" height=\"8\"><title>Line "
    )?;
    Ok(())
}

#[tactic(auto, unfolding(crate::specs::Revised::range_text))]
fn append_range(
    text: &mut String,
    line: u64,
    low: u64,
    high: u64,
    key: &str,
) -> Result<(), OutOfMemory>
    ensures { OnOk result (string_bytes text.new ≡ string_bytes text.old
        ++ range_text line low high key.now) }
{
    writeln!(
        text,
        "{line}: removed at a place from {low} to {high}: {}</title></rect>",
        EscapedText(key)
    )?;
    Ok(())
}

fn append_unrecorded_marks(
    text: &mut String,
    axis: &Axis,
    unrecorded_writes: &[UnrecordedWrite],
) -> Result<(), OutOfMemory>
    ensures { OnOk result (string_bytes text.new ≡ string_bytes text.old
        ++ flat_map (unrecorded_mark axis.now) unrecorded_writes.now) }
{
    for unrecorded in unrecorded_writes {
        append_unrecorded_mark(text, axis, *unrecorded)?;
    }
    Ok(())
}

#[tactic(auto, unfolding(crate::specs::Revised::unrecorded_mark))]
fn append_unrecorded_mark(
    text: &mut String,
    axis: &Axis,
    unrecorded: UnrecordedWrite,
) -> Result<(), OutOfMemory>
    ensures { OnOk result (string_bytes text.new ≡ string_bytes text.old
        ++ unrecorded_mark axis.now unrecorded) }
{
    let UnrecordedWrite { line, low } = unrecorded;
    let x = axis.position(low);
    writeln!(
        text,
        "<line class=\"hatched\" x1=\"{x}\" y1=\"142\" x2=\"{x}\" y2=\"166\">\
        <title>Line {line}: unrecorded write, from place {low} on</title></line>"
    )?;
    Ok(())
}

#[tactic(auto, unfolding(crate::specs::Revised::axis_text))]
fn append_axis(text: &mut String, axis: &Axis) -> Result<(), OutOfMemory>
    ensures { OnOk result (string_bytes text.new ≡ string_bytes text.old ++ axis_text axis.now) }
{
    let Axis { low, high, .. } = *axis;
    write!(
        text,
        "<line class=\"axis\" x1=\"150\" y1=\"178\" x2=\"930\" y2=\"178\"/>\n\
        <text x=\"150\" y=\"196\">revision {low}</text>\n\
        <text x=\"930\" y=\"196\" text-anchor=\"end\">revision {high}</text>\n</svg>\n</figure>\n"
    )?;
    Ok(())
}

#[tactic(auto, unfolding(crate::specs::Revised::left_out_text))]
fn append_left_out(alloc: Global, text: &mut String, drawn: &Drawn<'_>) -> Result<(), OutOfMemory>
    ensures { OnOk result (string_bytes text.new ≡ string_bytes text.old ++ left_out_text
        (map (λ one. one.now) drawn.now.versions.now) (map (λ one. one.now) drawn.now.removals.now)
        drawn.now.unrecorded_writes.now) }
{
    append_rest(
        alloc,
        text,
        drawn.versions,
        VERSION_LIMIT,
        "Versions that aren't drawn",
    )?;
    append_rest(
        alloc,
        text,
        drawn.removals,
        REMOVAL_LIMIT,
        "Removals that aren't drawn",
    )?;
    append_rest(
        alloc,
        text,
        drawn.unrecorded_writes,
        UNRECORDED_LIMIT,
        "Unrecorded writes that aren't drawn",
    )
}
