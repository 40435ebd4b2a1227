ghost use Rattle.std.specs.Prelude.{◌≡◌, ◌++◌, OnOk, string_bytes};
ghost use Rattle.finding_picture.specs.Marks.{bar_width, drawn_high, last_revision, mark_text, places_axis};
ghost use Rattle.finding_picture.specs.Marks.{range_text, tick_text};

use crate::looking::user_on;
use base_types::{OutOfMemory, Text, WriteLine};
use log_context::Context;
use markup::{Axis, EscapedText};
use object_past::Version;

fn last_revision(versions: &[Version]) -> u64
    ensures { result ≡ last_revision versions.now }
{
    match versions.get(versions.len().saturating_sub(1)) {
        Some(version) => version.revision.get(),
        None => 0,
    }
}

// A window that ends behind all revisions is drawn up to the last one.
fn drawn_high(versions: &[Version], low: u64, high: u64) -> u64
    ensures { result ≡ drawn_high versions.now low high }
{
    if high == u64::MAX {
        return last_revision(versions).max(low);
    }
    high
}

/// The axis on which the places from `low` to `high` are drawn.
pub fn places_axis(versions: &[Version], low: u64, high: u64) -> Axis
    ensures { result ≡ places_axis versions.now low high }
{
    Axis {
        low,
        high: drawn_high(versions, low, high),
        left: 40,
        width: 880,
    }
}

/// How wide a bar of the axis from one number to another is drawn, so that it can be seen.
pub fn bar_width(axis: &Axis, low: u64, high: u64) -> u64
    ensures { result ≡ bar_width axis.now low high }
{
    axis.position(high)
        .saturating_sub(axis.position(low))
        .max(4)
}

/// Appends the tick of a write that made a revision, or the bar of a removal, with who wrote.
#[tactic(auto, unfolding(crate::specs::Marks::mark_text))]
pub fn push_mark(
    text: &mut String,
    context: &Context,
    axis: &Axis,
    write: &WriteLine,
) -> Result<(), OutOfMemory>
    ensures { OnOk result (string_bytes text.new ≡ string_bytes text.old
        ++ mark_text context.now.events axis.now write.now) }
{
    match write {
        WriteLine::Made {
            revision,
            line,
            key,
        } => push_tick(text, axis, *revision, *line, key, user_on(context, *line)),
        WriteLine::Removed {
            low,
            high,
            line,
            key,
        } => push_range(text, axis, *low, *high, *line, key, user_on(context, *line)),
    }
}

#[tactic(auto, unfolding(crate::specs::Marks::tick_text))]
fn push_tick(
    text: &mut String,
    axis: &Axis,
    revision: u64,
    line: u64,
    key: &Text,
    user: &str,
) -> Result<(), OutOfMemory>
    ensures { OnOk result (string_bytes text.new ≡ string_bytes text.old
        ++ tick_text axis.now revision line key.now user.now) }
{
    let x = axis.position(revision);
    let object = EscapedText(key.as_str());
    let user = EscapedText(user);
    write!(
        text,
        r#"<line class="tick" x1="{x}" y1="36" x2="{x}" y2="80"><title>"#
    )?;
    writeln!(
        text,
        "revision {revision} by line {line}: {object}, user {user}</title></line>"
    )?;
    Ok(())
}

#[tactic(auto, unfolding(crate::specs::Marks::range_text))]
fn push_range(
    text: &mut String,
    axis: &Axis,
    low: u64,
    high: u64,
    line: u64,
    key: &Text,
    user: &str,
) -> Result<(), OutOfMemory>
    ensures { OnOk result (string_bytes text.new ≡ string_bytes text.old
        ++ range_text axis.now low high line key.now user.now) }
{
    let x = axis.position(low);
    let y = 40 + line % 3 * 13;
    let width = bar_width(axis, low, high);
    let object = EscapedText(key.as_str());
    let user = EscapedText(user);
    write!(
        text,
        r#"<rect class="bar" x="{x}" y="{y}" width="{width}" height="9"><title>"#
    )?;
    writeln!(
        text,
        "removal from {low} to {high} by line {line}: {object}, user {user}</title></rect>"
    )?;
    Ok(())
}
