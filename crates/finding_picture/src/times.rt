ghost use Rattle.std.specs.Prelude.{◌≡◌, ◌++◌, OnOk, Some, option_map, string_bytes, take};
ghost use Rattle.std.specs.List.{flat_map};
ghost use Rattle.finding_picture.specs.Limits.{most_bars};
ghost use Rattle.finding_picture.specs.Times.{bar_text, begin_or, end_or, ends_text, first_instant, instant};
ghost use Rattle.finding_picture.specs.Times.{last_instant, line_of, span_text, times_axis, times_band};
ghost use Rattle.finding_picture.specs.Times.{times_section, times_text, write_bar};

use crate::limits::MOST_BARS;
use crate::looking::event_on;
use crate::marks::bar_width;
use audit_event::Event;
use base_types::{Moment, OutOfMemory, WriteLine};
use log_context::Context;
use markup::{Axis, first_of, moment_at, push_moment, push_rest};

/// What stands before the event's span.
pub const BEFORE_TIMES: &str = r#"<h2>Time</h2>
<p>The band is the time from the event's receipt to its stage. Each dashed bar is the same of a write in the window;
the table below has its moments.</p>
<figure>
<svg role="img" viewBox="0 0 960 170" aria-labelledby="times-title times-desc">
<title id="times-title">The event and the writes over the line of time</title>
<desc id="times-desc">The event lasted from "#;

/// The axis, and what stands in front of the moment of its low end.
pub const TIMES_AXIS: &str = r#"<line class="axis" x1="40" y1="154" x2="920" y2="154"/>
<text x="40" y="168">"#;

/// What stands behind the moment of its high end.
pub const BEHIND_TIMES: &str = "</text>\n</svg>\n</figure>\n";

/// Appends the drawing of the event and of these writes over the line of time; nothing for a checkpoint.
#[tactic(auto, unfolding(crate::specs::Times::times_text, crate::specs::Times::times_section))]
pub fn push_times(
    text: &mut String,
    context: &Context,
    event: Option<&Event>,
    writes: &[WriteLine],
) -> Result<(), OutOfMemory>
    ensures { OnOk result (string_bytes text.new ≡ string_bytes text.old
        ++ times_text context.now.events (option_map (λ event. event.now) event.entry) writes.now) }
{
    let Some(event) = event else {
        return Ok(());
    };
    let axis = times_axis(context, event, writes);
    push_band(text, &axis, event)?;
    push_span(text, event)?;
    text.push_str("</text>\n")?;
    push_bars(text, context, &axis, writes)?;
    push_ends(text, &axis)?;
    push_rest(text, MOST_BARS, writes.len(), "Writes that aren't drawn")
}

// The axis with the moments of its ends.
#[tactic(auto, unfolding(crate::specs::Times::ends_text))]
fn push_ends(text: &mut String, axis: &Axis) -> Result<(), OutOfMemory>
    ensures { OnOk result (string_bytes text.new ≡ string_bytes text.old ++ ends_text axis.now) }
{
    text.push_str(TIMES_AXIS)?;
    push_moment(text, moment_at(axis.low))?;
    text.push_str("</text>\n<text x=\"920\" y=\"168\" text-anchor=\"end\">")?;
    push_moment(text, moment_at(axis.high))?;
    text.push_str(BEHIND_TIMES)?;
    Ok(())
}

fn instant(at: Moment) -> u64
    ensures { result ≡ instant at }
{
    if at.0 < 0 {
        return 0;
    }
    at.0.unsigned_abs().min(18_446_744_073_709_551_615) as u64
}

fn begin_or(low: u64, event: Option<&Event>) -> u64
    ensures { result ≡ begin_or low (option_map (λ event. event.now) event.entry) }
{
    match event {
        Some(event) => low.min(instant(event.received)),
        None => low,
    }
}

fn end_or(high: u64, event: Option<&Event>) -> u64
    ensures { result ≡ end_or high (option_map (λ event. event.now) event.entry) }
{
    match event {
        Some(event) => high.max(instant(event.staged)),
        None => high,
    }
}

// The first receipt of the event and of the writes that are drawn.
#[tactic(auto, using(std::proofs::lemmas::List::Sums::fold_more))]
fn first_instant(context: &Context, event: &Event, writes: &[WriteLine]) -> u64
    ensures { result ≡ first_instant context.now.events event.now writes.now }
{
    let mut low = instant(event.received);
    for write in first_of(writes, MOST_BARS) {
        low = begin_or(low, event_on(context, line_of(write)));
    }
    low
}

// The last stage of the event and of the writes that are drawn.
#[tactic(auto, using(std::proofs::lemmas::List::Sums::fold_more))]
fn last_instant(context: &Context, event: &Event, writes: &[WriteLine]) -> u64
    ensures { result ≡ last_instant context.now.events event.now writes.now }
{
    let mut high = instant(event.staged);
    for write in first_of(writes, MOST_BARS) {
        high = end_or(high, event_on(context, line_of(write)));
    }
    high
}

fn times_axis(context: &Context, event: &Event, writes: &[WriteLine]) -> Axis
    ensures { result ≡ times_axis context.now.events event.now writes.now }
{
    Axis {
        low: first_instant(context, event, writes),
        high: last_instant(context, event, writes),
        left: 40,
        width: 880,
    }
}

fn line_of(write: &WriteLine) -> u64
    ensures { result ≡ line_of write.now }
{
    match write {
        WriteLine::Made { line, .. } => *line,
        WriteLine::Removed { line, .. } => *line,
    }
}

#[tactic(auto, unfolding(crate::specs::Times::span_text))]
fn push_span(text: &mut String, event: &Event) -> Result<(), OutOfMemory>
    ensures { OnOk result (string_bytes text.new ≡ string_bytes text.old ++ span_text event.now) }
{
    push_moment(text, event.received)?;
    text.push_str(" to ")?;
    push_moment(text, event.staged)
}

#[tactic(auto, unfolding(crate::specs::Times::times_band))]
fn push_band(text: &mut String, axis: &Axis, event: &Event) -> Result<(), OutOfMemory>
    ensures { OnOk result (string_bytes text.new ≡ string_bytes text.old
        ++ times_band axis.now event.now) }
{
    let low = instant(event.received);
    let x = axis.position(low);
    let width = bar_width(axis, low, instant(event.staged));
    text.push_str(BEFORE_TIMES)?;
    push_span(text, event)?;
    write!(
        text,
        "</desc>\n<rect class=\"band\" x=\"{x}\" y=\"30\" width=\"{width}\" height=\"124\">\
        <title>the event</title></rect>\n<text x=\"480\" y=\"22\" text-anchor=\"middle\">the event: "
    )?;
    Ok(())
}

fn push_bars(
    text: &mut String,
    context: &Context,
    axis: &Axis,
    writes: &[WriteLine],
) -> Result<(), OutOfMemory>
    ensures { OnOk result (string_bytes text.new ≡ string_bytes text.old ++ flat_map
        (write_bar context.now.events axis.now) (take most_bars writes.now)) }
{
    for write in first_of(writes, MOST_BARS) {
        let line = line_of(write);
        push_bar(text, axis, line, event_on(context, line))?;
    }
    Ok(())
}

#[tactic(auto, unfolding(crate::specs::Times::bar_text))]
fn push_bar(
    text: &mut String,
    axis: &Axis,
    line: u64,
    event: Option<&Event>,
) -> Result<(), OutOfMemory>
    ensures { OnOk result (string_bytes text.new ≡ string_bytes text.old ++ bar_text axis.now line
        (option_map (λ event. event.now) event.entry)) }
{
    let Some(event) = event else {
        return Ok(());
    };
    let low = instant(event.received);
    let x = axis.position(low);
    let y = 34 + line % 10 * 12;
    let width = bar_width(axis, low, instant(event.staged));
    write!(
        text,
        r#"<rect class="hatched" x="{x}" y="{y}" width="{width}" height="8"><title>line {line}: "#
    )?;
    push_span(text, event)?;
    text.push_str("</title></rect>\n")?;
    Ok(())
}
