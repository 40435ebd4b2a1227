ghost use Rattle.std.specs.Prelude.{◌≡◌, [], ◌∷◌, ◌++◌, IfOk, OnOk, filter, flat_map, map, string_bytes};
ghost use Rattle.log_picture.specs.Lanes.{axis_high_text, axis_low_text, decision_form, drawn_text, form_mark};
ghost use Rattle.log_picture.specs.Lanes.{form_of, has_mark, lane_of, mark_text, marked_events, marked_text};
ghost use Rattle.log_picture.specs.Lanes.{marks_text, outline_of, pair_of, shape_text, style_of, time_axis_text};
ghost use Rattle.log_picture.specs.Lanes.{time_drawing, time_text, title_text};

use crate::kind::{AnswerKind, kind_of};
use crate::limits::EVENT_LIMIT;
use crate::overview::receipt;
use crate::spreading::spread;
use crate::tables::append_events;
use audit_event::Event;
use base_types::{Decision, OutOfMemory};
use markup::{Axis, EscapedText, moment_at, push_moment, push_rest};
use std::alloc::Global;
use write_groups::LogEvent;

/// How an event is marked. Forms differ in their lines and not by colour alone.
#[derive(Clone, Copy, PartialEq, Eq)]
pub enum MarkForm {
    Write,
    Removal,
    Read,
    List,
    Allow,
    Forbid,
    Unrecorded,
}

/// An event that has a mark, and what its answer says.
#[derive(Clone, Copy)]
pub struct Marked<'a> {
    pub event: &'a Event,
    pub logged: &'a LogEvent,
}

/// What stands in front of the drawing's marks.
pub const TIME_HEAD: &str = r#"<h2>The log over time</h2>
<figure>
<svg viewBox="0 0 960 225" role="img" aria-labelledby="time-title time-desc">
<title id="time-title">The log over time</title>
<desc id="time-desc">Each event stands at the receipt of its request: writes as ticks, removals as diamonds, reads as
circles, lists as squares, allowed requests as crosses that stand, forbidden ones as crosses that lie, unrecorded writes as
broken ticks. The table below says the same.</desc>
<text x="4" y="28">Writes</text>
<text x="4" y="58">Removals</text>
<text x="4" y="88">Reads</text>
<text x="4" y="118">Lists</text>
<text x="4" y="148">Decisions</text>
<text x="4" y="178">Unrecorded writes</text>
"#;

/// What stands in place of the drawing where no event has a mark.
pub const NO_EVENTS: &str = "<h2>The log over time</h2>\n<p>No event is drawn.</p>\n";

fn form_of(kind: AnswerKind) -> Option<MarkForm>
    ensures { result ≡ form_of kind }
{
    match kind {
        AnswerKind::Created => Some(MarkForm::Write),
        AnswerKind::Changed => Some(MarkForm::Write),
        AnswerKind::Removed => Some(MarkForm::Removal),
        AnswerKind::Unrecorded => Some(MarkForm::Unrecorded),
        AnswerKind::Saw => Some(MarkForm::Read),
        AnswerKind::NotFound => Some(MarkForm::Read),
        AnswerKind::AlreadyExists => Some(MarkForm::Read),
        AnswerKind::Conflict => Some(MarkForm::Read),
        AnswerKind::Listed => Some(MarkForm::List),
        AnswerKind::Free => None,
        AnswerKind::Aside => None,
    }
}

fn decision_form(decision: Option<Decision>) -> Option<MarkForm>
    ensures { result ≡ decision_form decision }
{
    match decision {
        Some(Decision::Allow) => Some(MarkForm::Allow),
        Some(Decision::Forbid) => Some(MarkForm::Forbid),
        None => None,
    }
}

// By which of the page's styles it is drawn.
fn style_of(form: MarkForm) -> &'static str
    ensures { result.now ≡ style_of form }
{
    match form {
        MarkForm::Write => "tick",
        MarkForm::Removal => "diamond",
        MarkForm::Read => "segment",
        MarkForm::List => "segment",
        MarkForm::Allow => "tick",
        MarkForm::Forbid => "tick",
        MarkForm::Unrecorded => "hatched",
    }
}

// The lines of the form, as SVG's path data.
fn outline_of(form: MarkForm) -> &'static str
    ensures { result.now ≡ outline_of form }
{
    match form {
        MarkForm::Write => "M0 -9V9",
        MarkForm::Removal => "M0 -8L6 0L0 8L-6 0Z",
        MarkForm::Read => "M-5 0A5 5 0 1 0 5 0A5 5 0 1 0 -5 0Z",
        MarkForm::List => "M-5 -5H5V5H-5Z",
        MarkForm::Allow => "M-6 0H6M0 -6V6",
        MarkForm::Forbid => "M-5 -5L5 5M5 -5L-5 5",
        MarkForm::Unrecorded => "M0 -9V9",
    }
}

// How far down its lane is.
fn lane_of(form: MarkForm) -> u32
    ensures { result ≡ lane_of form }
{
    match form {
        MarkForm::Write => 24,
        MarkForm::Removal => 54,
        MarkForm::Read => 84,
        MarkForm::List => 114,
        MarkForm::Allow => 144,
        MarkForm::Forbid => 144,
        MarkForm::Unrecorded => 174,
    }
}

fn has_mark(event: &Event, logged: &LogEvent) -> bool
    ensures { result ≡ has_mark (event.now, logged.now) }
{
    form_of(kind_of(&logged.answer)).is_some() || decision_form(logged.decision).is_some()
}

// Puts an event behind the others, where it has a mark.
fn push_marked<'a>(
    marked: &mut Vec<Marked<'a>>,
    event: &'a Event,
    logged: &'a LogEvent,
) -> Result<(), OutOfMemory>
    ensures { OnOk result (map pair_of marked.new.items ≡ map pair_of marked.old.items
        ++ filter has_mark ((event.now, logged.now) ∷ [])) }
{
    if !has_mark(event, logged) {
        return Ok(());
    }
    marked.push(Marked { event, logged })?;
    Ok(())
}

fn marked_of<'a>(
    alloc: Global,
    events: &'a [Event],
    log: &'a [LogEvent],
) -> Result<Vec<Marked<'a>>, OutOfMemory>
    ensures { IfOk result (λ marked. map pair_of marked.items ≡ marked_events events.now log.now) }
{
    let count = events.len().min(log.len());
    let mut marked = Vec::new(alloc);
    for number in 0..count {
        push_marked(&mut marked, &events[number], &log[number])?;
    }
    Ok(marked)
}

/// Appends the drawing of the log over time, and its table.
pub fn append_time(
    alloc: Global,
    text: &mut String,
    axis: &Axis,
    events: &[Event],
    log: &[LogEvent],
) -> Result<(), OutOfMemory>
    ensures { OnOk result (string_bytes text.new ≡ string_bytes text.old
        ++ time_text axis.now events.now log.now) }
{
    let marked = marked_of(alloc, events, log)?;
    append_marked(alloc, text, axis, marked.as_slice())
}

#[tactic(auto, unfolding(crate::specs::Lanes::marked_text, crate::specs::Texts::no_events))]
fn append_marked(
    alloc: Global,
    text: &mut String,
    axis: &Axis,
    marked: &[Marked<'_>],
) -> Result<(), OutOfMemory>
    ensures { OnOk result (string_bytes text.new ≡ string_bytes text.old ++ marked_text axis.now
        (map pair_of marked.now)) }
{
    if marked.is_empty() {
        text.push_str(NO_EVENTS)?;
    } else {
        append_drawn(alloc, text, axis, marked)?;
    }
    Ok(())
}

#[tactic(auto, unfolding(crate::specs::Lanes::drawn_text))]
fn append_drawn(
    alloc: Global,
    text: &mut String,
    axis: &Axis,
    marked: &[Marked<'_>],
) -> Result<(), OutOfMemory>
    ensures { OnOk result (string_bytes text.new ≡ string_bytes text.old ++ drawn_text axis.now
        (map pair_of marked.now)) }
{
    let drawn = spread(alloc, marked, EVENT_LIMIT)?;
    append_drawing(text, axis, drawn.as_slice())?;
    push_rest(text, drawn.len(), marked.len(), "Events that aren't drawn")?;
    append_events(text, drawn.as_slice())
}

#[tactic(auto, unfolding(crate::specs::Lanes::time_drawing))]
fn append_drawing(text: &mut String, axis: &Axis, drawn: &[Marked<'_>]) -> Result<(), OutOfMemory>
    ensures { OnOk result (string_bytes text.new ≡ string_bytes text.old ++ time_drawing axis.now
        (map pair_of drawn.now)) }
{
    text.push_str(TIME_HEAD)?;
    append_marks(text, axis, drawn)?;
    append_axis(text, axis)
}

fn append_marks(text: &mut String, axis: &Axis, drawn: &[Marked<'_>]) -> Result<(), OutOfMemory>
    ensures { OnOk result (string_bytes text.new ≡ string_bytes text.old
        ++ flat_map (marks_text axis.now) (map pair_of drawn.now)) }
{
    for one in drawn {
        append_event_marks(text, axis, one.event, one.logged)?;
    }
    Ok(())
}

#[tactic(auto, unfolding(crate::specs::Lanes::marks_text))]
fn append_event_marks(
    text: &mut String,
    axis: &Axis,
    event: &Event,
    logged: &LogEvent,
) -> Result<(), OutOfMemory>
    ensures { OnOk result (string_bytes text.new ≡ string_bytes text.old ++ marks_text axis.now
        (event.now, logged.now)) }
{
    let x = axis.position(receipt(event));
    append_mark(text, x, event, form_of(kind_of(&logged.answer)))?;
    append_mark(text, x, event, decision_form(logged.decision))
}

#[tactic(auto, unfolding(crate::specs::Lanes::mark_text))]
fn append_mark(
    text: &mut String,
    x: u64,
    event: &Event,
    form: Option<MarkForm>,
) -> Result<(), OutOfMemory>
    ensures { OnOk result (string_bytes text.new ≡ string_bytes text.old
        ++ mark_text x event.now form) }
{
    match form {
        Some(form) => append_form(text, x, event, form),
        None => Ok(()),
    }
}

#[tactic(auto, unfolding(crate::specs::Lanes::form_mark))]
fn append_form(text: &mut String, x: u64, event: &Event, form: MarkForm) -> Result<(), OutOfMemory>
    ensures { OnOk result (string_bytes text.new ≡ string_bytes text.old
        ++ form_mark x event.now form) }
{
    append_shape(text, style_of(form), outline_of(form), x, lane_of(form))?;
    append_title(text, event)?;
    Ok(())
}

#[tactic(auto, unfolding(crate::specs::Lanes::shape_text))]
fn append_shape(
    text: &mut String,
    style: &str,
    outline: &str,
    x: u64,
    y: u32,
) -> Result<(), OutOfMemory>
    ensures { OnOk result (string_bytes text.new ≡ string_bytes text.old
        ++ shape_text style.now outline.now x y) }
{
    write!(
        text,
        "<path class=\"{style}\" d=\"{outline}\" transform=\"translate({x} {y})\"><title>Line "
    )?;
    Ok(())
}

#[tactic(auto, unfolding(crate::specs::Lanes::title_text))]
fn append_title(text: &mut String, event: &Event) -> Result<(), OutOfMemory>
    ensures { OnOk result (string_bytes text.new ≡ string_bytes text.old ++ title_text event.now) }
{
    writeln!(
        text,
        "{}: {} {}</title></path>",
        event.line,
        EscapedText(event.attrs.verb.as_str()),
        EscapedText(event.attrs.path.as_str())
    )?;
    Ok(())
}

#[tactic(auto, unfolding(crate::specs::Lanes::time_axis_text))]
fn append_axis(text: &mut String, axis: &Axis) -> Result<(), OutOfMemory>
    ensures { OnOk result (string_bytes text.new ≡ string_bytes text.old
        ++ time_axis_text axis.now) }
{
    append_axis_low(text, axis)?;
    append_axis_high(text, axis)?;
    Ok(())
}

#[tactic(auto, unfolding(crate::specs::Lanes::axis_low_text))]
fn append_axis_low(text: &mut String, axis: &Axis) -> Result<(), OutOfMemory>
    ensures { OnOk result (string_bytes text.new ≡ string_bytes text.old
        ++ axis_low_text axis.now) }
{
    text.push_str(
        "<line class=\"axis\" x1=\"150\" y1=\"198\" x2=\"930\" y2=\"198\"/>\n<text x=\"150\" y=\"216\">",
    )?;
    push_moment(text, moment_at(axis.low))
}

#[tactic(auto, unfolding(crate::specs::Lanes::axis_high_text))]
fn append_axis_high(text: &mut String, axis: &Axis) -> Result<(), OutOfMemory>
    ensures { OnOk result (string_bytes text.new ≡ string_bytes text.old
        ++ axis_high_text axis.now) }
{
    text.push_str("</text>\n<text x=\"930\" y=\"216\" text-anchor=\"end\">")?;
    push_moment(text, moment_at(axis.high))?;
    text.push_str("</text>\n</svg>\n</figure>\n")?;
    Ok(())
}
