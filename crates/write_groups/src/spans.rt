ghost use Rattle.std.specs.Prelude.{◌≡◌, ◌<◌, ◌↔◌, [], ◌∷◌, IfOk, IfSome, IfNone, IsTrue, All, AllPairs, map};
ghost use Rattle.std.specs.Prelude.{length, option_map};
ghost use Rattle.history_model.specs.Groups.{AreSpans};
ghost use Rattle.history_model.specs.Histories.{History};
ghost use Rattle.history_model.specs.Judging.{IsOrder};
ghost use Rattle.write_groups.specs.Members.{AreGroupsOf};
ghost use Rattle.write_groups.specs.Modelled.{HasEvents, span_of};
ghost use Rattle.write_groups.specs.Spanned.{earlier_moment, or_earlier, end_at, start_at, first_end, first_start};
ghost use Rattle.write_groups.specs.Spanned.{is_sure, made_surely, made_surely_at, IsBeginningOf, IsSpanIn};
ghost use Rattle.write_groups.specs.Spanned.{AreSpansOf};

use crate::event::{LogEvent, Shown};
use crate::groups::{Group, made_item};
use crate::hidden::Hidden;
use base_types::{Moment, OutOfMemory, Revision};
use std::alloc::Global;
use time_windows::Span;

// The earlier of two moments, where there are any.
fn earlier_moment(a: Option<Moment>, b: Option<Moment>) -> Option<Moment>
    ensures { result ≡ earlier_moment a b }
{
    match (a, b) {
        (Some(a), Some(b)) => Some(if b < a { b } else { a }),
        (Some(a), None) => Some(a),
        (None, b) => b,
    }
}

fn end_at(events: &[LogEvent], number: u32) -> Option<Moment>
    ensures { result ≡ end_at events.now number }
{
    Some(events.get(number as usize)?.hi)
}

fn start_at(events: &[LogEvent], number: u32) -> Option<Moment>
    ensures { result ≡ start_at events.now number }
{
    Some(events.get(number as usize)?.lo)
}

// The first end of the events of these numbers.
fn first_end(events: &[LogEvent], numbers: &[u32]) -> Option<Moment>
    ensures { result ≡ first_end events.now numbers.now }
{
    let mut first = None;
    for number in numbers {
        first = earlier_moment(first, end_at(events, *number));
    }
    first
}

// The first start of the events of these numbers.
fn first_start(events: &[LogEvent], numbers: &[u32]) -> Option<Moment>
    ensures { result ≡ first_start events.now numbers.now }
{
    let mut first = None;
    for number in numbers {
        first = earlier_moment(first, start_at(events, *number));
    }
    first
}

// Whether the write surely made what it was answered with: it created it, or its condition was another revision.
fn made_surely(event: &LogEvent, revision: Revision) -> bool
    ensures { result ≡ made_surely revision event.now }
{
    let creates = match &event.answer {
        Shown::Made { created, .. } => *created,
        _ => false,
    };
    let differs = match event.preconditions.revision {
        Some(wanted) => wanted != revision,
        None => false,
    };
    creates || differs
}

fn made_surely_at(events: &[LogEvent], revision: Revision, number: u32) -> bool
    ensures { result ≡ made_surely_at events.now revision number }
{
    match events.get(number as usize) {
        Some(event) => made_surely(event, revision),
        None => false,
    }
}

// Whether a member surely made the group's revision.
fn is_sure(events: &[LogEvent], group: &Group) -> bool
    ensures { result ≡ is_sure events.now group.now }
{
    for number in group.members.as_slice() {
        if made_surely_at(events, group.revision, *number) {
            return true;
        }
    }
    false
}

fn or_earlier(recorded: Moment, since: Option<Moment>) -> Moment
    ensures { result ≡ or_earlier recorded since }
{
    match since {
        Some(since) => { if since < recorded { since } else { recorded } }
        None => recorded,
    }
}

// When the group's revision may have begun to be written: with the first recorded start, or where no member is sure
// with an unrecorded write before.
fn beginning(events: &[LogEvent], hidden: &Hidden, group: &Group, recorded: Moment) -> Moment
    ensures { IsBeginningOf events.now hidden.now group.now recorded result }
{
    if is_sure(events, group) {
        return recorded;
    }
    or_earlier(recorded, hidden.since(&group.key))
}

// When the group's revision was written; None where the group has no member.
fn span_in(events: &[LogEvent], hidden: &Hidden, group: &Group) -> Option<Span>
    ensures { IsSpanIn events.now hidden.now group.now result }
{
    let members = group.members.as_slice();
    let hi = first_end(events, members)?;
    let recorded = first_start(events, members)?;
    Some(Span {
        revision: group.revision,
        lo: beginning(events, hidden, group, recorded),
        hi,
    })
}

fn spans_with(
    alloc: Global,
    events: &[LogEvent],
    hidden: &Hidden,
    groups: &[Group],
) -> Result<Vec<Span>, OutOfMemory>
    requires { AllPairs (λ a b. a.revision < b.revision) groups.now }
    ensures { IfOk result (λ spans. AreSpansOf events.now hidden.now groups.now spans.items) }
{
    let mut spans = Vec::with_capacity(alloc, groups.len())?;
    for group in groups {
        if let Some(span) = span_in(events, hidden, group) {
            spans.push(span)?;
        }
    }
    Ok(spans)
}

/// Between which moments each revision above the start was written.
pub fn spans_of(
    alloc: Global,
    start: Revision,
    events: &[LogEvent],
    groups: &[Group],
) -> Result<Vec<Span>, OutOfMemory>
    requires rising { AllPairs (λ a b. a.revision < b.revision) groups.now }
    requires above { All (λ group. start < group.revision) groups.now }
    ensures rising { IfOk result (λ spans. AllPairs (λ a b. a.revision < b.revision) spans.items) }
    ensures above { IfOk result (λ spans. All (λ span. start < span.revision) spans.items) }
    ensures spans { IfOk result (λ spans. (h : History) → HasEvents events.now h → IsOrder h
        → AreGroupsOf h groups.now
        → h.spans ≡ map span_of spans.items → AreSpans h) }
{
    let hidden = Hidden::build(alloc, events)?;
    Ok(spans_with(alloc, events, &hidden, groups)?)
}
