ghost use Rattle.std.specs.Prelude.{◌≡◌, ◌<◌, [], ◌∷◌, ◌++◌, IfOk, OnOk, Some, length, slice_get, string_bytes};
ghost use Rattle.log_picture.specs.Page.{events_text, unrecorded_of, unrecorded_writes_in};
ghost use Rattle.log_picture.specs.Page.{IsLogPage, OnePage, log_page_text};
ghost use Rattle.log_picture.specs.Page.{objects_text, overview_of, revision_axis, sections_text, time_axis};
ghost use Rattle.log_context.specs.Histories.{history_of};

use crate::changed::{Changed, append_changes, changes_of};
use crate::counting::append_counts;
use crate::gone::append_removals;
use crate::kind::{AnswerKind, is_of};
use crate::lanes::append_time;
use crate::overview::{Overview, append_overview, first_receipt, greatest_revision, last_receipt};
use crate::revised::{Drawn, UnrecordedWrite, append_history, written_of};
use crate::spreading::each_of;
use base_types::{OutOfMemory, PlacedLine, Placement};
use log_context::Context;
use markup::{Axis, push_begin, push_end};
use std::alloc::Global;
use write_groups::LogEvent;

/// The page of an explained log, with the placement that explains it: one HTML text that needs nothing beside it, in
/// which each text of the setup and of the log stands escaped.
#[tactic(auto, unfolding(crate::specs::Page::log_page_text))]
pub fn log_page(
    alloc: Global,
    context: &Context,
    placement: &Placement,
) -> Result<String, OutOfMemory>
    ensures { IfOk result (λ page. IsLogPage context.now placement.now (string_bytes page)) }
{
    let unrecorded_writes = unrecorded_writes_of(alloc, context)?;
    let changes = changes_of(alloc, context.versions())?;
    let mut text = String::new(alloc);
    push_begin(&mut text, "Explained log")?;
    append_sections(
        alloc,
        &mut text,
        context,
        placement.as_slice(),
        unrecorded_writes.as_slice(),
        changes.as_slice(),
    )?;
    push_end(&mut text)?;
    Ok(text)
}

/// What a setup and a log tell, and a placement, have no two pages.
pub fn one_page_law()
    ensures { OnePage }
{}

// Puts the event of this number behind the others, where it is an unrecorded write.
fn push_unrecorded(
    unrecorded_writes: &mut Vec<UnrecordedWrite>,
    context: &Context,
    number: u32,
    event: &LogEvent,
) -> Result<(), OutOfMemory>
    requires within { number < length context.now.log }
    requires at { slice_get context.now.log number ≡ Some event.now }
    ensures { OnOk result (unrecorded_writes.new.items ≡ unrecorded_writes.old.items
        ++ unrecorded_writes_in (history_of context.now) (event.now ∷ [])) }
{
    if !is_of(event, AnswerKind::Unrecorded) {
        return Ok(());
    }
    unrecorded_writes.push(unrecorded_of(context, number, event))?;
    Ok(())
}

fn unrecorded_of(context: &Context, number: u32, event: &LogEvent) -> UnrecordedWrite
    requires within { number < length context.now.log }
    requires at { slice_get context.now.log number ≡ Some event.now }
    ensures { result ≡ unrecorded_of (history_of context.now) event.now }
{
    let window = context.window(number);
    UnrecordedWrite {
        line: event.line,
        low: window.low,
    }
}

fn unrecorded_writes_of(
    alloc: Global,
    context: &Context,
) -> Result<Vec<UnrecordedWrite>, OutOfMemory>
    ensures { IfOk result (λ unrecorded_writes. unrecorded_writes.items
        ≡ unrecorded_writes_in (history_of context.now) context.now.log) }
{
    let log = context.log();
    let mut unrecorded_writes = Vec::new(alloc);
    for number in 0..context.count() {
        push_unrecorded(
            &mut unrecorded_writes,
            context,
            number,
            &log[number as usize],
        )?;
    }
    Ok(unrecorded_writes)
}

fn overview_of(context: &Context) -> Overview
    ensures { result ≡ overview_of context.now }
{
    let setup = context.setup();
    let events = context.events();
    Overview {
        events: events.len(),
        checkpoints: setup.checkpoints.len(),
        objects: setup.snapshot.len(),
        first: first_receipt(events),
        last: last_receipt(events),
        start: setup.start.get(),
        greatest: greatest_revision(setup.start, context.versions()),
    }
}

fn time_axis(overview: Overview) -> Axis
    ensures { result ≡ time_axis overview }
{
    Axis {
        low: overview.first,
        high: overview.last,
        left: 150,
        width: 780,
    }
}

fn revision_axis(overview: Overview) -> Axis
    ensures { result ≡ revision_axis overview }
{
    Axis {
        low: overview.start,
        high: overview.greatest,
        left: 150,
        width: 780,
    }
}

#[tactic(auto, unfolding(crate::specs::Page::sections_text))]
fn append_sections(
    alloc: Global,
    text: &mut String,
    context: &Context,
    lines: &[PlacedLine],
    unrecorded_writes: &[UnrecordedWrite],
    changes: &[Changed],
) -> Result<(), OutOfMemory>
    ensures { OnOk result (string_bytes text.new ≡ string_bytes text.old
        ++ sections_text context.now (overview_of context.now) lines.now unrecorded_writes.now
        changes.now) }
{
    let overview = overview_of(context);
    append_events(alloc, text, context, overview)?;
    append_changes(alloc, text, changes)?;
    append_objects(alloc, text, context, overview, lines, unrecorded_writes)
}

// Appends the verdict, how the events were judged, and the log over time.
#[tactic(auto, unfolding(crate::specs::Page::events_text))]
fn append_events(
    alloc: Global,
    text: &mut String,
    context: &Context,
    overview: Overview,
) -> Result<(), OutOfMemory>
    ensures { OnOk result (string_bytes text.new ≡ string_bytes text.old
        ++ events_text context.now overview) }
{
    let log = context.log();
    let axis = time_axis(overview);
    append_overview(text, overview)?;
    append_counts(text, log)?;
    append_time(alloc, text, &axis, context.events(), log)
}

// Appends the history by revision, and the removals.
#[tactic(auto, unfolding(crate::specs::Page::objects_text))]
fn append_objects(
    alloc: Global,
    text: &mut String,
    context: &Context,
    overview: Overview,
    lines: &[PlacedLine],
    unrecorded_writes: &[UnrecordedWrite],
) -> Result<(), OutOfMemory>
    ensures { OnOk result (string_bytes text.new ≡ string_bytes text.old
        ++ objects_text context.now overview lines.now unrecorded_writes.now) }
{
    let log = context.log();
    let versions = written_of(alloc, context.versions())?;
    let removals = each_of(alloc, context.past().removals())?;
    let drawn = Drawn {
        axis: revision_axis(overview),
        log,
        versions: versions.as_slice(),
        removals: removals.as_slice(),
        unrecorded_writes,
    };
    append_history(alloc, text, &drawn)?;
    append_removals(alloc, text, log, lines, removals.as_slice())
}
