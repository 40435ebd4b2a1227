ghost use Rattle.std.specs.Prelude.{◌≡◌, ◌++◌, IfOk, OnOk, string_bytes};
ghost use Rattle.finding_picture.specs.Page.{event_sections, object_sections, page_text};

use crate::caches::push_caches;
use crate::finding::Finding;
use crate::heading::push_heading;
use crate::hiding::push_hiding;
use crate::looking::event_on;
use crate::objects::{logged_on, push_object_section};
use crate::places::push_places;
use crate::request::push_request;
use crate::rows::push_rows;
use crate::times::push_times;
use base_types::OutOfMemory;
use log_context::Context;
use markup::{push_begin, push_end};
use std::alloc::Global;

/// The page of an event that no placement explains: one document in HTML, with no script and nothing from elsewhere.
/// Each text of the log stands in it escaped.
#[tactic(auto, unfolding(crate::specs::Page::page_text))]
pub fn finding_page(
    alloc: Global,
    context: &Context,
    finding: &Finding<'_>,
) -> Result<String, OutOfMemory>
    ensures { IfOk result (λ page. string_bytes page ≡ page_text context.now finding.now) }
{
    let mut text = String::new(alloc);
    push_begin(&mut text, "Unexplained event")?;
    push_heading(alloc, &mut text, finding)?;
    push_event_sections(alloc, &mut text, context, finding)?;
    push_object_sections(alloc, &mut text, context, finding)?;
    push_end(&mut text)?;
    Ok(text)
}

// Appends what the event asked and was answered, and the writes of its window.
#[tactic(auto, unfolding(crate::specs::Page::event_sections))]
fn push_event_sections(
    alloc: Global,
    text: &mut String,
    context: &Context,
    finding: &Finding<'_>,
) -> Result<(), OutOfMemory>
    ensures { OnOk result (string_bytes text.new ≡ string_bytes text.old
        ++ event_sections context.now finding.now) }
{
    let event = event_on(context, finding.line);
    push_request(text, event, logged_on(context.log(), finding.line))?;
    push_places(alloc, text, context, finding)?;
    push_times(text, context, event, finding.writes)?;
    push_rows(text, context, finding.writes)
}

// Appends what an answer would have been, and what isn't known of it.
#[tactic(auto, unfolding(crate::specs::Page::object_sections))]
fn push_object_sections(
    alloc: Global,
    text: &mut String,
    context: &Context,
    finding: &Finding<'_>,
) -> Result<(), OutOfMemory>
    ensures { OnOk result (string_bytes text.new ≡ string_bytes text.old
        ++ object_sections context.now finding.now) }
{
    push_object_section(alloc, text, context, finding.line, finding.low)?;
    push_hiding(alloc, text, context, finding.line)?;
    push_caches(alloc, text, context, finding)
}
