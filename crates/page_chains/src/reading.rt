ghost use Rattle.std.specs.Prelude.{◌≡◌, ◌≢◌, ◌≤◌, length, IfOk, OnErr, IsSome};
ghost use Rattle.std.specs.Prelude.{filter, codes, bytes_eq, option_map, option_and_then};
ghost use Rattle.page_chains.specs.Joints.{joint_of};
ghost use Rattle.page_chains.specs.Pages.{token_of, asked_by, asked_of, is_first, is_selective, page_in};
ghost use Rattle.page_chains.specs.Parts.{part_of, parts_of};

use crate::page::{Asked, Joint, Page, Pages};
use answer_class::{Answer, class_of, has_filled, one_at_most};
use audit_event::Event;
use base_types::{OutOfMemory, RequestAttrs, Text};
use setup_file::Setup;
use std::alloc::Global;

// The token with which the next page is asked for.
fn token_of(event: &Event) -> Option<&str>
    ensures { option_map (λ text. text.now) result ≡ token_of event.now }
{
    let metadata = event.response.kept()?.root().member("metadata")?;
    metadata.filled_at("continue")
}

#[tactic(auto, using(crate::proofs::ReadingLemmas::asked_as))]
fn asked_of(attrs: &RequestAttrs) -> Result<Asked, OutOfMemory>
    ensures asked { IfOk result (λ asked. asked ≡ asked_of attrs.now) }
    ensures first { OnErr result (asked_of attrs.now ≢ Asked.First) }
    ensures unclear { OnErr result (asked_of attrs.now ≢ Asked.Unclear) }
{
    match one_at_most(attrs.query.as_slice(), "continue") {
        Some(Some(pair)) => Ok(Asked::Next(pair.value.clone()?)),
        Some(None) => Ok(Asked::First),
        None => Ok(Asked::Unclear),
    }
}

fn is_first(asked: &Asked) -> bool
    ensures { result ≡ is_first asked.now }
{
    match asked {
        Asked::First => true,
        Asked::Next(_) => false,
        Asked::Unclear => false,
    }
}

fn is_selective(attrs: &RequestAttrs) -> bool
    ensures { result ≡ is_selective attrs.now }
{
    has_filled(attrs, "labelSelector") || has_filled(attrs, "fieldSelector")
}

fn token_copied(alloc: Global, event: &Event) -> Result<Option<Text>, OutOfMemory>
    ensures token { IfOk result (λ token. token ≡ token_of event.now) }
    ensures memory { OnErr result (IsSome (token_of event.now)) }
{
    match token_of(event) {
        Some(token) => Ok(Some(Text::from_str(alloc, token)?)),
        None => Ok(None),
    }
}

// What joins a page to the pages before it and behind it.
fn joint_of(alloc: Global, event: &Event, asked: Asked) -> Result<Joint, OutOfMemory>
    ensures { IfOk result (λ joint. joint ≡ joint_of event.now asked) }
{
    let namespace = event.attrs.namespace.clone()?;
    let token = token_copied(alloc, event)?;
    Ok(Joint {
        namespace,
        token,
        asked,
    })
}

fn page_in(event: &Event, joint: Joint, answer: Answer) -> Option<Page>
    requires { joint ≡ joint_of event.now (asked_of event.now.attrs) }
    ensures { result ≡ page_in event.now answer }
{
    match answer {
        Answer::Listed {
            group,
            resource,
            namespace: scope,
            revision,
            whole: _,
            items,
            selector,
        } => {
            drop(selector);
            Some(Page {
                line: event.line,
                staged: event.staged,
                group,
                resource,
                namespace: joint.namespace,
                scope,
                revision,
                items,
                token: joint.token,
                asked: joint.asked,
            })
        }
        other => {
            drop(other);
            drop(joint);
            None
        }
    }
}

// Only a list has pages.
fn is_list(attrs: &RequestAttrs) -> bool
    ensures { result ≡ bytes_eq attrs.now.verb (codes "list") }
{
    attrs.verb.as_str() == "list"
}

// Other verbs, and lists that aren't read in pages, are told apart before their bodies and objects are looked at.
#[tactic(auto, using(crate::proofs::Verbs::unlisted_part))]
fn part_of(alloc: Global, setup: &Setup, event: &Event) -> Result<Option<Page>, OutOfMemory>
    ensures { IfOk result (λ page. page ≡ part_of setup.now event.now) }
{
    if !is_list(&event.attrs) {
        return Ok(None);
    }
    let asked = asked_of(&event.attrs)?;
    if token_of(event).is_none() && is_first(&asked) {
        return Ok(None);
    }
    if is_selective(&event.attrs) {
        return Ok(None);
    }
    let joint = joint_of(alloc, event, asked)?;
    let Ok(answer) = class_of(alloc, setup, event) else {
        drop(joint);
        return Err(OutOfMemory);
    };
    Ok(page_in(event, joint, answer))
}

/// The pages among the events that can be parts of a chain, in the order of the events.
pub fn parts_of(alloc: Global, setup: &Setup, events: &[Event]) -> Result<Pages, OutOfMemory>
    ensures parts { IfOk result (λ parts. parts ≡ parts_of setup.now events.now) }
    ensures few { IfOk result (λ parts. length parts ≤ length events.now) }
{
    let mut parts = Pages::new(alloc);
    for event in events {
        if let Some(page) = part_of(alloc, setup, event)? {
            parts.push(page)?;
        }
    }
    Ok(parts)
}
