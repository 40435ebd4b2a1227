ghost use Rattle.std.specs.Prelude.{◌≡◌, ◌≢◌, ◌||◌, IfOk, OnOk, OnErr, IsSome, IsFalse};
ghost use Rattle.std.specs.Prelude.{option_map, option_and_then, filter, codes};
ghost use Rattle.std.specs.Result.{result_ok};
ghost use Rattle.audit_event.specs.Bodies.{kept};
ghost use Rattle.answer_class.specs.Lists.{not_whole, one_at_most, selected, extent_of, answered_list, answered_at};
ghost use Rattle.answer_class.specs.Lists.{asks_revision, is_odd, is_below, is_old_list};
ghost use Rattle.answer_class.specs.Requests.{is_filled, has_filled};
ghost use Rattle.label_select.specs.Readings.{selector_of};

use crate::bodies::{body_member, value_of};
use crate::request::{Verb, first_value, has_filled, is_filled};
use audit_event::Event;
use base_types::{OutOfMemory, Pair, RequestAttrs, Revision, Text, revision_of};
use label_select::{Selector, SelectorFault, read_selector};
use setup_file::{ListRead, Setup, Tracked, read_list};
use std::alloc::Global;

/// Whether a list is all that there is, and which labels it asked for.
#[derive(Drop)]
pub struct Extent {
    pub whole: bool,
    pub selector: Option<Selector>,
}

fn not_whole() -> Extent
    ensures { result ≡ not_whole }
{
    Extent {
        whole: false,
        selector: None,
    }
}

/// The only member of a query with this name and a value that isn't empty, or none; nothing where there are several.
pub fn one_at_most<'a>(pairs: &'a [Pair], name: &str) -> Option<Option<&'a Pair>>
    ensures { option_map (λ found. option_map (λ pair. pair.now) found) result ≡ one_at_most
        (filter (is_filled name.now) pairs.now) }
{
    let mut found: Option<&Pair> = None;
    for pair in pairs {
        if is_filled(pair, name) {
            if found.is_some() {
                return None;
            }
            found = Some(pair);
        }
    }
    Some(found)
}

// The extent by a selector that was read; a text that is none takes nothing.
fn extent_read(read: Result<Selector, SelectorFault>) -> Result<Extent, OutOfMemory>
    ensures extent { IfOk result (λ extent. extent ≡ selected (result_ok read)) }
    ensures read { OnOk result (read ≢ Err SelectorFault.OutOfMemory) }
    ensures memory { OnErr result (read ≡ Err SelectorFault.OutOfMemory) }
{
    match read {
        Ok(selector) => Ok(Extent {
            whole: true,
            selector: Some(selector),
        }),
        Err(SelectorFault::Form) => Ok(not_whole()),
        Err(SelectorFault::OutOfMemory) => Err(OutOfMemory),
    }
}

fn selected(alloc: Global, text: &str) -> Result<Extent, OutOfMemory>
    ensures { IfOk result (λ extent. extent ≡ selected (selector_of text.now)) }
{
    extent_read(read_selector(alloc, text))
}

/// Whether a list that was answered is whole, where `rest` tells if more pages follow.
pub fn extent_of(alloc: Global, attrs: &RequestAttrs, rest: bool) -> Result<Extent, OutOfMemory>
    ensures extent { IfOk result (λ extent. extent ≡ extent_of attrs.now rest) }
    ensures whole { OnErr result (IsFalse (rest || has_filled (codes "fieldSelector") attrs.now
        || has_filled (codes "continue") attrs.now)) }
    ensures memory { OnErr result (IsSome (option_and_then (λ found. found) (one_at_most
        (filter (is_filled (codes "labelSelector")) attrs.now.query)))) }
{
    if rest || has_filled(attrs, "fieldSelector") || has_filled(attrs, "continue") {
        return Ok(not_whole());
    }
    match one_at_most(attrs.query.as_slice(), "labelSelector") {
        None => Ok(not_whole()),
        Some(None) => Ok(Extent {
            whole: true,
            selector: None,
        }),
        Some(Some(pair)) => selected(alloc, pair.value.as_str()),
    }
}

/// The list that the answer is, under the request's path.
pub fn answered_list(
    alloc: Global,
    tracked: &Tracked,
    event: &Event,
) -> Result<Option<ListRead>, OutOfMemory>
    ensures list { IfOk result (λ found. found ≡ answered_list tracked.now event.now) }
    ensures memory { OnErr result (IsSome (kept event.now.response)) }
{
    let attrs = &event.attrs;
    match value_of(&event.response) {
        Some(value) => read_list(alloc, tracked, &attrs.name, &attrs.namespace, &value),
        None => Ok(None),
    }
}

// The revision at which the answer was read.
fn answered_at(event: &Event) -> Option<Revision>
    ensures { result ≡ answered_at event.now }
{
    let metadata = body_member(&event.response, "metadata")?;
    metadata.revision_at("resourceVersion")
}

fn asks_revision(value: Option<&Text>) -> bool
    ensures { result ≡ asks_revision (option_map (λ text. text.now) value.entry) }
{
    match value {
        Some(text) => revision_of(text.as_str()).is_some(),
        None => false,
    }
}

/// Whether a `resourceVersion` is neither empty nor `0` nor a revision.
pub fn is_odd(value: Option<&Text>) -> bool
    ensures { result ≡ is_odd (option_map (λ text. text.now) value.entry) }
{
    match value {
        Some(text) => {
            !text.is_empty() && text.as_str() != "0" && revision_of(text.as_str()).is_none()
        }
        None => false,
    }
}

fn is_below(start: Revision, revision: Option<Revision>) -> bool
    ensures { result ≡ is_below start revision }
{
    match revision {
        Some(revision) => revision.get() < start.get(),
        None => false,
    }
}

/// Whether a token or a revision takes a list to a revision below the start.
pub fn is_old_list(setup: &Setup, verb: Verb, event: &Event) -> bool
    ensures { result ≡ is_old_list setup.now verb event.now }
{
    match verb {
        Verb::Listing => {
            (has_filled(&event.attrs, "continue")
                || asks_revision(first_value(&event.attrs, "resourceVersion")))
                && is_below(setup.start, answered_at(event))
        }
        _ => false,
    }
}
