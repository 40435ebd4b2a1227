ghost use Rattle.std.specs.Prelude.{◌≡◌, IfOk};
ghost use Rattle.answer_class.specs.Classes.{is_outside, is_out_of_sight, later_class};
ghost use Rattle.answer_class.specs.Classes.{is_dry, is_idle};
ghost use Rattle.answer_class.specs.Classes.{tracked_class, class_of};
ghost use Rattle.answer_class.specs.Table.{by_table};

use crate::answer::Answer;
use crate::bodies::asks_dry;
use crate::lists::{is_odd, is_old_list};
use crate::refusing::refused_class;
use crate::request::{
    effect_of, first_value, has_filled, is_completing, is_elsewhere, is_full, is_nothing, is_open,
    is_read, is_unknown, is_write, succeeds, verb_of,
};
use crate::times::{is_before, is_early, is_late};
use crate::writing::{opaque, succeeded_class};
use audit_event::Event;
use base_types::OutOfMemory;
use setup_file::{Setup, Tracked, tracked_of};
use std::alloc::Global;

fn is_outside(setup: &Setup, tracked: &Tracked, event: &Event) -> bool
    ensures { result ≡ is_outside setup.now tracked.now event.now }
{
    is_early(setup, event)
        || is_late(setup, event)
        || !is_full(event.level)
        || is_elsewhere(tracked, &event.attrs)
}

fn is_out_of_sight(setup: &Setup, event: &Event) -> bool
    ensures { result ≡ is_out_of_sight setup.now event.now }
{
    is_odd(first_value(&event.attrs, "resourceVersion"))
        || is_old_list(setup, verb_of(event.attrs.verb.as_str()), event)
}

fn later_class(
    alloc: Global,
    setup: &Setup,
    tracked: &Tracked,
    event: &Event,
) -> Result<Answer, OutOfMemory>
    ensures { IfOk result (λ answer. answer ≡ later_class setup.now tracked.now event.now) }
{
    let verb = verb_of(event.attrs.verb.as_str());
    if is_outside(setup, tracked, event) {
        return Ok(Answer::Aside);
    }
    if is_read(verb) && is_unknown(effect_of(tracked, &event.attrs)) {
        return Ok(Answer::Aside);
    }
    if is_read(verb) && is_out_of_sight(setup, event) {
        return Ok(Answer::Aside);
    }
    refused_class(alloc, tracked, event)
}

fn is_dry(event: &Event) -> bool
    ensures { result ≡ is_dry event.now }
{
    has_filled(&event.attrs, "dryRun")
        || asks_dry(verb_of(event.attrs.verb.as_str()), &event.request)
}

fn is_idle(tracked: &Tracked, event: &Event) -> bool
    ensures { result ≡ is_idle tracked.now event.now }
{
    let verb = verb_of(event.attrs.verb.as_str());
    !(is_write(verb) || is_read(verb)) || is_nothing(effect_of(tracked, &event.attrs))
}

fn tracked_class(
    alloc: Global,
    setup: &Setup,
    tracked: &Tracked,
    event: &Event,
) -> Result<Answer, OutOfMemory>
    ensures { IfOk result (λ answer. answer ≡ tracked_class setup.now tracked.now event.now) }
{
    if is_dry(event) {
        return Ok(Answer::Free);
    }
    if is_idle(tracked, event) {
        return Ok(Answer::Free);
    }
    let verb = verb_of(event.attrs.verb.as_str());
    if is_write(verb) && is_before(setup, event) {
        return Ok(Answer::Aside);
    }
    if is_write(verb) && is_open(event.status.code) {
        return opaque(alloc, tracked, event);
    }
    if is_write(verb) && succeeds(event.status.code) {
        return succeeded_class(alloc, setup, tracked, event);
    }
    later_class(alloc, setup, tracked, event)
}

/// What an event says of the cluster. An event of another stage than the last one of its request, and one that isn't
/// for a tracked resource, are set aside.
pub fn class_of(alloc: Global, setup: &Setup, event: &Event) -> Result<Answer, OutOfMemory>
    ensures class { IfOk result (λ answer. answer ≡ class_of setup.now event.now) }
    ensures table { IfOk result (λ answer. answer ≡ by_table setup.now event.now) }
{
    let Some(tracked) = tracked_of(setup, &event.attrs) else {
        return Ok(Answer::Aside);
    };
    if is_completing(event.stage) {
        return tracked_class(alloc, setup, tracked, event);
    }
    Ok(Answer::Aside)
}
