ghost use Rattle.std.specs.Prelude.{◌≡◌, ◌≤◌, ◌^◌, All, IfOk};
ghost use Rattle.std.specs.List.{AllZip};
ghost use Rattle.answer_class.specs.Conditions.{conditions_of};
ghost use Rattle.audit_event.specs.Events.{IsSound};
ghost use Rattle.log_context.specs.Classified.{IsClassified};
ghost use Rattle.log_context.specs.Logged.{preconditions_of};

use crate::log::judged::{hi_of, judged_decision, lo_of};
use crate::log::level::{has_stage, is_level};
use crate::log::reading::reading_of;
use answer_class::{Answer, Conditions, class_of, conditions_of};
use audit_event::Event;
use audit_policy::level_of;
use base_types::{Decision, Moment, OutOfMemory};
use rayon::prelude::*;
use setup_file::Setup;
use std::alloc::Global;
use std::marker::Sync;
use std::thread::Threads;
use write_groups::{Preconditions, Reading};

/// How many events are worth a thread of their own.
const EVENTS_FOR_A_THREAD: usize = 64;

/// An event in the terms of the model of history, with the trees of its answer in place of their numbers.
#[derive(Drop)]
pub struct Classified {
    pub line: u64,
    pub lo: Moment,
    pub hi: Moment,
    pub reading: Reading,
    pub preconditions: Preconditions,
    pub answer: Answer,
    pub other_level: bool,
    pub omitted_stage: bool,
    pub decision: Option<Decision>,
}

fn preconditions_of(
    alloc: Global,
    setup: &Setup,
    event: &Event,
) -> Result<Preconditions, OutOfMemory>
    ensures { IfOk result (λ asked. asked ≡ preconditions_of (conditions_of setup.now event.now)) }
{
    let Conditions { revision, uid } = conditions_of(alloc, setup, event)?;
    Ok(Preconditions { revision, uid })
}

// What a setup says of an event alone.
fn classify(alloc: Global, setup: &Setup, event: &Event) -> Result<Classified, OutOfMemory>
    requires slack { setup.now.slack ≤ 10 ^ 18 }
    requires sound { IsSound event.now }
    ensures { IfOk result (IsClassified setup.now event.now) }
{
    let preconditions = preconditions_of(alloc, setup, event)?;
    let answer = class_of(alloc, setup, event)?;
    let (level, omitted) = level_of(&setup.policy, &event.attrs, &event.user);
    Ok(Classified {
        line: event.line,
        lo: lo_of(setup, event),
        hi: hi_of(setup, event),
        reading: reading_of(&event.attrs),
        preconditions,
        answer,
        other_level: !is_level(level, event.level),
        omitted_stage: has_stage(omitted, event.stage),
        decision: judged_decision(setup, event),
    })
}

/// What a setup says of each of these events alone, in their order. Several threads find it.
pub fn classify_all<R: Threads + Sync>(
    rt: &R,
    alloc: Global,
    setup: &Setup,
    events: &[Event],
) -> Result<Vec<Classified>, OutOfMemory>
    requires slack { setup.now.slack ≤ 10 ^ 18 }
    requires sound { All IsSound events.now }
    ensures { IfOk result (λ all. AllZip (IsClassified setup.now) events.now all.items) }
{
    let gathered: Result<Vec<Classified>, OutOfMemory> = events
        .par_iter()
        .with_min_len(EVENTS_FOR_A_THREAD)
        .map(
            |event: &Event| -> Result<Classified, OutOfMemory>
                requires slack { setup.now.slack ≤ 10 ^ 18 }
                requires sound { IsSound event.now }
                ensures { IfOk result (IsClassified setup.entry.now event.now) }
            { classify(alloc, setup, event) },
        )
        .collect(rt, alloc)?;
    gathered
}
