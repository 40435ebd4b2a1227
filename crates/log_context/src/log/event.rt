ghost use Rattle.std.specs.Prelude.{◌≡◌, ◌<◌, ◌≤◌, ◌+◌, ◌^◌, ◌++◌, [], ◌∷◌, Err, length, All, IfOk, OnOk};
ghost use Rattle.audit_event.specs.Events.{IsSound};
ghost use Rattle.log_context.specs.AllLogged.{AddsAndClassifies, AddsBatch, AreAllLogged};
ghost use Rattle.log_context.specs.Classified.{IsLoggedAs, classified_trees};
ghost use Rattle.log_context.specs.LogSelectors.{selector_in, AddsSelector};
ghost use Rattle.log_context.specs.LogTrees.{answer_trees, event_trees, with_trees};

use crate::log::classifying::{Classified, classify_all};
use crate::log::fault::BuildFault;
use crate::log::selecting::Selectors;
use crate::log::shown::{ToldAnswer, tell};
use audit_event::Event;
use base_types::OutOfMemory;
use label_select::Selector;
use node_pool::Interner;
use setup_file::Setup;
use std::alloc::Global;
use std::marker::Sync;
use std::mem;
use std::thread::{Threads, join_mut};
use write_groups::{LogEvent, LogEvents};

/// So many events are classified at a time, so that the objects of two batches at most stand beside the pool.
const EVENTS_IN_A_BATCH: usize = 2_048;

// An event of a log, and the label selector where its answer is a whole list with one.
#[derive(Drop)]
struct Logged {
    event: LogEvent,
    selector: Option<Selector>,
}

// A classified event in the terms of the model of history, once the trees that its answer shows are in the pool.
fn logged_event(
    alloc: Global,
    pool: &mut Interner,
    classified: Classified,
) -> Result<Logged, BuildFault>
    ensures logged { IfOk result (λ logged. IsLoggedAs pool.new.trees classified logged.event) }
    ensures selector { IfOk result (λ logged. logged.selector ≡ selector_in classified.answer) }
    ensures added { OnOk result
        (pool.new.trees ≡ with_trees pool.old.trees (answer_trees classified.answer)) }
    ensures full { result ≡ Err BuildFault.PoolFull
        → pool.old.limit < length (with_trees pool.old.trees (answer_trees classified.answer)) }
    ensures limit { pool.new.limit ≡ pool.old.limit }
{
    let Classified {
        line,
        lo,
        hi,
        reading,
        preconditions,
        answer,
        other_level,
        omitted_stage,
        decision,
    } = classified;
    let ToldAnswer { shown, selector } = tell(alloc, pool, answer)?;
    Ok(Logged {
        event: LogEvent {
            line,
            lo,
            hi,
            reading,
            preconditions,
            answer: shown,
            other_level,
            omitted_stage,
            decision,
        },
        selector,
    })
}

/// The events of a log, with the label selectors of those that are whole lists.
#[derive(Drop)]
pub struct LoggedEvents {
    pub events: LogEvents,
    pub selectors: Selectors,
}

fn add(all: &mut LoggedEvents, number: u32, logged: Logged) -> Result<(), OutOfMemory>
    ensures event { OnOk result (all.new.events ≡ all.old.events ++ logged.event ∷ []) }
    ensures selector { OnOk result (AddsSelector number logged.selector all.old.selectors
        all.new.selectors) }
{
    let Logged { event, selector } = logged;
    all.events.push(event)?;
    if let Some(selector) = selector {
        let _none = all.selectors.insert(number, selector)?;
    }
    Ok(())
}

// Puts the trees of classified events into the pool, one event after another, and adds the events to the log.
fn add_all(
    alloc: Global,
    pool: &mut Interner,
    all: &mut LoggedEvents,
    classified: Vec<Classified>,
) -> Result<(), BuildFault>
    requires few { length all.old.events + length classified.items < 2 ^ 32 }
    ensures added { OnOk result (AddsBatch pool.old.trees pool.new.trees classified.items all.old
        all.new) }
    ensures full { result ≡ Err BuildFault.PoolFull
        → pool.old.limit < length (with_trees pool.old.trees (classified_trees classified.items)) }
    ensures limit { pool.new.limit ≡ pool.old.limit }
{
    for one in classified {
        let number = all.events.len() as u32;
        add(all, number, logged_event(alloc, pool, one)?)?;
    }
    Ok(())
}

// Adds events that are classified, while other threads classify the events behind them. A fault of those that are added
// comes before want of memory for those behind.
fn add_and_classify<R: Threads + Sync>(
    rt: &R,
    alloc: Global,
    pool: &mut Interner,
    all: &mut LoggedEvents,
    mut ahead: Vec<Classified>,
    setup: &Setup,
    next: &[Event],
) -> Result<Vec<Classified>, BuildFault>
    requires slack { setup.now.slack ≤ 10 ^ 18 }
    requires sound { All IsSound next.now }
    requires few { length all.old.events + length ahead.items < 2 ^ 32 }
    ensures added { IfOk result (λ classified. AddsAndClassifies setup.now next.now pool.old.trees
        pool.new.trees ahead.items all.old all.new classified.items) }
    ensures full { result ≡ Err BuildFault.PoolFull
        → pool.old.limit < length (with_trees pool.old.trees (classified_trees ahead.items)) }
    ensures limit { pool.new.limit ≡ pool.old.limit }
{
    let mut classify = move || -> Result<Vec<Classified>, OutOfMemory>
        requires slack { setup.now.slack ≤ 10 ^ 18 }
        requires sound { All IsSound next.now }
    { classify_all(rt, alloc, setup, next) };
    let mut add = || -> Result<(), BuildFault>
        requires { length all.now.events + length ahead.items < 2 ^ 32 }
    { add_all(alloc, pool, all, mem::replace(&mut ahead, Vec::new(alloc))) };
    let (classified, added) = join_mut(rt, &mut classify, &mut add);
    added?;
    Ok(classified?)
}

/// The events of a log in the terms of the model of history, once the trees that their answers show are in the pool.
/// Several threads classify the events of a batch, while those of the batch before are added.
pub fn events_of<R: Threads + Sync>(
    rt: &R,
    alloc: Global,
    pool: &mut Interner,
    setup: &Setup,
    events: &[Event],
) -> Result<LoggedEvents, BuildFault>
    requires slack { setup.now.slack ≤ 10 ^ 18 }
    requires sound { All IsSound events.now }
    requires few { length events.now < 2 ^ 32 }
    ensures logged { IfOk result (AreAllLogged setup.now events.now pool.old.trees
        pool.new.trees) }
    ensures full { result ≡ Err BuildFault.PoolFull
        → pool.old.limit < length (with_trees pool.old.trees (event_trees setup.now events.now)) }
    ensures limit { pool.new.limit ≡ pool.old.limit }
{
    let mut all = LoggedEvents {
        events: LogEvents::new(alloc),
        selectors: Selectors::new(alloc),
    };
    let mut ahead = Vec::new(alloc);
    for batch in events.chunks(EVENTS_IN_A_BATCH) {
        ahead = add_and_classify(rt, alloc, pool, &mut all, ahead, setup, batch)?;
    }
    add_all(alloc, pool, &mut all, ahead)?;
    Ok(all)
}
