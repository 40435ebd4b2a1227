ghost use Rattle.std.specs.Prelude.{◌≡◌, ◌<◌, ◌++◌, [], Err, length, IfOk};
ghost use Rattle.log_context.specs.Building.{IsLoggable, IsPutTogether};
ghost use Rattle.log_context.specs.LogTrees.{pooled};

mod checkpoint;
mod classifying;
mod event;
mod fault;
mod judged;
mod level;
mod reading;
mod selecting;
mod shown;

use audit_event::Events;
use base_types::OutOfMemory;
use checkpoint::checkpoints_of;
use event::{LoggedEvents, events_of};
pub use fault::BuildFault;
pub(crate) use judged::judged_user;
use node_pool::Interner;
pub use selecting::Selectors;
use setup_file::Setup;
use shown::items_of;
use std::alloc::Global;
use std::marker::Sync;
use std::thread::Threads;
use write_groups::{Items, LogEvents};

/// A log as the model of history sees it, beside its setup.
pub struct Log {
    /// The objects that were there at the start.
    pub snapshot: Items,
    /// The events by line, and the checkpoints behind them.
    pub events: LogEvents,
    pub selectors: Selectors,
}

// Written out, so that a function that lets a log go has one call and not the steps of each field.
impl Drop for Log {
    fn drop(self) {
        let Log {
            snapshot,
            events,
            selectors,
        } = self;
        drop(snapshot);
        drop(events);
        drop(selectors);
    }
}

// The events of the log, and the checkpoints behind them.
fn joined(events: LogEvents, checkpoints: LogEvents) -> Result<LogEvents, OutOfMemory>
    ensures { IfOk result (λ all. all ≡ events ++ checkpoints) }
{
    let mut all = events.into_vec();
    all.append(&mut checkpoints.into_vec())?;
    Ok(LogEvents::from_vec(all))
}

/// Puts a setup and its log into the terms of the model of history. The pool gets the trees of the snapshot, then those
/// that the events' answers show, and then those of the checkpoints. Several threads classify the events.
pub fn log_of<R: Threads + Sync>(
    rt: &R,
    alloc: Global,
    pool: &mut Interner,
    setup: &Setup,
    events: &Events,
) -> Result<Log, BuildFault>
    requires loggable { IsLoggable setup.now events.now }
    requires anew { pool.old.trees ≡ [] }
    ensures built { IfOk result (IsPutTogether setup.now events.now pool.new.trees pool.old.limit) }
    ensures full { result ≡ Err BuildFault.PoolFull
        → pool.old.limit < length (pooled setup.now events.now) }
    ensures limit { pool.new.limit ≡ pool.old.limit }
{
    let snapshot = items_of(alloc, pool, setup.snapshot.as_slice())?;
    let LoggedEvents { events, selectors } = events_of(rt, alloc, pool, setup, events.as_slice())?;
    let checkpoints = checkpoints_of(alloc, pool, setup.checkpoints.as_slice())?;
    let _len = pool.len();
    Ok(Log {
        snapshot,
        events: joined(events, checkpoints)?,
        selectors,
    })
}
