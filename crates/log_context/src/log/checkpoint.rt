ghost use Rattle.std.specs.Prelude.{◌≡◌, ◌<◌, ◌≤◌, ◌^◌, true, Err, length, IfOk, OnOk};
ghost use Rattle.log_context.specs.LogTrees.{object_trees, checkpoint_trees, with_trees};
ghost use Rattle.log_context.specs.Logged.{IsLoggedCheckpoint, AreLoggedCheckpoints};
ghost use Rattle.log_context.specs.Shown.{IsListingOf};

use crate::log::fault::BuildFault;
use crate::log::shown::items_of;
use base_types::Moment;
use node_pool::Interner;
use setup_file::Checkpoint;
use std::alloc::Global;
use write_groups::{Listing, LogEvent, LogEvents, Preconditions, Reading, Shown};

// No line of a log is behind this one: a log has at most 2^40 bytes.
const LAST_LINE: u64 = 1 << 40;

// A checkpoint is a whole list of its scope.
fn listing_of(
    alloc: Global,
    pool: &mut Interner,
    checkpoint: &Checkpoint,
) -> Result<Listing, BuildFault>
    ensures listing { IfOk result (IsListingOf pool.new.trees checkpoint.now.group
        checkpoint.now.resource checkpoint.now.namespace checkpoint.now.revision true
        checkpoint.now.items) }
    ensures added { OnOk result
        (pool.new.trees ≡ with_trees pool.old.trees (object_trees checkpoint.now.items)) }
    ensures full { result ≡ Err BuildFault.PoolFull
        → pool.old.limit < length (with_trees pool.old.trees (object_trees checkpoint.now.items)) }
    ensures limit { pool.new.limit ≡ pool.old.limit }
{
    let items = items_of(alloc, pool, checkpoint.items.as_slice())?;
    Ok(Listing {
        group: checkpoint.group.clone()?,
        resource: checkpoint.resource.clone()?,
        namespace: checkpoint.namespace.clone()?,
        revision: checkpoint.revision,
        whole: true,
        items,
    })
}

// The checkpoint of this number, from 1, in the terms of the model of history, once its trees are in the pool.
fn logged_checkpoint(
    alloc: Global,
    pool: &mut Interner,
    number: u64,
    checkpoint: &Checkpoint,
) -> Result<LogEvent, BuildFault>
    requires { number ≤ 2 ^ 32 }
    ensures logged { IfOk result (IsLoggedCheckpoint pool.new.trees number checkpoint.now) }
    ensures added { OnOk result
        (pool.new.trees ≡ with_trees pool.old.trees (object_trees checkpoint.now.items)) }
    ensures full { result ≡ Err BuildFault.PoolFull
        → pool.old.limit < length (with_trees pool.old.trees (object_trees checkpoint.now.items)) }
    ensures limit { pool.new.limit ≡ pool.old.limit }
{
    let listing = listing_of(alloc, pool, checkpoint)?;
    let no_moment = Moment(0);
    Ok(LogEvent {
        line: LAST_LINE + number,
        lo: no_moment,
        hi: no_moment,
        reading: Reading::Checkpoint(checkpoint.revision),
        preconditions: Preconditions {
            revision: None,
            uid: None,
        },
        answer: Shown::Listed { listing },
        other_level: false,
        omitted_stage: false,
        decision: None,
    })
}

/// The checkpoints in the terms of the model of history, once their trees are in the pool.
pub fn checkpoints_of(
    alloc: Global,
    pool: &mut Interner,
    checkpoints: &[Checkpoint],
) -> Result<LogEvents, BuildFault>
    requires { length checkpoints.now < 2 ^ 32 }
    ensures logged { IfOk result (AreLoggedCheckpoints pool.new.trees checkpoints.now) }
    ensures added { OnOk result
        (pool.new.trees ≡ with_trees pool.old.trees (checkpoint_trees checkpoints.now)) }
    ensures full { result ≡ Err BuildFault.PoolFull
        → pool.old.limit < length (with_trees pool.old.trees (checkpoint_trees checkpoints.now)) }
    ensures limit { pool.new.limit ≡ pool.old.limit }
{
    let mut all = LogEvents::new(alloc);
    for (i, checkpoint) in checkpoints.iter().enumerate() {
        let number = i as u64 + 1;
        all.push(logged_checkpoint(alloc, pool, number, checkpoint)?)?;
    }
    Ok(all)
}
