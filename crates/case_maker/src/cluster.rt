ghost use Rattle.std.specs.Prelude.{◌≡◌, ◌++◌, ◌<◌, ◌+◌, ◌^◌, OnOk, string_bytes};
ghost use Rattle.case_maker.specs.Cluster.{first_state, line_at, state_past};

use crate::event::{Event, append_event};
use crate::exchange::{Held, choose};
use crate::random::draw;
use base_types::OutOfMemory;

/// The cluster of a case between two events.
#[derive(Drop)]
pub struct Cluster {
    /// The state of the draws.
    random: u64,
    /// The last revision.
    revision: u64,
    /// The object of each name, from `c0` to `c63`.
    objects: [Option<Held>; 64],
}

pub fn first_cluster(seed: u64) -> Cluster
    ensures { result ≡ first_state seed }
{
    Cluster {
        random: seed,
        revision: 10,
        objects: [None; 64],
    }
}

/// Draws the event of this number, appends its line and does it.
pub fn append_next(log: &mut String, cluster: &mut Cluster, number: u32) -> Result<(), OutOfMemory>
    requires number { number + 3 < 3600000 }
    requires revision { cluster.old.revision + 1 < 2 ^ 64 }
    ensures line { OnOk result (string_bytes log.new ≡ string_bytes log.old ++ line_at
        cluster.old number) }
    ensures state { OnOk result (cluster.new ≡ state_past cluster.old number) }
{
    let name = draw(&mut cluster.random, 64) as usize;
    let choice = draw(&mut cluster.random, 8);
    let exchange = choose(cluster.objects[name], choice, number, cluster.revision);
    append_event(
        log,
        &Event {
            number,
            name,
            exchange,
            revision: cluster.revision,
            objects: &cluster.objects,
        },
    )?;
    cluster.objects[name] = exchange.object_after();
    cluster.revision = exchange.revision_after(cluster.revision);
    Ok(())
}
