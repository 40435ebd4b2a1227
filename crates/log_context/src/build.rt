ghost use Rattle.std.specs.Prelude.{◌≡◌, ◌<◌, ◌≤◌, ◌+◌, ◌^◌, Err, length, All, AllPairs, IfOk};
ghost use Rattle.audit_event.specs.Events.{IsSound as IsSoundEvent};
ghost use Rattle.object_past.specs.Past.{AreEnds};
ghost use Rattle.setup_file.specs.Sound.{IsSound};
ghost use Rattle.log_context.specs.Building.{IsBuildable, IsBuiltOf};
ghost use Rattle.log_context.specs.Gathering.{AreFaultsFor, IsFound, past_with};
ghost use Rattle.log_context.specs.Log.{AreLines, IsLogOf, RiseByLine};
ghost use Rattle.log_context.specs.LogTrees.{pooled};
ghost use Rattle.log_context.specs.Timelines.{IsTimelineOf};
ghost use Rattle.log_context.specs.Told.{IsTold};

use crate::bodies::RequestBodies;
use crate::context::Context;
use crate::faults::{faults_of, makings_of};
use crate::foreseen::past_foreseen;
use crate::log::{BuildFault, Log, log_of};
use crate::roles::timeline_of;
use audit_event::Events;
use base_types::{OutOfMemory, Reason};
use clouds::Clouds;
use hash_seed::Seed;
use node_pool::{Interner, Pool};
use object_past::Past;
use past_building::{JudgedWrite, LogPast};
use rbac_timeline::Timeline;
use setup_file::Setup;
use std::alloc::Global;
use std::marker::Sync;
use std::thread::{Threads, join};
use time_windows::Windows;
use write_groups::Groups;

/// So many distinct values the objects of a log may have.
const MOST_NODES: u32 = 50_000_000;

/// What is found of the writes of a log.
#[derive(Drop)]
pub struct Parts {
    order: Vec<u32>,
    windows: Windows,
    clouds: Clouds,
    groups: Groups,
    judged: Vec<JudgedWrite>,
    past: Past,
}

/// What is told of the events and objects of a log.
#[derive(Drop)]
pub struct EventFindings {
    faults: Vec<Option<Reason>>,
    timeline: Timeline,
}

/// What is found of a log.
#[derive(Drop)]
pub struct LogFindings {
    parts: Parts,
    told: EventFindings,
}

// What a context holds beside its setup and events.
#[derive(Drop)]
struct Gathered {
    pool: Pool,
    log: Log,
    found: LogFindings,
}

fn parts_of(alloc: Global, found: LogPast) -> Result<Parts, OutOfMemory>
    requires rising { AllPairs (λ a b. a.revision < b.revision) found.versions }
    requires ends { AreEnds found.versions found.removals }
    requires few_versions { length found.versions < 2 ^ 32 }
    requires few_removals { length found.removals < 2 ^ 32 }
    ensures same { IfOk result (λ parts. found ≡ past_with parts) }
    ensures few { IfOk result (λ parts. length parts.past.versions < 2 ^ 32) }
{
    let LogPast {
        order,
        windows,
        clouds,
        groups,
        versions,
        judged,
        removals,
    } = found;
    let Ok(past) = Past::build(alloc, versions, removals) else {
        drop(windows);
        drop(clouds);
        drop(groups);
        drop(judged);
        return Err(OutOfMemory);
    };
    Ok(Parts {
        order,
        windows,
        clouds,
        groups,
        judged,
        past,
    })
}

// Why writes could not have made what they were answered with.
fn faults_in(
    alloc: Global,
    bodies: &RequestBodies<'_>,
    parts: &Parts,
) -> Result<Vec<Option<Reason>>, OutOfMemory>
    requires { length bodies.now.log.now < 2 ^ 32 }
    ensures { IfOk result (λ faults. AreFaultsFor bodies.now.setup.now bodies.now.events.now
        bodies.now.log.now bodies.now.pool.now.trees parts.now faults.items) }
{
    let makings = makings_of(alloc, &parts.judged)?;
    let start = bodies.setup.start;
    faults_of(alloc, bodies, start, bodies.log, &parts.past, &makings)
}

// The timeline of what is found of the writes.
fn timeline_in(
    alloc: Global,
    bodies: &RequestBodies<'_>,
    parts: &Parts,
) -> Result<Timeline, OutOfMemory>
    requires start { bodies.now.setup.now.start ≡ parts.now.windows.start }
    requires numbered { length parts.now.past.versions < 2 ^ 32 }
    requires nodes { All (λ v. v.node.0 < length bodies.now.pool.now.trees)
        parts.now.past.versions }
    ensures { IfOk result (IsTimelineOf bodies.now.setup.now bodies.now.pool.now.trees
        parts.now.past parts.now.windows bodies.now.log.now) }
{
    timeline_of(
        alloc,
        bodies.setup,
        &parts.windows,
        bodies.log,
        &parts.past,
        bodies.pool,
    )
}

// What is told of the events and of what is found of the writes. The faults and the timeline read the same and write
// nothing of it, so they are found side by side.
fn told_of<R: Threads + Sync>(
    rt: &R,
    alloc: Global,
    bodies: &RequestBodies<'_>,
    parts: &Parts,
) -> Result<EventFindings, OutOfMemory>
    requires start { bodies.now.setup.now.start ≡ parts.now.windows.start }
    requires few { length bodies.now.log.now < 2 ^ 32 }
    requires numbered { length parts.now.past.versions < 2 ^ 32 }
    requires nodes { All (λ v. v.node.0 < length bodies.now.pool.now.trees)
        parts.now.past.versions }
    ensures faults { IfOk result (λ told. AreFaultsFor bodies.now.setup.now bodies.now.events.now
        bodies.now.log.now bodies.now.pool.now.trees parts.now told.faults.items) }
    ensures timeline { IfOk result (λ told. IsTimelineOf bodies.now.setup.now
        bodies.now.pool.now.trees parts.now.past parts.now.windows bodies.now.log.now
        told.timeline) }
{
    let find_faults = move || -> Result<Vec<Option<Reason>>, OutOfMemory>
        requires { length bodies.now.log.now < 2 ^ 32 }
    { faults_in(alloc, bodies, parts) };
    let find_timeline = move || -> Result<Timeline, OutOfMemory>
        requires start { bodies.now.setup.now.start ≡ parts.now.windows.start }
        requires numbered { length parts.now.past.versions < 2 ^ 32 }
        requires nodes { All (λ v. v.node.0 < length bodies.now.pool.now.trees)
            parts.now.past.versions }
    { timeline_in(alloc, bodies, parts) };
    let (faults, timeline) = join(rt, find_faults, find_timeline);
    Ok(EventFindings {
        faults: faults?,
        timeline: timeline?,
    })
}

// What a setup and its log say, once the log is in the terms of the model of history.
fn found_of<R: Threads + Sync>(
    rt: &R,
    alloc: Global,
    setup: &Setup,
    events: &Events,
    pool: &Pool,
    log: &Log,
    seed: Seed,
) -> Result<LogFindings, OutOfMemory>
    requires buildable { IsBuildable setup.now events.now }
    requires trees { pool.now.trees ≡ pooled setup.now events.now }
    requires log { IsLogOf setup.now events.now pool.now.trees log.now }
    requires rising { RiseByLine log.now.events }
    ensures { IfOk result (IsFound setup.now events.now pool.now.trees log.now) }
{
    let snapshot = log.snapshot.as_slice();
    let recorded = events.as_slice();
    let logged = log.events.as_slice();
    let bodies = RequestBodies {
        setup,
        events: recorded,
        log: logged,
        pool,
    };
    let found = past_foreseen(rt, alloc, &bodies, setup.start, snapshot, logged, seed)?;
    let parts = parts_of(alloc, found)?;
    let Ok(told) = told_of(rt, alloc, &bodies, &parts) else {
        drop(parts);
        return Err(OutOfMemory);
    };
    Ok(LogFindings { parts, told })
}

// What a context holds beside its setup and events, where the objects may have `limit` distinct values.
fn gather<R: Threads + Sync>(
    rt: &R,
    alloc: Global,
    setup: &Setup,
    events: &Events,
    limit: u32,
    seed: Seed,
) -> Result<Gathered, BuildFault>
    requires { IsBuildable setup.now events.now }
    ensures found { IfOk result (λ gathered. IsFound setup.now events.now gathered.pool.trees
        gathered.log gathered.found) }
    ensures full { result ≡ Err BuildFault.PoolFull → limit < length (pooled setup.now events.now) }
    ensures fits { IfOk result (λ gathered. length (pooled setup.now events.now) ≤ limit) }
{
    let mut interner = Interner::new(alloc, limit, seed)?;
    let log = match log_of(rt, alloc, &mut interner, setup, events) {
        Ok(log) => log,
        Err(fault) => {
            drop(interner);
            return Err(fault);
        }
    };
    let pool = interner.into_pool()?;
    let Ok(found) = found_of(rt, alloc, setup, events, &pool, &log, seed) else {
        drop(pool);
        return Err(BuildFault::OutOfMemory);
    };
    Ok(Gathered { pool, log, found })
}

// A context of its parts.
fn joined(setup: Setup, events: Events, gathered: Gathered) -> Context
    requires { IsFound setup events gathered.pool.trees gathered.log gathered.found }
    ensures setup { result.setup ≡ setup }
    ensures events { result.events ≡ events }
    ensures told { IsTold result }
{
    let Gathered { pool, log, found } = gathered;
    let LogFindings { parts, told } = found;
    let EventFindings { faults, timeline } = told;
    let Parts {
        order,
        windows,
        clouds,
        groups,
        judged: _,
        past,
    } = parts;
    Context {
        setup,
        events,
        pool,
        log,
        order,
        groups,
        windows,
        clouds,
        past,
        timeline,
        faults,
    }
}

impl Context {
    /// What a setup and the events of a log say together. The objects may have 50,000,000 distinct values, lists and
    /// members among them. Several threads classify the events, judge the bodies of writes, and find the faults
    /// and the timeline. The hashes of what the pool holds, and of keys and uids, begin with the seed.
    pub fn build<R: Threads + Sync>(
        rt: &R,
        alloc: Global,
        setup: Setup,
        events: Events,
        seed: Seed,
    ) -> Result<Context, BuildFault>
        requires setup { IsSound setup }
        requires events { All IsSoundEvent events }
        requires lines { AreLines events }
        requires few { length setup.snapshot + length events + length setup.checkpoints < 2 ^ 32 }
        ensures built { IfOk result (IsBuiltOf setup events 50000000) }
        ensures full { result ≡ Err BuildFault.PoolFull → 50000000 < length (pooled setup events) }
    {
        Context::build_within(rt, alloc, setup, events, MOST_NODES, seed)
    }

    /// The same, where the objects may have `limit` distinct values.
    pub fn build_within<R: Threads + Sync>(
        rt: &R,
        alloc: Global,
        setup: Setup,
        events: Events,
        limit: u32,
        seed: Seed,
    ) -> Result<Context, BuildFault>
        requires setup { IsSound setup }
        requires events { All IsSoundEvent events }
        requires lines { AreLines events }
        requires few { length setup.snapshot + length events + length setup.checkpoints < 2 ^ 32 }
        ensures built { IfOk result (IsBuiltOf setup events limit) }
        ensures full { result ≡ Err BuildFault.PoolFull → limit < length (pooled setup events) }
    {
        match gather(rt, alloc, &setup, &events, limit, seed) {
            Ok(gathered) => Ok(joined(setup, events, gathered)),
            Err(fault) => {
                drop(setup);
                drop(events);
                Err(fault)
            }
        }
    }
}
