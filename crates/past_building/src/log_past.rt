ghost use Rattle.std.specs.Prelude.{◌≡◌, ◌<◌, ◌^◌, length, map, IfOk, All, AllPairs};
ghost use Rattle.history_model.specs.Histories.{History};
ghost use Rattle.history_model.specs.Incarnations.{AreRemovals};
ghost use Rattle.history_model.specs.Judging.{IsOrder};
ghost use Rattle.history_model.specs.Makers.{AreVersions};
ghost use Rattle.object_past.specs.Modelled.{recorded, version_of};
ghost use Rattle.write_groups.specs.Members.{AreGroupsOf};
ghost use Rattle.write_groups.specs.Modelled.{HasEvents, HasTimes, item_of};
ghost use Rattle.past_building.specs.Behind.{AreGroupsBehind};
ghost use Rattle.past_building.specs.Few.{AreFew};
ghost use Rattle.past_building.specs.Found.{HasFound, IsPastOf};
ghost use Rattle.past_building.specs.Hidden.{slots_of};
ghost use Rattle.past_building.specs.Surrounded.{IsJudgedBy};
ghost use Rattle.past_building.specs.Timed.{IsTimedOf};
ghost use Rattle.past_building.specs.Written.{AreAllJudged, AreSlots, IsSnapshot};

use crate::bodies::Bodies;
use crate::maker::JudgedWrite;
use crate::removals::removals_of;
use crate::removed::first_removals;
use crate::timed::{Timed, timed_of};
use crate::versions::{Log, Written, write_versions};
use base_types::{OutOfMemory, Revision};
use clouds::Clouds;
use hash_seed::Seed;
use object_past::{Removals, Versions};
use std::alloc::Global;
use time_windows::Windows;
use write_groups::{Groups, Item, LogEvent};

/// What is found of a log.
#[derive(Drop)]
pub struct LogPast {
    /// The numbers of all events in the order of judgement.
    pub order: Vec<u32>,
    pub windows: Windows,
    pub clouds: Clouds,
    pub groups: Groups,
    pub versions: Versions,
    /// Why each write of a group could not have made its revision.
    pub judged: Vec<JudgedWrite>,
    pub removals: Removals,
}

/// The versions of a log, and the removals behind them.
#[derive(Drop)]
pub struct Ended {
    pub written: Written,
    pub removals: Removals,
}

fn ended_of<B: Bodies>(
    alloc: Global,
    bodies: &B,
    start: Revision,
    snapshot: &[Item],
    events: &[LogEvent],
    timed: &Timed,
    seed: Seed,
) -> Result<Ended, OutOfMemory>
    requires snapshot { IsSnapshot start snapshot.now }
    requires groups { AreGroupsBehind start events.now timed.now.groups }
    ensures slots { IfOk result
        (λ ended. AreSlots (slots_of snapshot.now timed.now.groups) ended.written.versions) }
    ensures ended { IfOk result (λ ended. (h : History) → HasTimes timed.now.windows h
        → HasEvents events.now h → h.order ≡ timed.now.order.items → IsOrder h
        → IsJudgedBy timed.now.clouds (B.body bodies.now) h → AreGroupsOf h timed.now.groups
        → h.start ≡ start
        → h.snapshot ≡ map item_of snapshot.now
        → h.versions ≡ map version_of ended.written.versions
        → h.removals ≡ map recorded ended.removals
        → AreVersions h × AreAllJudged h events.now timed.now.groups ended.written.judged.items
        × AreRemovals h) }
{
    let removed = first_removals(alloc, events, &timed.order, seed)?;
    let log = Log {
        windows: &timed.windows,
        clouds: &timed.clouds,
        events,
        removed: &removed,
    };
    let groups = timed.groups.as_slice();
    let written = write_versions(alloc, log, bodies, start, snapshot, groups, seed)?;
    let removals = removals_of(
        alloc,
        log,
        written.versions.as_slice(),
        &written.firsts,
        &written.earlier,
    )?;
    Ok(Ended { written, removals })
}

/// The past that a log shows behind a snapshot of the start, once its windows and clouds are found. The hashes of what
/// is looked up begin with the seed.
pub fn past_behind<B: Bodies>(
    alloc: Global,
    bodies: &B,
    start: Revision,
    snapshot: &[Item],
    events: &[LogEvent],
    timed: Timed,
    seed: Seed,
) -> Result<LogPast, OutOfMemory>
    requires snapshot { IsSnapshot start snapshot.now }
    requires timed { IsTimedOf start snapshot.now events.now timed }
    ensures start { IfOk result (λ past. past.windows.start ≡ start) }
    ensures past { IfOk result (λ past. (h : History) → HasFound start snapshot.now events.now
        (B.body bodies.now) past h → IsPastOf events.now past h) }
    ensures few_found { IfOk result (AreFew snapshot.now events.now) }
{
    let ended = ended_of(alloc, bodies, start, snapshot, events, &timed, seed)?;
    Ok(timed.joined(ended))
}

/// The past that a log shows, its lines rising, behind a snapshot of the start. The hashes of what is looked up begin
/// with the seed.
pub fn past_of<B: Bodies>(
    alloc: Global,
    bodies: &B,
    start: Revision,
    snapshot: &[Item],
    events: &[LogEvent],
    seed: Seed,
) -> Result<LogPast, OutOfMemory>
    requires few { length events.now < 2 ^ 32 }
    requires lines { AllPairs (λ a b. a.line < b.line) events.now }
    requires snapshot { IsSnapshot start snapshot.now }
    ensures start { IfOk result (λ past. past.windows.start ≡ start) }
    ensures past { IfOk result (λ past. (h : History) → HasFound start snapshot.now events.now
        (B.body bodies.now) past h → IsPastOf events.now past h) }
    ensures few_found { IfOk result (AreFew snapshot.now events.now) }
{
    let timed = timed_of(alloc, start, snapshot, events)?;
    past_behind(alloc, bodies, start, snapshot, events, timed, seed)
}
