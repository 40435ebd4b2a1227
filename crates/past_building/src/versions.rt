ghost use Rattle.std.specs.Prelude.{◌≡◌, ◌≢◌, ◌<◌, ◌++◌, ◌∷◌, ◌↔◌, [], ℕ, List, IfOk, IsSome, IsTrue, All, AllPairs, Any, Some};
ghost use Rattle.std.specs.Prelude.{length, map, option_map, true};
ghost use Rattle.std.specs.List.Sorted.{IsPermutation};
ghost use Rattle.base_types.specs.declared.kubernetes.key.ObjectKey.{ObjectKey};
ghost use Rattle.history_model.specs.Histories.{History};
ghost use Rattle.history_model.specs.Makers.{AreVersions, IsMadeVersion};
ghost use Rattle.history_model.specs.Making.{IsEntryBefore};
ghost use Rattle.write_groups.specs.Grouped.{item_at, AreWrites};
ghost use Rattle.write_groups.specs.Members.{AreGroupsOf};
ghost use Rattle.write_groups.specs.Modelled.{item_of};
ghost use Rattle.object_past.specs.Modelled.{version_of};
ghost use Rattle.object_past.specs.declared.version.Version.{Version};
ghost use Rattle.past_building.specs.Chosen.{first_write, shown_by};
ghost use Rattle.past_building.specs.Behind.{AreGroupsBehind};
ghost use Rattle.past_building.specs.Growing.{IsLatestIn};
ghost use Rattle.past_building.specs.Traced.{AreTraced};
ghost use Rattle.past_building.specs.declared.maker.JudgedWrite.{JudgedWrite as Writing};
ghost use Rattle.past_building.specs.Hidden.{slots_of};
ghost use Rattle.past_building.specs.Modelled.{making_of};
ghost use Rattle.past_building.specs.Surrounded.{HasLog};
ghost use Rattle.past_building.specs.Written.{making_at, snapshot_version, IsOfLog, Extends, IsAnsweredAt};
ghost use Rattle.past_building.specs.Written.{IsJudgement, AreJudged, AreAllJudged, AreSlots, IsOfGroup};
ghost use Rattle.past_building.specs.Written.{IsSnapshot};

use crate::bodies::Bodies;
use crate::grown::{Grown, Latest};
use crate::maker::{JudgedWrite, maker_among, shown_by};
use crate::making::{Making, making_at, making_fault};
use crate::owner::{Owner, owned};
use crate::removal::range_behind;
use crate::removed::Removed;
use base_types::{OutOfMemory, Revision};
use clouds::Clouds;
use hash_seed::Seed;
use object_past::{Maker, Version, Versions};
use std::alloc::Global;
use time_windows::Windows;
use write_groups::{Group, Item, LogEvent};

/// What of a log its versions are judged by.
#[derive(Clone, Copy)]
pub struct Log<'a> {
    pub windows: &'a Windows,
    pub clouds: &'a Clouds,
    pub events: &'a [LogEvent],
    pub removed: &'a Removed,
}

// The write of this number.
fn write_at(events: &[LogEvent], number: u32) -> Making<'_>
    requires { IsSome (item_at events.now number) }
    ensures { making_at events.now number ≡ Some (making_of result) }
{
    match making_at(events, number) {
        Some(making) => making,
        None => unreachable!(),
    }
}

// The object before a write: its key's latest version, but none where that was removed before a creation of another
// uid.
fn entry_before<'a>(
    log: Log<'_>,
    latest: Option<Latest<'a>>,
    making: Making<'_>,
) -> Option<&'a Version>
    ensures { (h : History) (done : List Version)
        → HasLog log.entry.windows.now log.entry.events.now
        log.entry.removed.now h → Extends h done making.entry.item.now.revision
        → IsLatestIn done making.entry.item.now.key latest.entry
        → IsEntryBefore h (making_of making.entry)
        (option_map (λ v. version_of v.now) result) }
{
    let latest = latest?;
    if making.created
        && latest.version.uid != making.item.uid
        && range_behind(
            log.windows,
            log.events,
            log.removed,
            latest.version,
            latest.is_first,
            Some(making.item.revision),
        )
        .is_some()
    {
        return None;
    }
    Some(latest.version)
}

// Whether a write that created its object gave it a uid that a version has; of others it isn't looked up.
fn is_reused(grown: &Grown, making: Making<'_>) -> bool
    ensures { making.entry.created ≡ true
        → IsTrue result ↔ Any (λ v. v.uid ≡ making.entry.item.now.uid) grown.now }
{
    making.created && grown.is_used(&making.item.uid)
}

// Why a write could not have made its revision behind these versions, of which `latest` is its key's latest.
fn judge<B: Bodies>(
    alloc: Global,
    log: Log<'_>,
    bodies: &B,
    grown: &Grown,
    latest: Option<Latest<'_>>,
    making: Making<'_>,
) -> Result<JudgedWrite, OutOfMemory>
    ensures number { IfOk result (λ judged. judged.number ≡ making.entry.number) }
    ensures judged { IfOk result (λ judged. (h : History) → IsOfLog log.entry (B.body bodies.now) h
        → Extends h grown.now making.entry.item.now.revision
        → IsLatestIn grown.now making.entry.item.now.key latest.entry
        → IsJudgement h (making_of making.entry) judged) }
{
    let before = entry_before(log, latest, making);
    let is_used = is_reused(grown, making);
    Ok(JudgedWrite {
        number: making.number,
        making: making_fault(
            alloc,
            log.windows,
            log.clouds,
            bodies,
            making,
            is_used,
            before,
        )?,
    })
}

// Judges the writes of one key and revision, whose key's latest version is looked up once for all.
fn judge_each<B: Bodies>(
    alloc: Global,
    log: Log<'_>,
    bodies: &B,
    grown: &Grown,
    latest: Option<Latest<'_>>,
    members: &[u32],
) -> Result<Vec<JudgedWrite>, OutOfMemory>
    requires writes { AreWrites log.events.now members.now }
    ensures numbers { IfOk result (λ judged. map (λ one. one.number) judged.items ≡ members.now) }
    ensures judged { IfOk result (λ judged. (h : History) (key : ObjectKey) (revision : ℕ)
        → IsOfLog log.entry (B.body bodies.now) h → Extends h grown.now revision
        → IsLatestIn grown.now key latest.entry
        → All (IsAnsweredAt log.entry.events.now key revision) members.now
        → AreJudged h log.entry.events.now members.now judged.items) }
{
    let mut judged = Vec::with_capacity(alloc, members.len())?;
    for number in members {
        let making = write_at(log.events, *number);
        judged.push(judge(alloc, log, bodies, grown, latest, making)?)?;
    }
    Ok(judged)
}

// The group's first write.
fn first_number(judged: &[JudgedWrite]) -> u32
    requires { 0 < length judged.now }
    ensures { first_write judged.now ≡ Some result }
{
    judged[0].number
}

// The version that a group's writes left behind the others.
fn version_in<B: Bodies>(
    alloc: Global,
    log: Log<'_>,
    bodies: &B,
    group: &Group,
    judged: &[JudgedWrite],
) -> Result<Version, OutOfMemory>
    requires writes { AreWrites log.events.now (map (λ one. one.number) judged.now) }
    ensures key { IfOk result (λ version. version.key ≡ group.now.key) }
    ensures revision { IfOk result (λ version. version.revision ≡ group.now.revision) }
    ensures made { IfOk result (λ version. (h : History)
        → IsOfGroup log.entry (B.body bodies.now) group.now judged.now h
        → IsMadeVersion h (version_of version)) }
{
    let first = first_number(judged);
    let may_be_unrecorded = log.clouds.may_make(&group.key, group.revision);
    let maker = maker_among(alloc, bodies, log.events, judged, first, may_be_unrecorded)?;
    let making = write_at(log.events, shown_by(maker, first));
    let owner = owned(&group.key, &making.item.uid)?;
    let Owner { key, uid } = owner;
    Ok(Version {
        key,
        revision: group.revision,
        uid,
        node: making.item.node,
        maker,
    })
}

fn snapshot_version(item: &Item) -> Result<Version, OutOfMemory>
    ensures { IfOk result (λ version. version ≡ snapshot_version item.now) }
{
    let owner = owned(&item.key, &item.uid)?;
    let Owner { key, uid } = owner;
    Ok(Version {
        key,
        revision: item.revision,
        uid,
        node: item.node,
        maker: Maker::Snapshot,
    })
}

fn by_revision(alloc: Global, snapshot: &[Item]) -> Result<Vec<&Item>, OutOfMemory>
    requires { AllPairs (λ a b. a.revision ≢ b.revision) snapshot.now }
    ensures same { IfOk result
        (λ order. IsPermutation snapshot.now (map (λ item. item.now) order.items)) }
    ensures rising { IfOk result
        (λ order. AllPairs (λ a b. a.now.revision < b.now.revision) order.items) }
{
    let mut order: Vec<&Item> = snapshot.iter().collect(alloc)?;
    order.sort_by_key(|item| item.revision.get())?;
    Ok(order)
}

// The versions that were there at the start, with room for so many in all.
fn begin(alloc: Global, order: &[&Item], room: usize, seed: Seed) -> Result<Grown, OutOfMemory>
    requires { AllPairs (λ a b. a.now.revision < b.now.revision) order.now }
    ensures { IfOk result (λ grown. grown ≡ map (λ item. snapshot_version item.now) order.now) }
{
    let mut grown = Grown::new(alloc, room, seed)?;
    for item in order {
        grown = grown.with(snapshot_version(item)?)?;
    }
    Ok(grown)
}

/// The versions of a log, of each whether its incarnation is the first of its key with its uid and where its key's
/// version before it is, and of each write of a group why it could not have made its revision.
#[derive(Drop)]
pub struct Written {
    pub versions: Versions,
    pub firsts: Vec<bool>,
    pub earlier: Vec<Option<usize>>,
    pub judged: Vec<JudgedWrite>,
}

// Takes the version that a group's writes left behind these, and puts what was judged of them behind the others.
fn add_group<B: Bodies>(
    alloc: Global,
    log: Log<'_>,
    bodies: &B,
    grown: Grown,
    judged: &mut Vec<JudgedWrite>,
    group: &Group,
) -> Result<Grown, OutOfMemory>
    requires writes { AreWrites log.events.now group.now.members }
    requires above { All (λ v. v.revision < group.now.revision) grown }
    ensures { IfOk result (λ after. (version : Version) × (more : List Writing)
        × (after ≡ grown ++ version ∷ []) × (judged.new.items ≡ judged.old.items ++ more)
        × (version.key ≡ group.now.key) × (version.revision ≡ group.now.revision)
        × (map (λ one. one.number) more ≡ group.now.members)
        × ((h : History) → IsOfLog log.entry (B.body bodies.now) h
        → Extends h grown group.now.revision
        → All (IsAnsweredAt log.entry.events.now group.now.key group.now.revision) group.now.members
        → AreJudged h log.entry.events.now group.now.members more)
        × ((h : History) → IsOfGroup log.entry (B.body bodies.now) group.now more h
        → IsMadeVersion h (version_of version))) }
{
    let latest = grown.latest(&group.key);
    let numbers = group.members.as_slice();
    let mut members = judge_each(alloc, log, bodies, &grown, latest, numbers)?;
    let version = version_in(alloc, log, bodies, group, &members)?;
    let grown = grown.with(version)?;
    judged.append(&mut members)?;
    Ok(grown)
}

/// The versions of all objects by revision: those of the snapshot, and one for each group.
pub fn write_versions<B: Bodies>(
    alloc: Global,
    log: Log<'_>,
    bodies: &B,
    start: Revision,
    snapshot: &[Item],
    groups: &[Group],
    seed: Seed,
) -> Result<Written, OutOfMemory>
    requires snapshot { IsSnapshot start snapshot.now }
    requires groups { AreGroupsBehind start log.events.now groups.now }
    ensures traced { IfOk result (λ written. AreTraced written.versions written.firsts.items
        written.earlier.items) }
    ensures slots { IfOk result
        (λ written. AreSlots (slots_of snapshot.now groups.now) written.versions) }
    ensures versions { IfOk result
        (λ written. (h : History) → IsOfLog log.entry (B.body bodies.now) h
        → AreGroupsOf h groups.now → h.start ≡ start
        → h.snapshot ≡ map item_of snapshot.now → h.versions ≡ map version_of written.versions
        → AreVersions h) }
    ensures judged { IfOk result (λ written. (h : History) → IsOfLog log.entry (B.body bodies.now) h
        → AreGroupsOf h groups.now → h.start ≡ start
        → h.versions ≡ map version_of written.versions
        → AreAllJudged h log.entry.events.now groups.now
        written.judged.items) }
{
    let order = by_revision(alloc, snapshot)?;
    let room = snapshot.len() + groups.len();
    let mut grown = begin(alloc, &order, room, seed)?;
    let mut judged = Vec::with_capacity(alloc, groups.len())?;
    for group in groups {
        grown = add_group(alloc, log, bodies, grown, &mut judged, group)?;
    }
    let (versions, firsts, earlier) = grown.into_parts();
    Ok(Written {
        versions,
        firsts,
        earlier,
        judged,
    })
}
