ghost use Rattle.std.specs.Prelude.{◌≡◌, IfOk, map, option_and_then, option_map, slice_get};
ghost use Rattle.std.specs.List.Sorted.{IsPermutation};
ghost use Rattle.history_model.specs.Histories.{History};
ghost use Rattle.history_model.specs.Incarnations.{AreRemovals};
ghost use Rattle.object_past.specs.Modelled.{recorded};
ghost use Rattle.past_building.specs.Ended.{AreFound, IsFoundAfter};
ghost use Rattle.past_building.specs.Following.{AreBefore, AreNexts};
ghost use Rattle.object_past.specs.Modelled.{version_of};
ghost use Rattle.past_building.specs.Surrounded.{HasLog};
ghost use Rattle.past_building.specs.Traced.{AreTraced};

use crate::owner::{Owner, owned};
use crate::removal::range_behind;
use crate::versions::Log;
use base_types::OutOfMemory;
use object_past::{Removal, Removals, Version};
use std::alloc::Global;

// The removal behind a version, where the version is the last of its incarnation; `after` is the key's next version.
fn removal_after(
    log: Log<'_>,
    version: &Version,
    is_first: bool,
    after: Option<&Version>,
) -> Result<Option<Removal>, OutOfMemory>
    ensures { IfOk result
        (IsFoundAfter log.entry.windows.now log.entry.events.now log.entry.removed.now
        version.now is_first (option_map (λ v. v.now) after.entry)) }
{
    let next = match after {
        Some(after) => {
            if after.uid == version.uid {
                return Ok(None);
            }
            Some(after.revision)
        }
        None => None,
    };
    let found = range_behind(
        log.windows,
        log.events,
        log.removed,
        version,
        is_first,
        next,
    );
    let Some(range) = found else {
        return Ok(None);
    };
    let owner = owned(&version.key, &version.uid)?;
    let Owner { key, uid } = owner;
    Ok(Some(Removal {
        key,
        uid,
        last: version.revision,
        range,
    }))
}

fn version_at(versions: &[Version], position: Option<usize>) -> Option<&Version>
    ensures { option_map (λ v. v.now) result ≡ option_and_then (slice_get versions.now) position }
{
    versions.get(position?)
}

// Of each position the one behind it, where `earlier` tells of each the one before it.
fn nexts_of(alloc: Global, earlier: &[Option<usize>]) -> Result<Vec<Option<usize>>, OutOfMemory>
    requires { AreBefore earlier.now }
    ensures { IfOk result (λ nexts. AreNexts earlier.now nexts.items) }
{
    let mut nexts = vec![in alloc; None; earlier.len()]?;
    for position in 0..earlier.len() {
        if let Some(before) = earlier[position] {
            nexts[before] = Some(position);
        }
    }
    Ok(nexts)
}

// The removals of all versions, from the latest version on.
fn find_removals(
    alloc: Global,
    log: Log<'_>,
    versions: &[Version],
    firsts: &[bool],
    earlier: &[Option<usize>],
) -> Result<Vec<Removal>, OutOfMemory>
    requires traced { AreTraced versions.now firsts.now earlier.now }
    ensures { IfOk result
        (λ removals. (h : History) → HasLog log.entry.windows.now log.entry.events.now
        log.entry.removed.now h
        → h.versions ≡ map version_of versions.now → AreFound h removals.items) }
{
    let nexts = nexts_of(alloc, earlier)?;
    let mut removals = Vec::new(alloc);
    for i in (0..versions.len()).rev() {
        let version = &versions[i];
        let after = version_at(versions, nexts[i]);
        if let Some(removal) = removal_after(log, version, firsts[i], after)? {
            removals.push(removal)?;
        }
    }
    Ok(removals)
}

/// The removals of a log, whose versions rise by revision; `firsts` tells of each version whether its incarnation is
/// the first of its key with its uid, and `earlier` where its key's version before it is.
pub fn removals_of(
    alloc: Global,
    log: Log<'_>,
    versions: &[Version],
    firsts: &[bool],
    earlier: &[Option<usize>],
) -> Result<Removals, OutOfMemory>
    requires traced { AreTraced versions.now firsts.now earlier.now }
    ensures { IfOk result
        (λ removals. (h : History) → HasLog log.entry.windows.now log.entry.events.now
        log.entry.removed.now h
        → h.versions ≡ map version_of versions.now → h.removals ≡ map recorded removals
        → AreRemovals h) }
{
    let mut removals = find_removals(alloc, log, versions, firsts, earlier)?;
    removals.sort_by_key(|removal| removal.range.event)?;
    Ok(Removals::from_vec(removals))
}
