ghost use Rattle.std.specs.Prelude.{◌≡◌, ◌≢◌, ◌<◌, ◌^◌, ◌==◌, ◌&&◌, ◌↔◌, length, map, find, option_map};
ghost use Rattle.std.specs.Prelude.{option_and_then, slice_get, IfOk, IfSome, IsSomeAnd, IsTrue, AllPairs, Any};
ghost use Rattle.std.specs.Prelude.{Contains, ◌≤◌};
ghost use Rattle.std.specs.Option.{option_copied};
ghost use Rattle.std.specs.List.Sorted.{IsNonDecreasing};
ghost use Rattle.base_types.specs.declared.kubernetes.key.ObjectKey.{ObjectKey};
ghost use Rattle.history_model.specs.Bounding.{IsAbsentAnyway, SomewhereIn};
ghost use Rattle.history_model.specs.Histories.{History};
ghost use Rattle.base_types.specs.Keys.{same_key};
ghost use Rattle.history_model.specs.States.{latest};
ghost use Rattle.object_past.specs.Endings.{ByLast};
ghost use Rattle.object_past.specs.Indexed.{AreEntries, AreGone, HasVersion};
ghost use Rattle.object_past.specs.Incarnated.{AreIncarnations};
ghost use Rattle.object_past.specs.Modelled.{version_of};
ghost use Rattle.object_past.specs.Past.{AreEnds, AreRising, HasPast, IsAbsentIn, IsRemovalOf};
ghost use Rattle.object_past.specs.Scopes.{AreInOrder, IsInScope};

use crate::ending::{Ending, ending_behind, endings_of};
use crate::entry::{Entry, entry_upto};
use crate::filing::{ByKey, file_versions, keys_of};
use crate::incarnation::{Incarnation, has_uid};
use crate::removal::{Removal, Removals};
use crate::scope::keys_in;
use crate::version::{Maker, Version, Versions};
use base_types::{ObjectKey, OutOfMemory, Range, Text};
use std::alloc::Global;
use std::marker::Model;

/// All versions and removals, and where they are found. Contracts see the versions and the removals.
#[derive(Drop)]
pub struct Past {
    versions: Versions,
    removals: Removals,
    ranges: Vec<Range>,
    endings: Vec<Ending>,
    // All keys in order, so that those of a scope are one slice.
    keys: Vec<ObjectKey>,
    by_key: ByKey,
}

impl Model for Past {
    ghost use Rattle.object_past.specs.Past.{Recorded};

    ghost Value = { Recorded };

    ghost use Rattle.object_past.specs.Indexed.{IsKept};

    ghost view = { λ p. record { versions = p.versions; removals = p.removals } };

    ghost invariant = { λ p. IsKept (record { versions = p.versions; removals = p.removals })
        p.ranges.items
        p.endings.items p.keys.items p.by_key };
}

fn ranges_of(alloc: Global, removals: &[Removal]) -> Result<Vec<Range>, OutOfMemory>
    ensures { IfOk result (λ ranges. ranges.items ≡ map (λ removal. removal.range) removals.now) }
{
    let ranges = removals.iter().map(|removal| removal.range).collect(alloc)?;
    Ok(ranges)
}

fn has_key(version: &Version, key: &ObjectKey) -> bool
    ensures { result ≡ same_key version.now.key key.now }
{
    version.key == *key
}

fn version_at(versions: &[Version], position: u32) -> Option<&Version>
    ensures { option_map (λ v. v.now) result ≡ slice_get versions.now position }
{
    versions.get(position as usize)
}

// The version of this revision.
fn version_with(versions: &[Version], revision: u64) -> Option<&Version>
    requires { AreRising versions.now }
    ensures { option_map (λ v. v.now) result ≡ find (λ v. v.revision == revision) versions.now }
{
    let upto = versions.partition_point(|version| version.revision.get() <= revision);
    if upto == 0 {
        return None;
    }
    let version = &versions[upto - 1];
    if version.revision.get() != revision {
        return None;
    }
    Some(version)
}

// The position of the removal by the event of this number.
fn position_by(removals: &[Removal], event: u32) -> Option<u32>
    requires rising { AllPairs (λ a b. a.range.event < b.range.event) removals.now }
    requires count { length removals.now < 2 ^ 32 }
    ensures removal { option_and_then (slice_get removals.now) result
        ≡ find (λ r. r.range.event == event)
        removals.now }
    ensures within { IfSome result (λ position. position < length removals.now) }
{
    let upto = removals.partition_point(|removal| removal.range.event <= event);
    if upto == 0 {
        return None;
    }
    if removals[upto - 1].range.event != event {
        return None;
    }
    Some((upto - 1) as u32)
}

// Whether one of the places lies from `low` to `high`.
fn has_within(places: &[u64], low: u64, high: u64) -> bool
    requires { IsNonDecreasing places.now }
    ensures { IsTrue result ↔ Any (λ place. (low ≤ place) × (place ≤ high)) places.now }
{
    let upto = places.partition_point(|place| *place <= high);
    upto > 0 && low <= places[upto - 1]
}

impl Past {
    /// Keeps versions by revision, and removals by event.
    pub fn build(alloc: Global, versions: Versions, removals: Removals) -> Result<Past, OutOfMemory>
        requires rising { AllPairs (λ a b. a.revision < b.revision) versions }
        requires ends { AreEnds versions removals }
        requires few_versions { length versions < 2 ^ 32 }
        requires few_removals { length removals < 2 ^ 32 }
        ensures versions { IfOk result (λ past. past.versions ≡ versions) }
        ensures removals { IfOk result (λ past. past.removals ≡ removals) }
    {
        let ranges = ranges_of(alloc, removals.as_slice())?;
        let endings = endings_of(alloc, removals.as_slice())?;
        let by_key = file_versions(alloc, versions.as_slice(), &endings)?;
        let keys = keys_of(alloc, &by_key)?;
        Ok(Past {
            versions,
            removals,
            ranges,
            endings,
            keys,
            by_key,
        })
    }

    /// All versions by revision.
    pub fn versions(&self) -> &[Version]
        ensures versions { result.now ≡ self.now.versions }
        ensures rising { AllPairs (λ a b. a.revision < b.revision) result.now }
    {
        self.versions.as_slice()
    }

    /// All removals by event.
    pub fn removals(&self) -> &[Removal]
        ensures removals { result.now ≡ self.now.removals }
        ensures ends { AreEnds self.now.versions result.now }
    {
        self.removals.as_slice()
    }

    /// The ranges of all removals.
    pub fn ranges(&self) -> &[Range]
        ensures { result.now ≡ map (λ r. r.range) self.now.removals }
    {
        self.ranges.as_slice()
    }

    /// The version of this revision.
    pub fn at(&self, revision: u64) -> Option<&Version>
        ensures { option_map (λ v. v.now) result
            ≡ find (λ v. v.revision == revision) self.now.versions }
    {
        version_with(self.versions.as_slice(), revision)
    }

    /// The version of this key and revision.
    pub fn version(&self, key: &ObjectKey, revision: u64) -> Option<&Version>
        ensures { option_map (λ v. v.now) result
            ≡ find (λ v. same_key v.key key.now && v.revision == revision) self.now.versions }
    {
        let version = version_with(self.versions.as_slice(), revision)?;
        if !has_key(version, key) {
            return None;
        }
        Some(version)
    }

    // The key's versions in order.
    fn entries_of(&self, key: &ObjectKey) -> &[Entry]
        ensures { AreEntries self.now.versions key.now result.now }
    {
        match self.by_key.get(key) {
            Some(found) => found.entries(),
            None => &[],
        }
    }

    /// The key's latest version at or below a place.
    pub fn latest(&self, key: &ObjectKey, place: u64) -> Option<&Version>
        ensures latest { option_map (λ v. version_of v.now) result
            ≡ latest (map version_of self.now.versions)
            key.now place }
        ensures known { IfSome result (λ v. Contains self.now.versions v.now) }
    {
        let versions = self.versions.as_slice();
        let entry = entry_upto(self.entries_of(key), place)?;
        version_at(versions, entry.position)
    }

    /// Who wrote the version of this revision.
    pub fn maker(&self, revision: u64) -> Option<Maker>
        ensures { result
            ≡ option_map (λ v. v.maker) (find (λ v. v.revision == revision) self.now.versions) }
    {
        Some(self.at(revision)?.maker)
    }

    /// The position of the removal of the version of this revision.
    pub fn removal_of(&self, last: u64) -> Option<u32>
        ensures { IsRemovalOf self.now.removals last result }
    {
        Some(ending_behind(&self.endings, last)?.position)
    }

    /// The position of the removal by the event of this number.
    pub fn removal_by(&self, event: u32) -> Option<u32>
        ensures removal { option_and_then (slice_get self.now.removals) result ≡ find
            (λ r. r.range.event == event) self.now.removals }
        ensures within { IfSome result (λ position. position < length self.now.removals) }
    {
        position_by(self.removals.as_slice(), event)
    }

    // Where the ranges of the key's removals end.
    fn gone_of(&self, key: &ObjectKey) -> &[u64]
        ensures { AreGone self.now.versions self.now.removals key.now result.now }
    {
        match self.by_key.get(key) {
            Some(found) => found.gone(),
            None => &[],
        }
    }

    // Whether the key is absent at a place whatever is chosen.
    fn is_absent_at(&self, key: &ObjectKey, place: u64) -> bool
        ensures { IsTrue result ↔ IsAbsentIn self.now key.now place }
    {
        let endings = self.endings.as_slice();
        let Some(version) = self.latest(key, place) else {
            return true;
        };
        let Some(ending) = ending_behind(endings, version.revision.get()) else {
            return false;
        };
        ending.high <= place
    }

    /// Whether the key is absent at some place from `low` to `high` whatever places its removals have: before its first
    /// version, or behind a removal's range.
    pub fn is_absent_within(&self, key: &ObjectKey, low: u64, high: u64) -> bool
        ensures { (h : History) → HasPast self.now h
            → IsTrue result ↔ SomewhereIn low high (IsAbsentAnyway h key.now) }
    {
        // For the proof alone: what a past keeps is known where a field of it is looked at.
        let _ = &self.versions;
        if low > high {
            return false;
        }
        self.is_absent_at(key, low) || has_within(self.gone_of(key), low, high)
    }

    /// The incarnations of a key's object, in order.
    pub fn incarnations(&self, key: &ObjectKey) -> &[Incarnation]
        ensures { AreIncarnations self.now key.now result.now }
    {
        match self.by_key.get(key) {
            Some(found) => found.incarnations(),
            None => &[],
        }
    }

    /// Whether at some place from `low` to `high` the key's latest version has another uid.
    pub fn has_other_uid(&self, key: &ObjectKey, low: u64, high: u64, uid: &Text) -> bool
        ensures { IsTrue result ↔ SomewhereIn low high (λ place.
            IsSomeAnd (latest (map version_of self.now.versions) key.now place)
            (λ v. v.uid ≢ uid.now)) }
    {
        if low > high {
            return false;
        }
        let incarnations = self.incarnations(key);
        let begun = incarnations.partition_point(|incarnation| incarnation.first.get() <= high);
        if begun == 0 {
            return false;
        }
        let last = &incarnations[begun - 1];
        if !has_uid(last, uid) {
            return true;
        }
        begun > 1 && low < last.first.get()
    }

    /// The keys that have a version, in order.
    pub fn keys(&self) -> &[ObjectKey]
        ensures order { AreInOrder result.now }
        ensures exact { (key : ObjectKey)
            → Contains result.now key ↔ HasVersion self.now.versions key }
    {
        self.keys.as_slice()
    }

    /// The keys that have a version and that a list of this group, resource and namespace is about, in order. The empty
    /// namespace stands for all.
    pub fn scope(&self, group: &Text, resource: &Text, namespace: &Text) -> &[ObjectKey]
        ensures order { AreInOrder result.now }
        ensures exact { (key : ObjectKey) → Contains result.now key
            ↔ (HasVersion self.now.versions key
            × IsInScope group.now resource.now namespace.now key) }
    {
        keys_in(&self.keys, group, resource, namespace)
    }
}
