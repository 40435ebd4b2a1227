ghost use Rattle.std.specs.Prelude.{◌≡◌, ◌≢◌, ◌<◌, ◌≤◌, [], ◌∷◌, Some, IfOk, IfSome, IfNone, OnOk, List, Contains};
ghost use Rattle.std.specs.Prelude.{true, false, length, nat_le};
ghost use Rattle.std.specs.List.Sorted.{IsNonDecreasingBy, IsPartitionPoint, IsPermutation};
ghost use Rattle.std.specs.BTreeMap.{Updates};
ghost use Rattle.clouds.specs.Items.{AddsAt};
ghost use Rattle.clouds.specs.Kept.{key_order};

use crate::first::last_before;
use crate::kind::{is_cluster_binding, kind_of_key, role_key};
use crate::version::{RbacContent, RbacEnd, RbacVersion, RbacVersions};
use base_types::{ObjectKey, OutOfMemory};
use rbac_rules::{Binding, PolicyRules};
use std::alloc::Global;
use std::collections::BTreeMap;
use std::marker::Model;

/// What a version holds, by the kind of its key.
#[derive(Drop)]
pub enum Content {
    Rules(PolicyRules),
    /// With the key of the role that the binding names.
    Bound(Binding, ObjectKey),
    Unreadable,
}

impl Content {
    /// The role that a binding names.
    pub fn role(&self) -> Option<&ObjectKey>
        ensures { IfSome result (λ role. (binding : Binding)
            × (self.now ≡ Content.Bound binding role.now)) }
    {
        match self {
            Content::Bound(_, role) => Some(role),
            Content::Rules(_) | Content::Unreadable => None,
        }
    }
}

/// A version of one key.
#[derive(Drop)]
pub struct Stored {
    pub revision: u64,
    pub content: Content,
}

/// A removal of one key's object, whose last version has the revision `last`.
#[derive(Clone, Copy)]
pub struct Gap {
    pub last: u64,
    pub low: u64,
    pub high: u64,
}

ghost use Rattle.rbac_timeline.specs.Kinds.{role_key};
ghost use Rattle.rbac_timeline.specs.Kept.{AreGaps, AreStored, content_of, gap_of, stored_of};
ghost use Rattle.rbac_timeline.specs.Lasting.{IsLast};
ghost use Rattle.rbac_timeline.specs.Pairs.{AreStoredBetween};

// How many of them are at or below a place.
fn count_upto(all: &[Stored], place: u64) -> usize
    requires { IsNonDecreasingBy (λ s. s.revision) all.now }
    ensures bound { result ≤ length all.now }
    ensures parts { IsPartitionPoint (λ s. nat_le s.revision place ≡ true)
        (λ s. nat_le s.revision place ≡ false) all.now result }
{
    all.partition_point(|stored| stored.revision <= place)
}

// Those above `low` and not above `high`.
fn between(all: &[Stored], low: u64, high: u64) -> &[Stored]
    requires { IsNonDecreasingBy (λ s. s.revision) all.now }
    ensures { AreStoredBetween all.now low high result.now }
{
    let upto = count_upto(all, high);
    let (front, _) = all.split_at(upto);
    let begun = count_upto(front, low);
    let (_, between) = front.split_at(begun);
    between
}

/// The versions of one key, by revision.
#[derive(Drop)]
pub struct History {
    stored: Vec<Stored>,
}

impl Model for History {
    ghost use Rattle.std.specs.Prelude.{List};
    ghost use Rattle.std.specs.List.Sorted.{IsNonDecreasingBy};
    ghost use Rattle.rbac_timeline.specs.declared.history.Stored.{Stored};

    ghost Value = { List Stored };

    ghost view = { λ h. h.stored.items };

    ghost invariant = { λ h. IsNonDecreasingBy (λ s. s.revision) h.stored.items };
}

impl History {
    ghost use Rattle.rbac_timeline.specs.declared.history.Stored.{Stored};
    ghost use Rattle.rbac_timeline.specs.Kept.{IsLatestStored};

    fn of(alloc: Global, stored: Stored) -> Result<History, OutOfMemory>
        ensures { IfOk result (λ history. history ≡ stored ∷ []) }
    {
        let mut all = Vec::new(alloc);
        all.push(stored)?;
        Ok(History { stored: all })
    }

    fn add(&mut self, stored: Stored) -> Result<(), OutOfMemory>
        ensures { OnOk result (IsPermutation (stored ∷ self.old) self.new) }
    {
        let revision = stored.revision;
        let place = count_upto(self.stored.as_slice(), revision);
        self.stored.insert(place, stored)?;
        Ok(())
    }

    /// The latest version at or below a place.
    pub fn latest(&self, place: u64) -> Option<&Stored>
        ensures some { IfSome result (λ stored. IsLatestStored self.now place stored.now) }
        ensures none { IfNone result ((stored : Stored) → Contains self.now stored
            → place < stored.revision) }
    {
        let upto = count_upto(self.stored.as_slice(), place);
        if upto == 0 {
            return None;
        }
        Some(&self.stored[upto - 1])
    }

    /// The last place up to which no version begins behind this one.
    pub fn unbegun_until(&self, place: u64, high: u64) -> u64
        requires { place ≤ high }
        ensures { IsLast (λ n. (stored : Stored) → Contains self.now stored
            → place < stored.revision
            → n < stored.revision) place high result }
    {
        let upto = count_upto(self.stored.as_slice(), place);
        if upto == self.stored.len() {
            return high;
        }
        last_before(self.stored[upto].revision, place, high)
    }

    /// The versions above `low` and not above `high`.
    pub fn between(&self, low: u64, high: u64) -> &[Stored]
        ensures { AreStoredBetween self.now low high result.now }
    {
        between(self.stored.as_slice(), low, high)
    }
}

// How many of them are of versions up to this one.
fn gaps_upto(all: &[Gap], last: u64) -> usize
    requires { IsNonDecreasingBy (λ gap. gap.last) all.now }
    ensures bound { result ≤ length all.now }
    ensures parts { IsPartitionPoint (λ gap. nat_le gap.last last ≡ true)
        (λ gap. nat_le gap.last last ≡ false) all.now result }
{
    all.partition_point(|gap| gap.last <= last)
}

/// The removals of one key's object, by their last versions.
#[derive(Drop)]
pub struct Gaps {
    gaps: Vec<Gap>,
}

impl Model for Gaps {
    ghost use Rattle.std.specs.Prelude.{List};
    ghost use Rattle.std.specs.List.Sorted.{IsNonDecreasingBy};
    ghost use Rattle.rbac_timeline.specs.declared.history.Gap.{Gap};

    ghost Value = { List Gap };

    ghost view = { λ g. g.gaps.items };

    ghost invariant = { λ g. IsNonDecreasingBy (λ gap. gap.last) g.gaps.items };
}

impl Gaps {
    ghost use Rattle.rbac_timeline.specs.declared.history.Gap.{Gap};

    fn of(alloc: Global, gap: Gap) -> Result<Gaps, OutOfMemory>
        ensures { IfOk result (λ gaps. gaps ≡ gap ∷ []) }
    {
        let mut gaps = Vec::new(alloc);
        gaps.push(gap)?;
        Ok(Gaps { gaps })
    }

    fn add(&mut self, gap: Gap) -> Result<(), OutOfMemory>
        ensures { OnOk result (IsPermutation (gap ∷ self.old) self.new) }
    {
        let place = gaps_upto(self.gaps.as_slice(), gap.last);
        self.gaps.insert(place, gap)?;
        Ok(())
    }

    /// The removal behind the version with this revision.
    pub fn behind(&self, last: u64) -> Option<Gap>
        ensures some { IfSome result (Contains self.now) }
        ensures last { IfSome result (λ gap. gap.last ≡ last) }
        ensures none { IfNone result ((gap : Gap) → Contains self.now gap → gap.last ≢ last) }
    {
        let upto = gaps_upto(self.gaps.as_slice(), last);
        if upto == 0 {
            return None;
        }
        let gap = self.gaps[upto - 1];
        if gap.last != last {
            return None;
        }
        Some(gap)
    }
}

pub type Histories = BTreeMap<ObjectKey, History>;

pub type Removals = BTreeMap<ObjectKey, Gaps>;

// A binding with the key of its role.
fn bound_of(alloc: Global, key: &ObjectKey, binding: Binding) -> Result<Content, OutOfMemory>
    ensures { IfOk result (λ made. made ≡ Content.Bound binding (role_key key.now binding)) }
{
    let Ok(role) = role_key(alloc, key, &binding) else {
        drop(binding);
        return Err(OutOfMemory);
    };
    Ok(Content::Bound(binding, role))
}

fn content_of(alloc: Global, key: &ObjectKey, content: RbacContent) -> Result<Content, OutOfMemory>
    ensures { IfOk result (λ made. made ≡ content_of key.now content) }
{
    match content {
        RbacContent::Role(rules) => Ok(Content::Rules(rules)),
        RbacContent::Bound(binding) => {
            if is_cluster_binding(kind_of_key(key)) && !binding.role_is_cluster {
                drop(binding);
                return Ok(Content::Unreadable);
            }
            bound_of(alloc, key, binding)
        }
        RbacContent::Unreadable => Ok(Content::Unreadable),
    }
}

// The first version of a key.
fn begin_stored(
    alloc: Global,
    histories: &mut Histories,
    key: ObjectKey,
    stored: Stored,
) -> Result<(), OutOfMemory>
    ensures { OnOk result (Updates key_order histories.old histories.new key (Some (stored ∷ []))) }
{
    let Ok(made) = History::of(alloc, stored) else {
        drop(key);
        return Err(OutOfMemory);
    };
    drop(histories.insert(key, made)?);
    Ok(())
}

fn add_stored(
    alloc: Global,
    histories: &mut Histories,
    key: ObjectKey,
    stored: Stored,
) -> Result<(), OutOfMemory>
    ensures { OnOk result (AddsAt key_order histories.old histories.new key stored) }
{
    match histories.get_mut(&key) {
        Some(history) => {
            drop(key);
            history.add(stored)?;
            return Ok(());
        }
        None => begin_stored(alloc, histories, key, stored)?,
    }
    Ok(())
}

fn add_version(
    alloc: Global,
    histories: &mut Histories,
    version: RbacVersion,
) -> Result<(), OutOfMemory>
    ensures { OnOk result (AddsAt key_order histories.old histories.new version.key
        (stored_of version)) }
{
    let RbacVersion {
        key,
        revision,
        content,
    } = version;
    let Ok(content) = content_of(alloc, &key, content) else {
        drop(key);
        return Err(OutOfMemory);
    };
    let stored = Stored {
        revision: revision.get(),
        content,
    };
    add_stored(alloc, histories, key, stored)
}

/// The versions of each key.
pub fn histories_of(alloc: Global, versions: RbacVersions) -> Result<Histories, OutOfMemory>
    ensures { IfOk result (λ histories. AreStored histories versions) }
{
    let mut histories = BTreeMap::new(alloc);
    for version in versions.into_vec() {
        add_version(alloc, &mut histories, version)?;
    }
    Ok(histories)
}

// The first removal of a key's object.
fn begin_gaps(
    alloc: Global,
    removals: &mut Removals,
    key: &ObjectKey,
    gap: Gap,
) -> Result<(), OutOfMemory>
    ensures { OnOk result (Updates key_order removals.old removals.new key.now (Some (gap ∷ []))) }
{
    let made = Gaps::of(alloc, gap)?;
    let Ok(copy) = key.clone() else {
        drop(made);
        return Err(OutOfMemory);
    };
    drop(removals.insert(copy, made)?);
    Ok(())
}

fn add_end(alloc: Global, removals: &mut Removals, end: &RbacEnd) -> Result<(), OutOfMemory>
    ensures { OnOk result (AddsAt key_order removals.old removals.new end.now.key
        (gap_of end.now)) }
{
    let gap = Gap {
        last: end.last.get(),
        low: end.low,
        high: end.high,
    };
    match removals.get_mut(&end.key) {
        Some(gaps) => {
            gaps.add(gap)?;
            return Ok(());
        }
        None => begin_gaps(alloc, removals, &end.key, gap)?,
    }
    Ok(())
}

/// The removals of each key's object.
pub fn removals_of(alloc: Global, ends: &[RbacEnd]) -> Result<Removals, OutOfMemory>
    ensures { IfOk result (λ removals. AreGaps removals ends.now) }
{
    let mut removals = BTreeMap::new(alloc);
    for end in ends {
        add_end(alloc, &mut removals, end)?;
    }
    Ok(removals)
}
