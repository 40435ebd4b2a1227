ghost use Rattle.std.specs.Prelude.{◌≡◌, ◌<◌, ◌++◌, ◌∷◌, [], ◌↔◌, not, true, IfOk, OnOk, IsTrue, All, AllPairs};
ghost use Rattle.std.specs.Prelude.{Any, Some, option_map, slice_get};
ghost use Rattle.std.specs.HashMap.{get, Updates as UpdatesMap};
ghost use Rattle.std.specs.HashSet.{contains, Updates};
ghost use Rattle.past_building.specs.Growing.{AddsUid, AreFlagged, AreLinked, AreVersionsKept};
ghost use Rattle.past_building.specs.Growing.{IsContinued, IsLastAt, IsLatestIn};
ghost use Rattle.past_building.specs.Keyed.{key_eq};
ghost use Rattle.past_building.specs.Owners.{owner_eq, owner_of};

use crate::owner::{Owner, owned};
use base_types::{ObjectKey, OutOfMemory, Text};
use hash_seed::{Seed, Seeded};
use object_past::{Version, Versions};
use std::alloc::Global;
use std::collections::{HashMap, HashSet};
use std::marker::Model;

// Positions of versions by their keys.
type Positions = HashMap<ObjectKey, usize, Seeded>;

/// What is known of the keys and uids of versions. The hashes begin with a seed, since whoever creates objects chooses
/// their names.
struct Index {
    // Of each version, whether its incarnation is the first of its key with its uid.
    firsts: Vec<bool>,
    // Of each version, the position of its key's version before it.
    earlier: Vec<Option<usize>>,
    // The position of each key's latest version.
    last: Positions,
    owners: HashSet<Owner, Seeded>,
    uids: HashSet<Text, Seeded>,
}

// Written out, so that a function that lets an index go has one call and not the steps of each field.
impl Drop for Index {
    fn drop(self) {
        let Index {
            firsts: _,
            earlier: _,
            last: _,
            owners: _,
            uids: _,
        } = self;
    }
}

/// The versions up to some revision, with what is known of their keys and uids. Contracts see the versions.
pub struct Grown {
    versions: Versions,
    index: Index,
}

// Written out for the same reason.
impl Drop for Grown {
    fn drop(self) {
        let Grown {
            versions: _,
            index: _,
        } = self;
    }
}

impl Model for Grown {
    ghost use Rattle.std.specs.Prelude.{List};
    ghost use Rattle.object_past.specs.declared.version.Version.{Version};

    ghost Value = { List Version };

    ghost use Rattle.past_building.specs.Growing.{AreVersionsKept};

    ghost view = { λ g. g.versions };

    ghost invariant = { λ g. AreVersionsKept g.versions g.index.firsts.items g.index.earlier.items
        g.index.last g.index.owners g.index.uids };
}

/// The latest version of a key, and whether its incarnation is the first of the key with its uid.
#[derive(Clone, Copy)]
pub struct Latest<'a> {
    pub version: &'a Version,
    pub is_first: bool,
}

fn version_at(versions: &[Version], position: usize) -> Option<&Version>
    ensures { option_map (λ version. version.now) result ≡ slice_get versions.now position }
{
    versions.get(position)
}

fn flag_at(firsts: &[bool], position: usize) -> Option<bool>
    ensures { result ≡ slice_get firsts.now position }
{
    firsts.get(position).copied()
}

// Whether a version's incarnation is the first of its key with its uid, where it continues the key's latest version,
// whose position is this one.
fn continued(
    versions: &[Version],
    firsts: &[bool],
    version: &Version,
    before: Option<usize>,
) -> Option<bool>
    requires rising { AllPairs (λ a b. a.revision < b.revision) versions.now }
    requires flagged { AreFlagged versions.now firsts.now }
    requires last { IsLastAt versions.now version.now.key before }
    ensures { IsContinued versions.now version.now result }
{
    let position = before?;
    let latest = version_at(versions, position)?;
    if latest.uid != version.uid {
        return None;
    }
    flag_at(firsts, position)
}

// Keeps that the key had the uid, and tells whether it hadn't before.
fn add_owner(owners: &mut HashSet<Owner, Seeded>, version: &Version) -> Result<bool, OutOfMemory>
    ensures added { IfOk result (λ added. added
        ≡ not (contains owner_eq owners.old (owner_of version.now))) }
    ensures put { OnOk result (Updates owner_eq owners.old owners.new (owner_of version.now) true) }
{
    let owner = owned(&version.key, &version.uid)?;
    Ok(owners.insert(owner)?)
}

// Keeps that a version has the uid. It is new nearly always, so it isn't looked for before it is copied.
fn add_uid(uids: &mut HashSet<Text, Seeded>, uid: &Text) -> Result<(), OutOfMemory>
    ensures { OnOk result (AddsUid uids.old uids.new uid.now) }
{
    let _added = uids.insert(uid.clone()?)?;
    Ok(())
}

// Puts the key's latest version, and tells where the one before it is. The key is copied only where it wasn't there.
fn put_last(
    last: &mut Positions,
    key: &ObjectKey,
    position: usize,
) -> Result<Option<usize>, OutOfMemory>
    ensures before { IfOk result (λ before. before ≡ get key_eq last.old key.now) }
    ensures put { OnOk result (UpdatesMap key_eq last.old last.new key.now (Some position)) }
{
    match last.get_mut(key) {
        Some(held) => {
            let before = *held;
            *held = position;
            return Ok(Some(before));
        }
        None => {
            let _none = last.insert(key.clone()?, position)?;
        }
    }
    Ok(None)
}

impl Index {
    // Takes the version behind these. Where it continues its key's latest one, an earlier version has its uid.
    fn add(&mut self, versions: &[Version], version: &Version) -> Result<(), OutOfMemory>
        requires kept { AreVersionsKept versions.now self.old.firsts.items self.old.earlier.items
            self.old.last self.old.owners self.old.uids }
        requires above { All (λ v. v.revision < version.now.revision) versions.now }
        ensures { OnOk result (AreVersionsKept (versions.now ++ version.now ∷ []) self.new.firsts.items
            self.new.earlier.items self.new.last self.new.owners self.new.uids) }
    {
        let before = put_last(&mut self.last, &version.key, versions.len())?;
        let is_first = match continued(versions, &self.firsts, version, before) {
            Some(is_first) => is_first,
            None => {
                add_uid(&mut self.uids, &version.uid)?;
                add_owner(&mut self.owners, version)?
            }
        };
        self.firsts.push(is_first)?;
        self.earlier.push(before)?;
        Ok(())
    }

    fn into_lists(self) -> (Vec<bool>, Vec<Option<usize>>)
        ensures firsts { result.0 ≡ self.firsts }
        ensures earlier { result.1 ≡ self.earlier }
    {
        let Index {
            firsts,
            earlier,
            last: _,
            owners: _,
            uids: _,
        } = self;
        (firsts, earlier)
    }
}

// Puts the version behind these.
fn add(versions: &mut Versions, index: &mut Index, version: Version) -> Result<(), OutOfMemory>
    requires kept { AreVersionsKept versions.old index.old.firsts.items index.old.earlier.items
        index.old.last index.old.owners index.old.uids }
    requires above { All (λ v. v.revision < version.revision) versions.old }
    ensures versions { OnOk result (versions.new ≡ versions.old ++ version ∷ []) }
    ensures kept { OnOk result (AreVersionsKept versions.new index.new.firsts.items
        index.new.earlier.items index.new.last index.new.owners index.new.uids) }
{
    index.add(versions.as_slice(), &version)?;
    versions.push(version)
}

impl Grown {
    /// No versions yet, and room for so many.
    pub fn new(alloc: Global, room: usize, seed: Seed) -> Result<Grown, OutOfMemory>
        ensures { IfOk result (λ grown. grown ≡ []) }
    {
        let seeded = Seeded::new(seed);
        let versions = Versions::from_vec(Vec::with_capacity(alloc, room)?);
        let firsts = Vec::with_capacity(alloc, room)?;
        let earlier = Vec::with_capacity(alloc, room)?;
        Ok(Grown {
            versions,
            index: Index {
                firsts,
                earlier,
                last: HashMap::with_hasher(alloc, seeded),
                owners: HashSet::with_hasher(alloc, seeded),
                uids: HashSet::with_hasher(alloc, seeded),
            },
        })
    }

    /// The key's latest version.
    pub fn latest(&self, key: &ObjectKey) -> Option<Latest<'_>>
        ensures latest { IsLatestIn self.now key.now result }
        ensures rising { AllPairs (λ a b. a.revision < b.revision) self.now }
    {
        let position = *self.index.last.get(key)?;
        let version = version_at(self.versions.as_slice(), position)?;
        let is_first = flag_at(&self.index.firsts, position)?;
        Some(Latest { version, is_first })
    }

    /// Whether a version has the uid.
    pub fn is_used(&self, uid: &Text) -> bool
        ensures { IsTrue result ↔ Any (λ v. v.uid ≡ uid.now) self.now }
    {
        self.index.uids.contains(uid)
    }

    /// Takes a version whose revision is above those of the others.
    pub fn with(self, version: Version) -> Result<Grown, OutOfMemory>
        requires above { All (λ v. v.revision < version.revision) self }
        ensures { IfOk result (λ grown. grown ≡ self ++ version ∷ []) }
    {
        let Grown {
            mut versions,
            mut index,
        } = self;
        add(&mut versions, &mut index, version)?;
        Ok(Grown { versions, index })
    }

    /// The versions, of each whether its incarnation is the first of its key with its uid, and of each the position of
    /// its key's version before it.
    pub fn into_parts(self) -> (Versions, Vec<bool>, Vec<Option<usize>>)
        ensures versions { result.0 ≡ self }
        ensures rising { AllPairs (λ a b. a.revision < b.revision) self }
        ensures firsts { AreFlagged self result.1.items }
        ensures earlier { AreLinked self result.2.items }
    {
        let Grown { versions, index } = self;
        let (firsts, earlier) = index.into_lists();
        (versions, firsts, earlier)
    }
}
