ghost use Rattle.std.specs.Prelude.{◌<◌, ◌^◌, ◌↔◌, List, length, Contains, IsSome, IfOk, OnOk};
ghost use Rattle.std.specs.BTreeMap.{get};
ghost use Rattle.base_types.specs.declared.kubernetes.key.ObjectKey.{ObjectKey};
ghost use Rattle.clouds.specs.Kept.{key_order};
ghost use Rattle.object_past.specs.Endings.{AreEndings, ByLast};
ghost use Rattle.object_past.specs.Indexed.{AreFound, ChangesAt, IsGrown};
ghost use Rattle.object_past.specs.Past.{AreEnds, AreRising};
ghost use Rattle.object_past.specs.Scopes.{AreInOrder};
ghost use Rattle.object_past.specs.declared.removal.Removal.{Removal};

use crate::ending::{Ending, ending_behind};
use crate::found::FoundByKey;
use crate::version::Version;
use base_types::{ObjectKey, OutOfMemory};
use std::alloc::Global;
use std::collections::BTreeMap;

pub type ByKey = BTreeMap<ObjectKey, FoundByKey>;

fn file(
    alloc: Global,
    by_key: &mut ByKey,
    position: u32,
    version: &Version,
    ending: Option<Ending>,
) -> Result<(), OutOfMemory>
    ensures { OnOk result
        (ChangesAt by_key.old by_key.new version.now.key (IsGrown position version.now ending)) }
{
    match by_key.get_mut(&version.key) {
        Some(found) => {
            found.add(position, version, ending)?;
            return Ok(());
        }
        None => {
            let mut found = FoundByKey::new(alloc);
            found.add(position, version, ending)?;
            let _none = by_key.insert(version.key.clone()?, found)?;
        }
    }
    Ok(())
}

/// All versions by their keys.
pub fn file_versions(
    alloc: Global,
    versions: &[Version],
    endings: &[Ending],
) -> Result<ByKey, OutOfMemory>
    requires rising { AreRising versions.now }
    requires count { length versions.now < 2 ^ 32 }
    requires endings { ByLast endings.now }
    ensures { IfOk result (λ by_key. (removals : List Removal) → AreEndings removals endings.now
        → AreEnds versions.now removals
        → AreFound versions.now removals by_key) }
{
    let mut by_key = BTreeMap::new(alloc);
    for (i, version) in versions.iter().enumerate() {
        let ending = ending_behind(endings, version.revision.get());
        file(alloc, &mut by_key, i as u32, version, ending)?;
    }
    Ok(by_key)
}

/// The keys in order.
pub fn keys_of(alloc: Global, by_key: &ByKey) -> Result<Vec<ObjectKey>, OutOfMemory>
    ensures order { IfOk result (λ keys. AreInOrder keys.items) }
    ensures exact { IfOk result (λ keys. (key : ObjectKey) → Contains keys.items key
        ↔ IsSome (get key_order by_key.now key)) }
{
    let mut keys = Vec::with_capacity(alloc, by_key.len())?;
    for key in by_key.keys() {
        keys.push(key.clone()?)?;
    }
    Ok(keys)
}
