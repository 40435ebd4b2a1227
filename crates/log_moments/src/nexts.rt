ghost use Rattle.std.specs.Prelude.{◌≡◌, ◌≢◌, ◌<◌, AllPairs, All, IfOk, IfSome, IfNone, OnOk, Some, slice_get};
ghost use Rattle.std.specs.BTreeMap.{Updates, get};
ghost use Rattle.clouds.specs.Kept.{key_order};
ghost use Rattle.log_moments.specs.Nexts.{AreNexts};

use base_types::{ObjectKey, OutOfMemory, same_key};
use object_past::Version;
use std::alloc::Global;
use std::collections::BTreeMap;
use write_groups::Item;

// Puts a version in front, and tells where its key's next one is.
fn put_first(
    firsts: &mut BTreeMap<ObjectKey, usize>,
    key: &ObjectKey,
    position: usize,
) -> Result<Option<usize>, OutOfMemory>
    ensures next { IfOk result (λ next. next ≡ get key_order firsts.old key.now) }
    ensures put { OnOk result (Updates key_order firsts.old firsts.new key.now (Some position)) }
{
    let next = firsts.insert(key.clone()?, position)?;
    Ok(next)
}

/// By the versions' positions, the position of the next version of the key. The versions rise by revision.
pub fn nexts_of(alloc: Global, versions: &[Version]) -> Result<Vec<Option<usize>>, OutOfMemory>
    requires { AllPairs (λ a b. a.revision < b.revision) versions.now }
    ensures { IfOk result (λ nexts. AreNexts versions.now nexts.items) }
{
    let mut firsts: BTreeMap<ObjectKey, usize> = BTreeMap::new(alloc);
    let mut nexts = vec![in alloc; None; versions.len()]?;
    for i in (0..versions.len()).rev() {
        nexts[i] = put_first(&mut firsts, &versions[i].key, i)?;
    }
    Ok(nexts)
}

/// The position of the version that an answer shows, by its key and revision.
pub fn position_of(versions: &[Version], item: &Item) -> Option<usize>
    requires { AllPairs (λ a b. a.revision < b.revision) versions.now }
    ensures some { IfSome result (λ position. (v : _) × (slice_get versions.now position ≡ Some v)
        × (v.key ≡ item.now.key) × (v.revision ≡ item.now.revision)) }
    ensures none { IfNone result (All (λ v. v.key ≡ item.now.key
        → v.revision ≢ item.now.revision) versions.now) }
{
    let revision = item.revision.get();
    let upto = versions.partition_point(|version| version.revision.get() <= revision);
    if upto == 0 {
        return None;
    }
    let version = &versions[upto - 1];
    if version.revision.get() != revision {
        return None;
    }
    if !same_key(&version.key, &item.key) {
        return None;
    }
    Some(upto - 1)
}
