ghost use Rattle.std.specs.Prelude.{◌≡◌, ◌↔◌, IfOk, IfSome, IfNone, OnOk, IsTrue, Any, Contains, ◌⊎◌};
ghost use Rattle.std.specs.BTreeSet.{contains};
ghost use Rattle.base_types.specs.declared.kubernetes.key.ObjectKey.{ObjectKey as Key};
ghost use Rattle.clouds.specs.Kept.{key_order};
ghost use Rattle.object_past.specs.Scopes.{AreInOrder};
ghost use Rattle.log_context.specs.Keyed.{AreKeys, IsNamedBy};

use base_types::{ObjectKey, OutOfMemory, exact_key};
use object_past::Past;
use std::alloc::Global;
use std::collections::BTreeSet;
use write_groups::{LogEvent, Shown};

// The key that an unrecorded write names exactly.
fn named_key(alloc: Global, event: &LogEvent) -> Result<Option<ObjectKey>, OutOfMemory>
    ensures some { IfOk result (λ found. IfSome found (λ key. IsNamedBy key event.now)) }
    ensures none { IfOk result (λ found. IfNone found ((key : Key) → IsNamedBy key event.now → ⊥)) }
{
    match &event.answer {
        Shown::Opaque { cover } => exact_key(alloc, cover),
        _ => Ok(None),
    }
}

// Puts the keys that have a version behind those that are there.
fn add_keys(keys: &mut BTreeSet<ObjectKey>, more: &[ObjectKey]) -> Result<(), OutOfMemory>
    ensures { OnOk result ((key : Key) → IsTrue (contains key_order keys.new key)
        ↔ (IsTrue (contains key_order keys.old key) ⊎ Contains more.now key)) }
{
    for key in more {
        let _new = keys.insert(key.clone()?)?;
    }
    Ok(())
}

// Puts the keys that unrecorded writes name behind those that are there.
fn add_named(
    alloc: Global,
    keys: &mut BTreeSet<ObjectKey>,
    log: &[LogEvent],
) -> Result<(), OutOfMemory>
    ensures { OnOk result ((key : Key) → IsTrue (contains key_order keys.new key)
        ↔ (IsTrue (contains key_order keys.old key) ⊎ Any (IsNamedBy key) log.now)) }
{
    for event in log {
        if let Some(key) = named_key(alloc, event)? {
            let _new = keys.insert(key)?;
        }
    }
    Ok(())
}

// The keys of a set, in order.
fn listed(alloc: Global, keys: &BTreeSet<ObjectKey>) -> Result<Vec<ObjectKey>, OutOfMemory>
    ensures order { IfOk result (λ list. AreInOrder list.items) }
    ensures exact { IfOk result (λ list. (key : Key) → Contains list.items key
        ↔ IsTrue (contains key_order keys.now key)) }
{
    let mut list = Vec::with_capacity(alloc, keys.len())?;
    for key in keys.iter() {
        list.push(key.clone()?)?;
    }
    Ok(list)
}

/// The keys that have a version or that an unrecorded write names exactly, in order.
pub fn keys_of(alloc: Global, past: &Past, log: &[LogEvent]) -> Result<Vec<ObjectKey>, OutOfMemory>
    ensures { IfOk result (λ keys. AreKeys past.now.versions log.now keys.items) }
{
    let mut keys = BTreeSet::new(alloc);
    add_keys(&mut keys, past.keys())?;
    add_named(alloc, &mut keys, log)?;
    let list = listed(alloc, &keys)?;
    Ok(list)
}
