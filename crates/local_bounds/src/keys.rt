ghost use Rattle.std.specs.Prelude.{◌≡◌, ◌≢◌, IfOk, IfSome, IfNone, AllPairs, map};
ghost use Rattle.local_bounds.specs.Keys.{AreKeysOf};
ghost use Rattle.object_past.specs.Among.{keys_at};

use base_types::{ObjectKey, OutOfMemory};
use object_past::keys_in_order;
use std::alloc::Global;
use write_groups::Item;

fn keys_of(alloc: Global, items: &[Item]) -> Result<Vec<&ObjectKey>, OutOfMemory>
    ensures { IfOk result (λ keys. keys_at keys.items ≡ map (λ item. item.key) items.now) }
{
    let mut keys = Vec::with_capacity(alloc, items.len())?;
    for item in items {
        keys.push(&item.key)?;
    }
    Ok(keys)
}

/// The keys of the items in order; None where two items have one key.
pub fn distinct_keys(alloc: Global, items: &[Item]) -> Result<Option<Vec<&ObjectKey>>, OutOfMemory>
    ensures some { IfOk result
        (λ found. IfSome found (λ keys. AllPairs (λ a b. a.key ≢ b.key) items.now
        × AreKeysOf items.now keys.items)) }
    ensures none { IfOk result
        (λ found. IfNone found (AllPairs (λ a b. a.key ≢ b.key) items.now → ⊥)) }
{
    let keys = keys_of(alloc, items)?;
    Ok(keys_in_order(keys))
}
