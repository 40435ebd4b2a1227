ghost use Rattle.std.specs.Prelude.{◌≡◌, ◌≢◌, IfOk, IfSome, IfNone, AllPairs, map};
ghost use Rattle.object_past.specs.Among.{keys_at};
ghost use Rattle.serial_machine.specs.Listed.{AreShown, AreUnshown};

use base_types::{ObjectKey, OutOfMemory};
use object_past::{Past, keys_in_order, keys_without};
use std::alloc::Global;
use write_groups::{Item, Listing};

fn keys_of(alloc: Global, items: &[Item]) -> Result<Vec<&ObjectKey>, OutOfMemory>
    ensures { IfOk result (λ keys. keys_at keys.items ≡ map (λ item. item.key) items.now) }
{
    let mut keys = Vec::with_capacity(alloc, items.len())?;
    for item in items {
        keys.push(&item.key)?;
    }
    Ok(keys)
}

/// The keys of the items in order; None where two items have one key.
pub fn shown_keys(alloc: Global, items: &[Item]) -> Result<Option<Vec<&ObjectKey>>, OutOfMemory>
    ensures some { IfOk result (λ found. IfSome found
        (λ shown. AllPairs (λ a b. a.key ≢ b.key) items.now × AreShown items.now shown.items)) }
    ensures none { IfOk result (λ found. IfNone found (AllPairs (λ a b. a.key ≢ b.key) items.now
        → ⊥)) }
{
    let keys = keys_of(alloc, items)?;
    Ok(keys_in_order(keys))
}

/// The keys that the list is about and doesn't show, of those that ever had an object.
pub fn unshown_keys<'a>(
    alloc: Global,
    past: &'a Past,
    listing: &Listing,
    shown: &[&ObjectKey],
) -> Result<Vec<&'a ObjectKey>, OutOfMemory>
    requires { AreShown listing.now.items shown.now }
    ensures { IfOk result (λ keys. AreUnshown past.now listing.now keys.items) }
{
    let scope = past.scope(&listing.group, &listing.resource, &listing.namespace);
    keys_without(alloc, scope, shown)
}
