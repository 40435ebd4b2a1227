ghost use Rattle.std.specs.Prelude.{◌≡◌, ◌⊎◌, ◌∷◌, [], List, IfOk, OnOk, Contains, map};
ghost use Rattle.std.specs.List.Sorted.{IsNonDecreasing, IsPermutation};
ghost use Rattle.std.specs.Option.{option_copied};
ghost use Rattle.base_types.specs.declared.kubernetes.key.ObjectKey.{ObjectKey};
ghost use Rattle.clouds.specs.declared.span.OpaqueSpan.{OpaqueSpan};
ghost use Rattle.clouds.specs.Filed.{AreFiled, AreRecorded, IsNoneFiled};
ghost use Rattle.clouds.specs.FirstClouded.{AreFirstClouded};
ghost use Rattle.clouds.specs.Kept.{key_order};
ghost use Rattle.clouds.specs.Recorded.{Adds, AddsFirst, AreSame, firsts_at, firsts_in};
ghost use Rattle.clouds.specs.Recorded.{revisions_at, revisions_in};

use crate::filing::Filed;
use crate::places::Places;
use crate::span::KeyRevision;
use base_types::{ObjectKey, OutOfMemory};
use std::alloc::Global;
use std::collections::BTreeMap;

/// What is kept of one key's recorded writes.
#[derive(Drop)]
pub struct Recorded {
    pub revisions: Places,
    /// For each revision the first clouded place at or behind it, if that comes before the next revision.
    pub first_clouded: Places,
}

/// A key's revisions in order, none where nothing is kept of the key.
pub fn revisions_of(recorded: Option<&Recorded>) -> &[u64]
    ensures order { IsNonDecreasing result.now }
    ensures revisions { result.now ≡ revisions_in (option_copied recorded.entry) }
{
    match recorded {
        Some(recorded) => recorded.revisions.as_slice(),
        None => &[],
    }
}

/// The first clouded places at or behind them in order, none where nothing is kept of the key.
pub fn firsts_of(recorded: Option<&Recorded>) -> &[u64]
    ensures order { IsNonDecreasing result.now }
    ensures firsts { result.now ≡ firsts_in (option_copied recorded.entry) }
{
    match recorded {
        Some(recorded) => recorded.first_clouded.as_slice(),
        None => &[],
    }
}

fn add_revision(
    alloc: Global,
    recorded: &mut BTreeMap<ObjectKey, Recorded>,
    write: &KeyRevision,
) -> Result<(), OutOfMemory>
    ensures revisions { OnOk result (Adds key_order (revisions_at recorded.old)
        (revisions_at recorded.new) write.now.key write.now.revision) }
    ensures firsts { OnOk result (AreSame (firsts_at recorded.old) (firsts_at recorded.new)) }
{
    let revision = write.revision.get();
    match recorded.get_mut(&write.key) {
        Some(held) => {
            held.revisions.add(revision)?;
            return Ok(());
        }
        None => {
            let made = Recorded {
                revisions: Places::of(alloc, revision)?,
                first_clouded: Places::new(alloc),
            };
            let _none = recorded.insert(write.key.clone()?, made)?;
        }
    }
    Ok(())
}

fn by_revision(alloc: Global, writes: &[KeyRevision]) -> Result<Vec<&KeyRevision>, OutOfMemory>
    ensures { IfOk result (λ order. IsPermutation writes.now
        (map (λ write. write.now) order.items)) }
{
    let mut order: Vec<&KeyRevision> = writes.iter().collect(alloc)?;
    order.sort_by_key(|write| write.revision.get())?;
    Ok(order)
}

fn record_each(
    alloc: Global,
    writes: &[&KeyRevision],
) -> Result<BTreeMap<ObjectKey, Recorded>, OutOfMemory>
    ensures revisions { IfOk result (λ recorded. AreRecorded (revisions_at recorded)
        (map (λ write. write.now) writes.now)) }
    ensures firsts { IfOk result (λ recorded. (key : ObjectKey) → firsts_at recorded key ≡ []) }
{
    let mut recorded = BTreeMap::new(alloc);
    for write in writes {
        add_revision(alloc, &mut recorded, write)?;
    }
    Ok(recorded)
}

// Keeps the first place at or behind a recorded write that is hidden, unless another write of its key comes
// before it.
fn add_first(
    filed: &Filed,
    recorded: &mut BTreeMap<ObjectKey, Recorded>,
    write: &KeyRevision,
) -> Result<(), OutOfMemory>
    requires { Contains (revisions_at recorded.now write.now.key) write.now.revision }
    ensures revisions { OnOk result (AreSame (revisions_at recorded.old)
        (revisions_at recorded.new)) }
    ensures firsts { OnOk result ((spans : List OpaqueSpan)
        → AreFiled filed.now.named filed.now.wide spans
        → AddsFirst spans (revisions_at recorded.old write.now.key) (firsts_at recorded.old)
        (firsts_at recorded.new)
        write.now.key write.now.revision) }
{
    let Some(held) = recorded.get_mut(&write.key) else {
        return Ok(());
    };
    let revisions = held.revisions.as_slice();
    let first = filed.first_hidden(&write.key, revisions, write.revision.get(), u64::MAX);
    if let Some(place) = first {
        held.first_clouded.add(place)?;
    }
    Ok(())
}

fn add_each_first(
    filed: &Filed,
    recorded: &mut BTreeMap<ObjectKey, Recorded>,
    writes: &[&KeyRevision],
) -> Result<(), OutOfMemory>
    requires revisions { AreRecorded (revisions_at recorded.now)
        (map (λ write. write.now) writes.now) }
    requires firsts { (key : ObjectKey) → firsts_at recorded.now key ≡ [] }
    ensures revisions { OnOk result (AreSame (revisions_at recorded.old)
        (revisions_at recorded.new)) }
    ensures firsts { OnOk result ((spans : List OpaqueSpan)
        → AreFiled filed.now.named filed.now.wide spans
        → (key : ObjectKey) → AreFirstClouded
        (record { spans = spans; revisions = map (λ write. write.now) writes.now })
        key (firsts_at recorded.new key)) }
{
    for write in writes {
        add_first(filed, recorded, write)?;
    }
    Ok(())
}

/// Keeps each key's revisions, and the first clouded places behind them. Where no span is filed nothing is kept.
pub fn all_recorded(
    alloc: Global,
    filed: &Filed,
    writes: &[KeyRevision],
) -> Result<BTreeMap<ObjectKey, Recorded>, OutOfMemory>
    ensures revisions { IfOk result (λ recorded. IsNoneFiled filed.now.named filed.now.wide
        ⊎ AreRecorded (revisions_at recorded) writes.now) }
    ensures firsts { IfOk result (λ recorded. IsNoneFiled filed.now.named filed.now.wide
        ⊎ ((spans : List OpaqueSpan) → AreFiled filed.now.named filed.now.wide spans
        → (key : ObjectKey) → AreFirstClouded
        (record { spans = spans; revisions = writes.now }) key (firsts_at recorded key))) }
{
    if filed.is_empty() {
        return Ok(BTreeMap::new(alloc));
    }
    let order = by_revision(alloc, writes)?;
    let mut recorded = record_each(alloc, &order)?;
    add_each_first(filed, &mut recorded, &order)?;
    Ok(recorded)
}
