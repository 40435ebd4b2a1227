ghost use Rattle.std.specs.Prelude.{◌≡◌, ℕ, List, IfOk, OnOk, option_map};
ghost use Rattle.past_building.specs.Removals.{found_at, first_removal, gone_at, AreFirstRemovals, or_first};
ghost use Rattle.past_building.specs.Removals.{number_if};

use base_types::{ObjectKey, OutOfMemory, Text};
use hash_seed::{Seed, Seeded};
use std::alloc::Global;
use std::collections::{BTreeMap, HashMap};
use write_groups::{LogEvent, Shown};

/// The first removal of each uid of each key, by its event's number.
pub type Removed = HashMap<ObjectKey, BTreeMap<Text, u32>, Seeded>;

// The object that an event removed.
#[derive(Clone, Copy)]
struct Gone<'a> {
    key: &'a ObjectKey,
    uid: &'a Text,
}

fn gone_at(events: &[LogEvent], number: u32) -> Option<Gone<'_>>
    ensures { option_map (λ gone. (gone.key.now, gone.uid.now)) result ≡ gone_at events.now number }
{
    match &events.get(number as usize)?.answer {
        Shown::Removed { key, uid } => Some(Gone { key, uid }),
        _ => None,
    }
}

// Keeps the number, unless the key's uid has one.
fn add(
    alloc: Global,
    removed: &mut Removed,
    key: &ObjectKey,
    uid: &Text,
    number: u32,
) -> Result<(), OutOfMemory>
    ensures { OnOk result ((k : ObjectKey) (u : List ℕ)
        → found_at removed.new k u
        ≡ or_first (found_at removed.old k u) (number_if key.now uid.now number k u)) }
{
    match removed.get_mut(key) {
        Some(uids) => {
            if !uids.contains_key(uid) {
                let _none = uids.insert(uid.clone()?, number)?;
            }
            return Ok(());
        }
        None => {
            let mut uids = BTreeMap::new(alloc);
            let _none = uids.insert(uid.clone()?, number)?;
            let _none = removed.insert(key.clone()?, uids)?;
        }
    }
    Ok(())
}

/// The first removals in the order of judgement.
pub fn first_removals(
    alloc: Global,
    events: &[LogEvent],
    order: &[u32],
    seed: Seed,
) -> Result<Removed, OutOfMemory>
    ensures { IfOk result (AreFirstRemovals events.now order.now) }
{
    let mut removed = HashMap::with_hasher(alloc, Seeded::new(seed));
    for number in order {
        if let Some(gone) = gone_at(events, *number) {
            add(alloc, &mut removed, gone.key, gone.uid, *number)?;
        }
    }
    Ok(removed)
}

/// The number of the event that first removed the uid of the key.
pub fn first_removal(removed: &Removed, key: &ObjectKey, uid: &Text) -> Option<u32>
    ensures { result ≡ found_at removed.now key.now uid.now }
{
    removed.get(key)?.get(uid).copied()
}
