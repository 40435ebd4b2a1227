ghost use Rattle.std.specs.Prelude.{◌≡◌, ◌≤◌, ◌↔◌, ℕ, IsTrue, IfOk, IfSome, IfNone, Any, map};

use crate::filing::{Filed, all_filed};
use crate::places::{first_from, latest};
use crate::recorded::{Recorded, all_recorded, firsts_of, revisions_of};
use crate::span::{KeyRevision, OpaqueSpan};
use crate::unrecorded::reach;
use base_types::{ObjectKey, OutOfMemory, Revision};
use std::alloc::Global;
use std::collections::BTreeMap;
use std::marker::Model;
use std::snapshot::Snapshot;

/// What unrecorded writes hide. Contracts see the spans of these writes and the revisions of the recorded
/// ones as they were given.
#[derive(Drop)]
pub struct Clouds {
    filed: Filed,
    // Empty where no span is filed: nothing is looked up there.
    recorded: BTreeMap<ObjectKey, Recorded>,
    // For contracts alone: they take no memory.
    spans: Snapshot<Vec<Snapshot<OpaqueSpan>>>,
    revisions: Snapshot<Vec<Snapshot<KeyRevision>>>,
}

impl Model for Clouds {
    ghost use Rattle.std.specs.Prelude.{map};
    ghost use Rattle.clouds.specs.Writes.{Writes};

    ghost Value = { Writes };

    ghost use Rattle.clouds.specs.Filed.{AreWritesKept};

    ghost view = { λ c. record {
      spans = map (λ s. s.value) c.spans.value.items;
      revisions = map
          (λ r. r.value) c.revisions.value.items;
    } };

    ghost invariant = { λ c. AreWritesKept (record {
      spans = map (λ s. s.value) c.spans.value.items;
      revisions = map
          (λ r. r.value) c.revisions.value.items;
    })
        c.filed.named c.filed.wide c.recorded };
}

// Values that take no memory, each seen as the item that it was made of.
fn shown<T>(alloc: Global, items: &[T]) -> Result<Vec<Snapshot<T>>, OutOfMemory>
    ensures { IfOk result (λ shown. map (λ s. s.value) shown.items ≡ items.now) }
{
    let mut shown = Vec::new(alloc);
    for item in items {
        shown.push(Snapshot::of(item))?;
    }
    Ok(shown)
}

impl Clouds {
    ghost use Rattle.clouds.specs.Clouds.{IsClouded, MayBeUnrecorded};
    ghost use Rattle.clouds.specs.FirstPlace.{HoldsNowhere, IsLeastPlace};
    ghost use Rattle.clouds.specs.Hiding.{ReachesKey};

    /// Keeps the spans of the unrecorded writes, and the revisions of the recorded ones, in any order.
    pub fn build(
        alloc: Global,
        spans: &[OpaqueSpan],
        revisions: &[KeyRevision],
    ) -> Result<Clouds, OutOfMemory>
        ensures spans { IfOk result (λ clouds. clouds.spans ≡ spans.now) }
        ensures revisions { IfOk result (λ clouds. clouds.revisions ≡ revisions.now) }
    {
        let filed = all_filed(alloc, spans)?;
        let recorded = all_recorded(alloc, &filed, revisions)?;
        Ok(Clouds {
            filed,
            recorded,
            spans: Snapshot::of(&shown(alloc, spans)?),
            revisions: Snapshot::of(&shown(alloc, revisions)?),
        })
    }

    // Whether an unrecorded write of the key begins below the place and reaches the revision.
    fn reaches(&self, key: &ObjectKey, place: u64, revision: u64) -> bool
        ensures { IsTrue result ↔ Any (ReachesKey key.now place revision) self.now.spans }
    {
        reach(self.filed.named.get(key), key, place, revision)
            || self.filed.wide.reach(key, place, revision)
    }

    /// Whether nothing is known of the key's object at the place.
    pub fn clouded(&self, key: &ObjectKey, place: u64) -> bool
        ensures { IsTrue result ↔ IsClouded self.now key.now place }
    {
        if self.filed.is_empty() {
            return false;
        }
        let revisions = revisions_of(self.recorded.get(key));
        self.reaches(key, place, latest(revisions, place))
    }

    /// The least clouded place from `low` to `high`, both among them.
    pub fn meets(&self, key: &ObjectKey, low: u64, high: u64) -> Option<u64>
        ensures some { IfSome result (IsLeastPlace (IsClouded self.now key.now) low high) }
        ensures none { IfNone result (HoldsNowhere (IsClouded self.now key.now) low high) }
    {
        if self.filed.is_empty() {
            return None;
        }
        let recorded = self.recorded.get(key);
        let revisions = revisions_of(recorded);
        if let Some(place) = self.filed.first_hidden(key, revisions, low, high) {
            return Some(place);
        }
        first_from(firsts_of(recorded), low, high)
    }

    /// Whether an unrecorded write may have made this revision of the key.
    pub fn may_make(&self, key: &ObjectKey, revision: Revision) -> bool
        ensures { IsTrue result ↔ MayBeUnrecorded self.now key.now revision }
    {
        if self.filed.is_empty() {
            return false;
        }
        self.reaches(key, revision.get(), revision.get())
    }
}
