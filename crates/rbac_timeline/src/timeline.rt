ghost use Rattle.std.specs.Prelude.{◌≡◌, ◌↔◌, IsTrue, IfOk, IfSome, IfNone, Contains, []};
ghost use Rattle.std.specs.Prelude.{◌<◌, ◌≤◌, ℕ, None};
ghost use Rattle.std.specs.BTreeMap.{get};
ghost use Rattle.std.specs.Ordering.{nat_cmp};
ghost use Rattle.clouds.specs.Kept.{key_order};
ghost use Rattle.clouds.specs.FirstPlace.{IsFirstPlace};
ghost use Rattle.rbac_timeline.specs.Known.{writes_of};

mod finding;
pub(crate) mod granting;
mod lasting;

use crate::free_bindings::FreeBindings;
use crate::history::{Gap, Histories, Removals, Stored};
use crate::index::Index;
use crate::lookups::Lookups;
use crate::nameless::Nameless;
use crate::pairs::Firsts;
use crate::parts::{Parts, all_parts};
use crate::reign_index::ReignIndex;
use crate::reigns::Reigns;
use crate::unsure::Unsure;
use crate::version::{RbacEnds, RbacVersions};
use crate::way::Way;
use base_types::{ObjectKey, OutOfMemory, RequestAttrs, Text, Texts};
use clouds::{Clouds, OpaqueSpans};
use rbac_rules::Subject;
use std::alloc::Global;
use std::collections::BTreeMap;
use std::marker::Model;
use std::snapshot::Snapshot;

/// Roles and bindings at each place of a history. Contracts see what it was built of.
#[derive(Drop)]
pub struct Timeline {
    histories: Histories,
    removals: Removals,
    clouds: Clouds,
    index: Index,
    nameless: Nameless,
    unsure: Unsure,
    reigns: ReignIndex,
    bypass: Texts,
    // For what a search remembers.
    alloc: Global,
    // For contracts alone: they take no memory.
    versions: Snapshot<RbacVersions>,
    ends: Snapshot<RbacEnds>,
    spans: Snapshot<OpaqueSpans>,
}

impl Model for Timeline {
    ghost use Rattle.rbac_timeline.specs.Known.{Known};

    ghost Value = { Known };

    ghost view = { λ t. record {
      versions = t.versions.value;
      ends = t.ends.value;
      spans = t.spans.value;
      bypass = t.bypass;
    } };

    ghost use Rattle.rbac_timeline.specs.Kept.{AreBindingsKept};

    ghost invariant = { λ t. AreBindingsKept (record {
      versions = t.versions.value;
      ends = t.ends.value;
      spans =
          t.spans.value;
      bypass = t.bypass;
    })
        t.histories t.removals t.clouds t.index t.nameless t.unsure t.reigns };
}

// The first place of a range behind another.
fn first_behind(place: u64, low: u64, high: u64) -> Option<u64>
    requires { low ≤ high }
    ensures { IsFirstPlace (λ n. place < n) low high result }
{
    if place >= high {
        return None;
    }
    Some(low.max(place + 1))
}

impl Timeline {
    ghost use Rattle.std.specs.Prelude.{ℕ};
    ghost use Rattle.base_types.specs.declared.kubernetes.key.ObjectKey.{ObjectKey};
    ghost use Rattle.clouds.specs.Clouds.{IsClouded};
    ghost use Rattle.rbac_timeline.specs.declared.way.Way.{Way};
    ghost use Rattle.base_types.specs.declared.kubernetes.request.RequestAttrs.{RequestAttrs};
    ghost use Rattle.rbac_timeline.specs.Kinds.{IsKeyOf, IsReached};
    ghost use Rattle.rbac_timeline.specs.Unsure.{last_place};
    ghost use Rattle.rbac_timeline.specs.Index.{AreBindingsOf};
    ghost use Rattle.rbac_timeline.specs.Sound.{AreSound};
    ghost use Rattle.rbac_timeline.specs.declared.version.RbacVersion.{RbacVersion};
    ghost use Rattle.rbac_timeline.specs.Choices.{IsKnownKey};
    ghost use Rattle.rbac_timeline.specs.Extents.{MayGrantNameless};
    ghost use Rattle.rbac_timeline.specs.Extents.{bindings_in};
    ghost use Rattle.rbac_timeline.specs.Kept.{IsKnownUnsure, IsRemovalOf};
    ghost use Rattle.rbac_timeline.specs.Kept.{stored_of};
    ghost use Rattle.rbac_timeline.specs.Pairs.{AreVersionsBetween};
    ghost use Rattle.rbac_timeline.specs.Reigning.{AreReignsOf, AsGroup, AsUser, Means, found_reigns};
    ghost use Rattle.rbac_timeline.specs.States.{IsLatestVersion, NoneUpto};

    /// Versions rise by key, and those of one key by revision. Each removal ends a version, before the key's
    /// next one.
    pub fn build(
        alloc: Global,
        versions: RbacVersions,
        ends: RbacEnds,
        spans: OpaqueSpans,
        bypass: &Texts,
    ) -> Result<Timeline, OutOfMemory>
        requires { AreSound versions ends }
        ensures versions { IfOk result (λ timeline. timeline.versions ≡ versions) }
        ensures ends { IfOk result (λ timeline. timeline.ends ≡ ends) }
        ensures spans { IfOk result (λ timeline. timeline.spans ≡ spans) }
        ensures bypass { IfOk result (λ timeline. timeline.bypass ≡ bypass.now) }
    {
        let all_versions = Snapshot::of(&versions);
        let all_ends = Snapshot::of(&ends);
        let all_spans = Snapshot::of(&spans);
        let (histories, parts) = all_parts(alloc, versions, ends, spans, bypass)?;
        let Parts {
            bypass,
            removals,
            clouds,
            lookups,
        } = parts;
        let Lookups {
            index,
            nameless,
            unsure,
            reigns,
        } = lookups;
        Ok(Timeline {
            histories,
            removals,
            clouds,
            index,
            nameless,
            unsure,
            reigns,
            bypass,
            alloc,
            versions: all_versions,
            ends: all_ends,
            spans: all_spans,
        })
    }

    fn latest(&self, key: &ObjectKey, place: u64) -> Option<&Stored>
        ensures some { IfSome result (λ s. (v : RbacVersion)
            × IsLatestVersion self.now.versions key.now place v × (s.now ≡ stored_of v)) }
        ensures none { IfNone result (NoneUpto self.now.versions key.now place) }
    {
        match self.histories.get(key) {
            Some(history) => history.latest(place),
            None => None,
        }
    }

    fn removal(&self, key: &ObjectKey, last: u64) -> Option<Gap>
        ensures { IsRemovalOf self.now.ends key.now last result }
    {
        match self.removals.get(key) {
            Some(gaps) => gaps.behind(last),
            None => None,
        }
    }

    pub(crate) fn is_clouded(&self, key: &ObjectKey, place: u64) -> bool
        ensures { IsTrue result ↔ IsClouded (writes_of self.now) key.now place }
    {
        self.clouds.clouded(key, place)
    }

    // The least place of a range at which the object is clouded.
    pub(crate) fn first_clouded(&self, key: &ObjectKey, low: u64, high: u64) -> Option<u64>
        ensures { IsFirstPlace (IsClouded (writes_of self.now) key.now) low high result }
    {
        self.clouds.meets(key, low, high)
    }

    // The key's versions above `low` and not above `high`.
    pub(crate) fn versions_between(&self, key: &ObjectKey, low: u64, high: u64) -> &[Stored]
        ensures { AreVersionsBetween self.now.versions key.now low high result.now }
    {
        match self.histories.get(key) {
            Some(history) => history.between(low, high),
            None => &[],
        }
    }

    // No least places of roles yet.
    pub(crate) fn no_firsts(&self) -> Firsts
        ensures { (role : ObjectKey) → get key_order result role ≡ None }
    {
        BTreeMap::new(self.alloc)
    }

    // No free places of cluster role bindings yet.
    pub(crate) fn no_free_bindings(&self) -> FreeBindings
        ensures { (cluster_roles : ℕ) → get nat_cmp result cluster_roles ≡ None }
    {
        BTreeMap::new(self.alloc)
    }

    // Of the bindings that name the user, or the account that it is.
    pub(crate) fn user_reigns(&self, name: &Text) -> Option<&Reigns>
        ensures { AreReignsOf self.now (λ s. Means AsUser s name.now) (found_reigns result) }
    {
        self.reigns.of_user(name)
    }

    // Of the bindings that name the group.
    pub(crate) fn group_reigns(&self, name: &Text) -> Option<&Reigns>
        ensures { AreReignsOf self.now (λ s. Means AsGroup s name.now) (found_reigns result) }
    {
        self.reigns.of_group(name)
    }

    // The bindings that may be clouded or unreadable somewhere and can reach the request, and maybe others.
    pub(crate) fn unsure_keys(&self, way: Way, attrs: &RequestAttrs) -> &[ObjectKey]
        ensures known { (key : ObjectKey) → Contains result.now key → IsKnownKey self.now key }
        ensures full { (place : ℕ) (key : ObjectKey) → place ≤ last_place
            → IsKeyOf (bindings_in way) key
            → IsReached key attrs.now → IsKnownUnsure self.now place key → Contains result.now key }
    {
        self.unsure.keys(way.bindings(), attrs)
    }

    // The least place of a range from which on a binding whose name isn't known may grant the request.
    pub(crate) fn first_nameless(
        &self,
        way: Way,
        low: u64,
        high: u64,
        attrs: &RequestAttrs,
    ) -> Option<u64>
        requires { low ≤ high }
        ensures { IsFirstPlace (λ place. MayGrantNameless self.now way place attrs.now) low
            high result }
    {
        match self.nameless.least(way.bindings(), attrs) {
            Some(least) => first_behind(least, low, high),
            None => None,
        }
    }

    // For proofs: what it was built of is as was asked.
    pub(crate) fn tell_sound(&self)
        ensures { AreSound self.now.versions self.now.ends }
    {
        let _known = &self.clouds;
    }

    /// The bindings that have a version which names the subject, by key. One that can't be read names none.
    pub fn bindings_of(&self, subject: &Subject) -> &[ObjectKey]
        ensures { AreBindingsOf self.now.versions subject.now result.now }
    {
        self.index.by_subject(subject)
    }
}
