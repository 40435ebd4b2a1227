ghost use Rattle.std.specs.Prelude.{◌≡◌, ◌≤◌, ◌⊎◌, ℕ, Option, Some, Any, Contains};
ghost use Rattle.std.specs.BTreeMap.{get};
ghost use Rattle.base_types.specs.declared.kubernetes.key.ObjectKey.{ObjectKey};
ghost use Rattle.clouds.specs.Clouds.{IsClouded};
ghost use Rattle.clouds.specs.FirstPlace.{IsFirstPlace};
ghost use Rattle.rbac_timeline.specs.Extents.{MayGrantByRole, MayGrantInWay, MayGrantNameless};
ghost use Rattle.clouds.specs.Kept.{key_order};
ghost use Rattle.rbac_rules.specs.Matching.{Matches};
ghost use Rattle.rbac_timeline.specs.declared.reigns.Reign.{Reign};
ghost use Rattle.rbac_timeline.specs.Choices.{IsKnownKey};
ghost use Rattle.rbac_timeline.specs.Found.{AreFirst, FirstFor, MayGrantNamed, StartsReigning};
ghost use Rattle.rbac_timeline.specs.Kept.{MayGrantByContent, MayGrantByListed};
ghost use Rattle.rbac_timeline.specs.Reigning.{AsGroup, Means, found_reigns};
ghost use Rattle.rbac_timeline.specs.Unsure.{last_place};
ghost use Rattle.rbac_timeline.specs.Known.{writes_of};
ghost use Rattle.rbac_timeline.specs.Searched.{IsFirstPair};

use crate::first::{earlier_pair, is_lowest, pair_with};
use crate::history::Content;
use crate::kind::{is_kind, kind_of_key, reaches};
use crate::reigns::Reigns;
use crate::search::Asked;
use crate::timeline::granting::names;
use crate::way::Way;
use base_types::{ObjectKey, Text};
use clouds::lesser_place;
use std::collections::BTreeMap;

/// The least places at which roles may grant that were asked for.
pub type Firsts = BTreeMap<ObjectKey, Option<u64>>;

// Where there is no memory for it the place isn't remembered, and is looked for again.
fn remember(firsts: &mut Firsts, role: &ObjectKey, place: Option<u64>)
    ensures { (key : ObjectKey) (found : Option ℕ) → get key_order firsts.new key ≡ Some found
        → (get key_order firsts.old key ≡ Some found) ⊎ ((role.now ≡ key) × (place ≡ found)) }
{
    if let Ok(copy) = role.clone() {
        let _old = firsts.insert(copy, place);
    }
}

// The place, so that proofs know its range.
fn in_range(place: u64) -> u64
    ensures { result ≡ place }
{
    place
}

impl<'a> Asked<'a> {
    // The place, where the role may grant there.
    fn role_at(&self, role: &ObjectKey, place: u64) -> Option<u64>
        requires from_low { self.now.low ≤ place }
        requires upto_high { place ≤ self.now.high }
        ensures { IsFirstPlace (λ r. (r ≡ place) × MayGrantByRole self.now.timeline.now role.now r
            self.now.attrs.now) self.now.low self.now.high result }
    {
        if self.timeline.role_extent(role, place, self.attrs).may {
            return Some(place);
        }
        None
    }

    // The least place at which the role may grant: the first one, where it is first clouded, or where one of
    // its versions begins.
    fn first_role(&self, role: &ObjectKey) -> Option<u64>
        requires { self.now.low ≤ self.now.high }
        ensures { IsFirstPlace (λ r. MayGrantByRole self.now.timeline.now role.now r
            self.now.attrs.now) self.now.low self.now.high result }
    {
        if let Some(place) = self.role_at(role, self.low) {
            return Some(place);
        }
        let mut first = self.timeline.first_clouded(role, self.low, self.high);
        for stored in self.timeline.versions_between(role, self.low, self.high) {
            first = lesser_place(first, self.role_at(role, stored.revision));
        }
        first
    }

    // The same, found once where the role has several versions in the range.
    fn first_role_once(&self, firsts: &mut Firsts, role: &ObjectKey) -> Option<u64>
        requires range { self.now.low ≤ self.now.high }
        requires firsts { AreFirst self.now.timeline.now self.now.attrs.now self.now.low
            self.now.high firsts.old }
        ensures found { IsFirstPlace (λ r. MayGrantByRole self.now.timeline.now role.now r
            self.now.attrs.now) self.now.low self.now.high result }
        ensures firsts { AreFirst self.now.timeline.now self.now.attrs.now self.now.low
            self.now.high firsts.new }
    {
        let versions = self.timeline.versions_between(role, self.low, self.high);
        if versions.len() < 2 {
            return self.first_role(role);
        }
        if let Some(place) = firsts.get(role) {
            return *place;
        }
        let place = self.first_role(role);
        remember(firsts, role, place);
        place
    }

    // The least place of the roles at which a binding may grant that holds this.
    fn role_of(&self, firsts: &mut Firsts, content: &Content, way: Way) -> Option<u64>
        requires range { self.now.low ≤ self.now.high }
        requires firsts { AreFirst self.now.timeline.now self.now.attrs.now self.now.low
            self.now.high firsts.old }
        ensures found { IsFirstPlace (λ r. MayGrantByContent self.now.timeline.now way r
            self.now.who.now self.now.attrs.now content.now) self.now.low self.now.high result }
        ensures firsts { AreFirst self.now.timeline.now self.now.attrs.now self.now.low
            self.now.high firsts.new }
    {
        match content {
            Content::Rules(_) => Some(self.low),
            Content::Bound(binding, role) => {
                if !is_kind(kind_of_key(role), way.roles()) {
                    return None;
                }
                if !names(binding, self.who) {
                    return None;
                }
                self.first_role_once(firsts, role)
            }
            Content::Unreadable => Some(self.low),
        }
    }

    // The least place of the roles at which the binding may grant, with the bindings at this place.
    fn role_for(&self, firsts: &mut Firsts, key: &ObjectKey, way: Way, place: u64) -> Option<u64>
        requires range { self.now.low ≤ self.now.high }
        requires firsts { AreFirst self.now.timeline.now self.now.attrs.now self.now.low
            self.now.high firsts.old }
        ensures found { IsFirstPlace (λ r. MayGrantByListed self.now.timeline.now way r place
            self.now.who.now self.now.attrs.now key.now) self.now.low self.now.high result }
        ensures firsts { AreFirst self.now.timeline.now self.now.attrs.now self.now.low
            self.now.high firsts.new }
    {
        if !is_kind(kind_of_key(key), way.bindings()) {
            return None;
        }
        if !reaches(key, self.attrs) {
            return None;
        }
        if self.timeline.is_clouded(key, place) {
            return Some(self.low);
        }
        match self.timeline.held(key, place) {
            Some(content) => self.role_of(firsts, content, way),
            None => None,
        }
    }

    // The least places at which the binding may grant, the bindings at this one.
    fn pair_at(
        &self,
        firsts: &mut Firsts,
        key: &ObjectKey,
        way: Way,
        place: u64,
    ) -> Option<(u64, u64)>
        requires from_low { self.now.low ≤ place }
        requires upto_high { place ≤ self.now.high }
        requires firsts { AreFirst self.now.timeline.now self.now.attrs.now self.now.low
            self.now.high firsts.old }
        ensures found { IsFirstPair (λ r b. (b ≡ place) × MayGrantByListed self.now.timeline.now way
            r b self.now.who.now self.now.attrs.now key.now) self.now.low self.now.high result }
        ensures firsts { AreFirst self.now.timeline.now self.now.attrs.now self.now.low
            self.now.high firsts.new }
    {
        pair_with(place, self.role_for(firsts, key, way, place))
    }

    // The least places at which the binding may grant, being clouded.
    fn clouded_pair(&self, firsts: &mut Firsts, key: &ObjectKey, way: Way) -> Option<(u64, u64)>
        requires { AreFirst self.now.timeline.now self.now.attrs.now self.now.low
            self.now.high firsts.old }
        ensures found { IsFirstPair (λ r b. IsClouded (writes_of self.now.timeline.now) key.now b
            × MayGrantByListed self.now.timeline.now way r b self.now.who.now
            self.now.attrs.now key.now)
            self.now.low self.now.high result }
        ensures firsts { AreFirst self.now.timeline.now self.now.attrs.now self.now.low
            self.now.high firsts.new }
    {
        match self.timeline.first_clouded(key, self.low, self.high) {
            Some(place) => self.pair_at(firsts, key, way, place),
            None => None,
        }
    }

    // The least places at which the binding may grant, its own at the first one, where it is first clouded,
    // or where one of its versions begins.
    fn key_pair(&self, firsts: &mut Firsts, key: &ObjectKey, way: Way) -> Option<(u64, u64)>
        requires range { self.now.low ≤ self.now.high }
        requires firsts { AreFirst self.now.timeline.now self.now.attrs.now self.now.low
            self.now.high firsts.old }
        ensures found { IsFirstPair (λ r b. MayGrantByListed self.now.timeline.now way r b
            self.now.who.now self.now.attrs.now key.now) self.now.low self.now.high result }
        ensures firsts { AreFirst self.now.timeline.now self.now.attrs.now self.now.low
            self.now.high firsts.new }
    {
        let here = self.pair_at(firsts, key, way, self.low);
        if is_lowest(self.low, here) {
            return here;
        }
        let mut best = earlier_pair(here, self.clouded_pair(firsts, key, way));
        for stored in self.timeline.versions_between(key, self.low, self.high) {
            best = earlier_pair(best, self.pair_at(firsts, key, way, stored.revision));
        }
        best
    }

    // The least places at which one of the bindings may grant.
    fn keys_pair(&self, firsts: &mut Firsts, keys: &[ObjectKey], way: Way) -> Option<(u64, u64)>
        requires range { self.now.low ≤ self.now.high }
        requires firsts { AreFirst self.now.timeline.now self.now.attrs.now self.now.low
            self.now.high firsts.old }
        ensures { IsFirstPair (λ r b. Any (MayGrantByListed self.now.timeline.now way r b
            self.now.who.now self.now.attrs.now) keys.now) self.now.low self.now.high result }
    {
        let mut best = None;
        for key in keys {
            best = earlier_pair(best, self.key_pair(firsts, key, way));
            if is_lowest(self.low, best) {
                return best;
            }
        }
        best
    }

    // The least places at which the binding of a reign may grant: its own where the reign begins, or the range.
    fn reigns_pair(
        &self,
        firsts: &mut Firsts,
        reigns: Option<&Reigns>,
        way: Way,
    ) -> Option<(u64, u64)>
        requires range { self.now.low ≤ self.now.high }
        requires firsts { AreFirst self.now.timeline.now self.now.attrs.now self.now.low
            self.now.high firsts.old }
        requires known { (reign : Reign) → Contains (found_reigns reigns) reign → IsKnownKey
            self.now.timeline.now reign.key }
        ensures found { FirstFor (λ r b. MayGrantInWay self.now.timeline.now way r b
            self.now.who.now self.now.attrs.now)
            (StartsReigning self.now.timeline.now way self.now.low self.now.high self.now.who.now
            self.now.attrs.now (found_reigns reigns.entry)) self.now.low self.now.high result }
        ensures firsts { AreFirst self.now.timeline.now self.now.attrs.now self.now.low
            self.now.high firsts.new }
    {
        let Some(reigns) = reigns else {
            return None;
        };
        let mut best = None;
        let mut rest = reigns.len();
        'reigns: while let Some(index) = reigns.last_meeting(rest, self.low, self.high) {
            let reign = reigns.get(index);
            let start = self.low.max(reign.first);
            best = earlier_pair(best, self.pair_at(firsts, &reign.key, way, start));
            if is_lowest(self.low, best) {
                return best;
            }
            rest = index;
        }
        best
    }

    // The least places at which a binding may grant whose version names one of the groups.
    fn groups_pair(&self, firsts: &mut Firsts, groups: &[Text], way: Way) -> Option<(u64, u64)>
        requires range { self.now.low ≤ self.now.high }
        requires fits { self.now.high ≤ last_place }
        requires firsts { AreFirst self.now.timeline.now self.now.attrs.now self.now.low
            self.now.high firsts.old }
        ensures found { FirstFor (λ r b. MayGrantInWay self.now.timeline.now way r b
            self.now.who.now self.now.attrs.now)
            (λ r b. Any (λ group. MayGrantNamed self.now.timeline.now (λ s. Means AsGroup s group)
            way r b self.now.who.now self.now.attrs.now) groups.now) self.now.low
            self.now.high result }
        ensures firsts { AreFirst self.now.timeline.now self.now.attrs.now self.now.low
            self.now.high firsts.new }
    {
        let mut best = None;
        for group in groups {
            let reigns = self.timeline.group_reigns(group);
            best = earlier_pair(best, self.reigns_pair(firsts, reigns, way));
            if is_lowest(self.low, best) {
                return best;
            }
        }
        best
    }

    // The least places at which a binding may grant whose version names the user, the account that it is, or
    // one of its groups.
    fn named_pair(&self, firsts: &mut Firsts, way: Way) -> Option<(u64, u64)>
        requires range { self.now.low ≤ self.now.high }
        requires fits { self.now.high ≤ last_place }
        requires firsts { AreFirst self.now.timeline.now self.now.attrs.now self.now.low
            self.now.high firsts.old }
        ensures found { FirstFor (λ r b. MayGrantInWay self.now.timeline.now way r b
            self.now.who.now self.now.attrs.now)
            (λ r b. MayGrantNamed self.now.timeline.now (λ s. Matches s self.now.who.now) way r b
            self.now.who.now self.now.attrs.now) self.now.low self.now.high result }
        ensures firsts { AreFirst self.now.timeline.now self.now.attrs.now self.now.low
            self.now.high firsts.new }
    {
        let reigns = self.timeline.user_reigns(&self.who.name);
        let user = self.reigns_pair(firsts, reigns, way);
        if is_lowest(self.low, user) {
            return user;
        }
        earlier_pair(
            user,
            self.groups_pair(firsts, self.who.groups.as_slice(), way),
        )
    }

    // The least places at which a binding may grant whose name isn't known.
    fn nameless_pair(&self, way: Way) -> Option<(u64, u64)>
        requires { self.now.low ≤ self.now.high }
        ensures { IsFirstPair (λ r b. MayGrantNameless self.now.timeline.now way b
            self.now.attrs.now) self.now.low self.now.high result }
    {
        match self
            .timeline
            .first_nameless(way, self.low, self.high, self.attrs)
        {
            Some(place) => Some((self.low, place)),
            None => None,
        }
    }

    /// The least places of roles and then of bindings at which they may grant. Each binding that may concern
    /// the request has its own.
    pub fn first_pair(&self, way: Way) -> Option<(u64, u64)>
        requires { self.now.low ≤ self.now.high }
        ensures { IsFirstPair (λ r b. MayGrantInWay self.now.timeline.now way r b self.now.who.now
            self.now.attrs.now) self.now.low self.now.high result }
    {
        let _high = in_range(self.high);
        let mut firsts = self.timeline.no_firsts();
        let named = self.named_pair(&mut firsts, way);
        if is_lowest(self.low, named) {
            return named;
        }
        let nameless = self.nameless_pair(way);
        let unsure = self.keys_pair(&mut firsts, self.timeline.unsure_keys(way, self.attrs), way);
        earlier_pair(named, earlier_pair(nameless, unsure))
    }
}
