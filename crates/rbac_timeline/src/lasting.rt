ghost use Rattle.std.specs.Prelude.{◌≡◌, ◌≤◌, Any, Contains};
ghost use Rattle.rbac_timeline.specs.Choices.{IsKnownKey};
ghost use Rattle.rbac_timeline.specs.Extents.{MustGrantByKey, MustGrantInWay};
ghost use Rattle.rbac_timeline.specs.Found.{LastsFor, MustGrantNamed, MustGrantReigning};
ghost use Rattle.rbac_timeline.specs.Kept.{MustGrantByListed};
ghost use Rattle.rbac_timeline.specs.Lasting.{HoldsUpTo, LastsUntil, farther, is_farther, lasts_throughout};
ghost use Rattle.rbac_timeline.specs.Reigning.{AsGroup, Means, found_reigns};
ghost use Rattle.rbac_timeline.specs.declared.reigns.Reign.{Reign};

use crate::reigns::Reigns;
use crate::search::Asked;
use crate::way::Link;
use base_types::{ObjectKey, Text};

/// Up to which places of two caches something holds.
#[derive(Clone, Copy)]
pub struct Until {
    pub first: u64,
    pub second: u64,
}

// Whether one lasts farther than another in the second cache, or as far there and farther in the first.
fn is_farther(a: Until, b: Until) -> bool
    ensures { result ≡ is_farther a b }
{
    b.second < a.second || (b.second == a.second && b.first < a.first)
}

// The one of two that lasts farther, where there are any.
fn farther(a: Option<Until>, b: Option<Until>) -> Option<Until>
    ensures { result ≡ farther a b }
{
    match (a, b) {
        (Some(a), Some(b)) => Some(if is_farther(b, a) { b } else { a }),
        (Some(a), None) => Some(a),
        (None, b) => b,
    }
}

// Whether it lasts up to the end of the range in both caches, so that nothing lasts farther.
fn lasts_throughout(high: u64, until: Option<Until>) -> bool
    ensures { result ≡ lasts_throughout high until }
{
    match until {
        Some(until) => high <= until.first && high <= until.second,
        None => false,
    }
}

impl<'a> Asked<'a> {
    // A place of the roles up to which the binding grants for certain, if it does. It is the last one up to
    // which the role stays as it is, so that the binding may grant behind it too.
    fn role_until(&self, key: &ObjectKey, link: Link) -> u64
        requires { link.role_place ≤ self.now.high }
        ensures { HoldsUpTo (λ r. MustGrantByKey self.now.timeline.now link.way link.role_place
            link.binding_place self.now.who.now self.now.attrs.now key.now
            → MustGrantByKey self.now.timeline.now link.way r link.binding_place self.now.who.now
            self.now.attrs.now key.now) link.role_place self.now.high result }
    {
        match self.timeline.role_bound(key, link.binding_place) {
            Some(role) => self.timeline.still_until(role, link.role_place, self.high),
            None => link.role_place,
        }
    }

    // Until where the binding grants for certain.
    fn key_until(&self, key: &ObjectKey, link: Link) -> Option<Until>
        requires roles { link.role_place ≤ self.now.high }
        requires bindings { link.binding_place ≤ self.now.high }
        ensures { LastsUntil (λ r b. MustGrantByListed self.now.timeline.now link.way r b
            self.now.who.now self.now.attrs.now key.now) link.role_place link.binding_place
            self.now.high result }
    {
        if !self
            .timeline
            .key_extent(key, link, self.who, self.attrs)
            .must
        {
            return None;
        }
        let first = self.role_until(key, link);
        let second = self
            .timeline
            .still_until(key, link.binding_place, self.high);
        Some(Until { first, second })
    }

    // Until where a binding with one of these reigns grants for certain: the one that does so farthest, since
    // the search goes on behind it.
    fn reigns_until(&self, reigns: Option<&Reigns>, link: Link) -> Option<Until>
        requires roles { link.role_place ≤ self.now.high }
        requires bindings { link.binding_place ≤ self.now.high }
        requires known { (reign : Reign) → Contains (found_reigns reigns) reign → IsKnownKey
            self.now.timeline.now reign.key }
        ensures { LastsFor (λ r b. MustGrantInWay self.now.timeline.now link.way r b
            self.now.who.now self.now.attrs.now)
            (MustGrantReigning self.now.timeline.now link.way link.role_place link.binding_place
            self.now.who.now self.now.attrs.now (found_reigns reigns.entry)) link.role_place
            link.binding_place self.now.high result }
    {
        let Some(reigns) = reigns else {
            return None;
        };
        let mut farthest = None;
        let mut rest = reigns.len();
        'reigns: while let Some(index) = reigns.last_meeting(
            rest,
            link.binding_place,
            link.binding_place,
        ) {
            let reign = reigns.get(index);
            farthest = farther(farthest, self.key_until(&reign.key, link));
            if lasts_throughout(self.high, farthest) {
                return farthest;
            }
            rest = index;
        }
        farthest
    }

    // Until where a binding grants for certain whose version names one of the groups.
    fn groups_until(&self, groups: &[Text], link: Link) -> Option<Until>
        requires roles { link.role_place ≤ self.now.high }
        requires bindings { link.binding_place ≤ self.now.high }
        ensures { LastsFor (λ r b. MustGrantInWay self.now.timeline.now link.way r b
            self.now.who.now self.now.attrs.now)
            (Any (λ group. MustGrantNamed self.now.timeline.now (λ s. Means AsGroup s group)
            link.way link.role_place link.binding_place self.now.who.now self.now.attrs.now)
            groups.now) link.role_place link.binding_place self.now.high result }
    {
        let _place = link.bindings_at();
        let mut farthest = None;
        for group in groups {
            let reigns = self.timeline.group_reigns(group);
            farthest = farther(farthest, self.reigns_until(reigns, link));
            if lasts_throughout(self.high, farthest) {
                return farthest;
            }
        }
        farthest
    }

    /// Until where a binding grants for certain whose version names the user, the account that it is, or one
    /// of its groups; no other does.
    pub fn granted_until(&self, link: Link) -> Option<Until>
        requires roles { link.role_place ≤ self.now.high }
        requires bindings { link.binding_place ≤ self.now.high }
        ensures { LastsUntil (λ r b. MustGrantInWay self.now.timeline.now link.way r b
            self.now.who.now self.now.attrs.now) link.role_place link.binding_place
            self.now.high result }
    {
        self.timeline.tell_sound();
        let _place = link.bindings_at();
        let reigns = self.timeline.user_reigns(&self.who.name);
        let user = self.reigns_until(reigns, link);
        if lasts_throughout(self.high, user) {
            return user;
        }
        farther(user, self.groups_until(self.who.groups.as_slice(), link))
    }
}
