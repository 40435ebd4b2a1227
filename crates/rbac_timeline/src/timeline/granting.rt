ghost use Rattle.std.specs.Prelude.{◌≡◌, ◌↔◌, IsTrue, IfSome, IfNone, Any, Contains, MatchOption};
ghost use Rattle.std.specs.Prelude.{false, ⊤, ◌<◌};
ghost use Rattle.rbac_timeline.specs.Kept.{MayGrantByRules, MustGrantByRules};
ghost use Rattle.rbac_rules.specs.Matching.{Matches};
ghost use Rattle.rbac_timeline.specs.Known.{writes_of};

use crate::extent::GrantExtent;
use crate::history::{Content, Gap, Stored};
use crate::kind::{is_kind, kind_of_key, reaches};
use crate::reigns::Reigns;
use crate::search::Asked;
use crate::timeline::Timeline;
use crate::way::Link;
use base_types::{ObjectKey, RequestAttrs, Text, User};
use rbac_rules::{Binding, Subject, grants, subject_matches};

// Whether an object may be there at a place, and whether it is for certain, by the removal of its last version.
fn presence(gap: Option<Gap>, place: u64) -> GrantExtent
    ensures may { IsTrue result.may ↔ MatchOption gap ⊤ (λ gap. place < gap.high) }
    ensures must { IsTrue result.must ↔ MatchOption gap ⊤ (λ gap. place < gap.low) }
{
    match gap {
        Some(gap) => GrantExtent {
            may: place < gap.high,
            must: place < gap.low,
        },
        None => GrantExtent::certain(true),
    }
}

fn rules_extent(content: &Content, attrs: &RequestAttrs) -> GrantExtent
    ensures may { IsTrue result.may ↔ MayGrantByRules attrs.now content.now }
    ensures must { IsTrue result.must ↔ MustGrantByRules attrs.now content.now }
{
    match content {
        Content::Rules(rules) => GrantExtent::certain(grants(rules.as_slice(), attrs)),
        Content::Bound(_, _) => GrantExtent::UNSURE,
        Content::Unreadable => GrantExtent::UNSURE,
    }
}

fn any_subject(subjects: &[Subject], who: &User) -> bool
    ensures { IsTrue result ↔ Any (λ subject. Matches subject who.now) subjects.now }
{
    subjects.iter().any(|subject| subject_matches(subject, who))
}

pub(crate) fn names(binding: &Binding, who: &User) -> bool
    ensures { IsTrue result ↔ Any (λ subject. Matches subject who.now) binding.now.subjects }
{
    any_subject(binding.subjects.as_slice(), who)
}

impl Timeline {
    ghost use Rattle.std.specs.Prelude.{ℕ};
    ghost use Rattle.base_types.specs.declared.kubernetes.key.ObjectKey.{ObjectKey};
    ghost use Rattle.clouds.specs.Clouds.{IsClouded};
    ghost use Rattle.rbac_timeline.specs.declared.way.Way.{Way};
    ghost use Rattle.base_types.specs.declared.kubernetes.request.RequestAttrs.{RequestAttrs};
    ghost use Rattle.base_types.specs.declared.kubernetes.request.User.{User};
    ghost use Rattle.rbac_timeline.specs.declared.version.RbacVersion.{RbacVersion};
    ghost use Rattle.rbac_timeline.specs.Choices.{IsKnownKey};
    ghost use Rattle.rbac_timeline.specs.Extents.{IsCertain, IsNotGone, MayGrantByKey, MayGrantByRole};
    ghost use Rattle.rbac_timeline.specs.Extents.{MayGrantInWay, MayGrantNameless, MustGrantByKey, MustGrantByRole};
    ghost use Rattle.rbac_timeline.specs.Extents.{MustGrantInWay};
    ghost use Rattle.rbac_timeline.specs.Kept.{IsKnownUnsure, MayGrantByContent, MayGrantByListed};
    ghost use Rattle.rbac_timeline.specs.Kept.{MayGrantOf, MustGrantByContent, MustGrantByListed};
    ghost use Rattle.rbac_timeline.specs.Found.{MayGrantNamed, MayGrantReigning};
    ghost use Rattle.rbac_timeline.specs.Reigning.{AsGroup, Means, found_reigns};
    ghost use Rattle.rbac_timeline.specs.declared.reigns.Reign.{Reign};

    fn presence(&self, key: &ObjectKey, stored: &Stored, place: u64) -> GrantExtent
        ensures may { (v : RbacVersion) → v.key ≡ key.now → v.revision ≡ stored.now.revision
            → (IsTrue result.may ↔ IsNotGone self.now place v) }
        ensures must { (v : RbacVersion) → v.key ≡ key.now → v.revision ≡ stored.now.revision
            → (IsTrue result.must ↔ IsCertain self.now place v) }
    {
        let _known = &self.clouds;
        presence(self.removal(key, stored.revision), place)
    }

    pub(crate) fn role_extent(
        &self,
        key: &ObjectKey,
        place: u64,
        attrs: &RequestAttrs,
    ) -> GrantExtent
        ensures may { IsTrue result.may ↔ MayGrantByRole self.now key.now place attrs.now }
        ensures must { IsTrue result.must ↔ MustGrantByRole self.now key.now place attrs.now }
    {
        if self.clouds.clouded(key, place) {
            return GrantExtent::UNSURE;
        }
        match self.latest(key, place) {
            Some(stored) => self
                .presence(key, stored, place)
                .and(rules_extent(&stored.content, attrs)),
            None => GrantExtent::NOTHING,
        }
    }

    fn content_extent(
        &self,
        content: &Content,
        link: Link,
        who: &User,
        attrs: &RequestAttrs,
    ) -> GrantExtent
        ensures may { IsTrue result.may ↔ MayGrantByContent self.now link.way link.role_place
            who.now attrs.now content.now }
        ensures must { IsTrue result.must ↔ MustGrantByContent self.now link.way link.role_place
            who.now attrs.now content.now }
    {
        match content {
            Content::Rules(_) => GrantExtent::UNSURE,
            Content::Bound(binding, role) => {
                if !is_kind(kind_of_key(role), link.way.roles()) {
                    return GrantExtent::NOTHING;
                }
                if !names(binding, who) {
                    return GrantExtent::NOTHING;
                }
                self.role_extent(role, link.role_place, attrs)
            }
            Content::Unreadable => GrantExtent::UNSURE,
        }
    }

    pub(crate) fn key_extent(
        &self,
        key: &ObjectKey,
        link: Link,
        who: &User,
        attrs: &RequestAttrs,
    ) -> GrantExtent
        ensures may { IsTrue result.may ↔ MayGrantByListed self.now link.way link.role_place
            link.binding_place who.now attrs.now key.now }
        ensures must { IsTrue result.must ↔ MustGrantByListed self.now link.way link.role_place
            link.binding_place who.now attrs.now key.now }
    {
        if !is_kind(kind_of_key(key), link.way.bindings()) {
            return GrantExtent::NOTHING;
        }
        if !reaches(key, attrs) {
            return GrantExtent::NOTHING;
        }
        if self.clouds.clouded(key, link.binding_place) {
            return GrantExtent::UNSURE;
        }
        match self.latest(key, link.binding_place) {
            Some(stored) => self
                .presence(key, stored, link.binding_place)
                .and(self.content_extent(&stored.content, link, who, attrs)),
            None => GrantExtent::NOTHING,
        }
    }

    // Whether a binding with one of these reigns may grant.
    fn may_by_reigns(
        &self,
        reigns: Option<&Reigns>,
        link: Link,
        who: &User,
        attrs: &RequestAttrs,
    ) -> bool
        requires { (reign : Reign) → Contains (found_reigns reigns) reign
            → IsKnownKey self.now reign.key }
        ensures sound { IsTrue result → MayGrantInWay self.now link.way link.role_place
            link.binding_place who.now attrs.now }
        ensures full { MayGrantReigning self.now link.way link.role_place link.binding_place who.now
            attrs.now (found_reigns reigns.entry) → IsTrue result }
    {
        let Some(reigns) = reigns else {
            return false;
        };
        let mut rest = reigns.len();
        'reigns: while let Some(index) = reigns.last_meeting(
            rest,
            link.binding_place,
            link.binding_place,
        ) {
            let reign = reigns.get(index);
            if self.key_extent(&reign.key, link, who, attrs).may {
                return true;
            }
            rest = index;
        }
        false
    }

    // Whether a binding may grant whose version names one of the groups.
    fn may_by_groups(&self, groups: &[Text], link: Link, who: &User, attrs: &RequestAttrs) -> bool
        ensures sound { IsTrue result → MayGrantInWay self.now link.way link.role_place
            link.binding_place who.now attrs.now }
        ensures full { Any (λ group. MayGrantNamed self.now (λ s. Means AsGroup s group) link.way
            link.role_place link.binding_place who.now attrs.now) groups.now → IsTrue result }
    {
        let _place = link.bindings_at();
        for group in groups {
            let reigns = self.group_reigns(group);
            if self.may_by_reigns(reigns, link, who, attrs) {
                return true;
            }
        }
        false
    }

    // Whether a binding may grant whose version names the user, the account that it is, or one of its groups.
    fn may_by_names(&self, link: Link, who: &User, attrs: &RequestAttrs) -> bool
        ensures sound { IsTrue result → MayGrantInWay self.now link.way link.role_place
            link.binding_place who.now attrs.now }
        ensures full { MayGrantNamed self.now (λ s. Matches s who.now) link.way link.role_place
            link.binding_place who.now attrs.now → IsTrue result }
    {
        let _place = link.bindings_at();
        let reigns = self.user_reigns(&who.name);
        if self.may_by_reigns(reigns, link, who, attrs) {
            return true;
        }
        self.may_by_groups(who.groups.as_slice(), link, who, attrs)
    }

    // Whether one of these bindings may grant the request.
    fn some_may(&self, keys: &[ObjectKey], link: Link, who: &User, attrs: &RequestAttrs) -> bool
        ensures { IsTrue result ↔ Any (MayGrantByListed self.now link.way link.role_place
            link.binding_place who.now attrs.now) keys.now }
    {
        for key in keys {
            if self.key_extent(key, link, who, attrs).may {
                return true;
            }
        }
        false
    }

    // Whether a binding may grant the request that may be clouded or unreadable somewhere; others may be
    // among them.
    fn may_by_unsure(&self, link: Link, who: &User, attrs: &RequestAttrs) -> bool
        ensures sound { IsTrue result → MayGrantOf self.now (IsKnownKey self.now) link.way
            link.role_place link.binding_place who.now attrs.now }
        ensures full { MayGrantOf self.now (IsKnownUnsure self.now link.binding_place) link.way
            link.role_place link.binding_place who.now attrs.now → IsTrue result }
    {
        let _place = link.bindings_at();
        let keys = self.unsure.keys(link.way.bindings(), attrs);
        self.some_may(keys, link, who, attrs)
    }

    // Whether a binding whose name isn't known may grant the request.
    fn may_by_nameless(&self, link: Link, attrs: &RequestAttrs) -> bool
        ensures { IsTrue result ↔ MayGrantNameless self.now link.way link.binding_place attrs.now }
    {
        self.nameless
            .may_grant(link.way.bindings(), link.binding_place, attrs)
    }

    // Whether some binding may grant the request in this way.
    pub(crate) fn may(&self, link: Link, who: &User, attrs: &RequestAttrs) -> bool
        ensures { IsTrue result ↔ MayGrantInWay self.now link.way link.role_place link.binding_place
            who.now attrs.now }
    {
        if self.may_by_names(link, who, attrs) {
            return true;
        }
        if self.may_by_nameless(link, attrs) {
            return true;
        }
        self.may_by_unsure(link, who, attrs)
    }

    // Whether some binding grants the request for certain in this way.
    pub(crate) fn must(&self, link: Link, who: &User, attrs: &RequestAttrs) -> bool
        ensures { IsTrue result ↔ MustGrantInWay self.now link.way link.role_place
            link.binding_place who.now attrs.now }
    {
        let place = link.role_place.max(link.binding_place);
        let asked = Asked {
            timeline: self,
            low: place,
            high: place,
            who,
            attrs,
        };
        asked.granted_until(link).is_some()
    }

    // What the binding holds, where it may be there.
    pub(crate) fn held(&self, key: &ObjectKey, place: u64) -> Option<&Content>
        requires { IsClouded (writes_of self.now) key.now place → ⊥ }
        ensures some { IfSome result (λ content. (way : Way) (role_place : ℕ) (who : User)
            (attrs : RequestAttrs) → MayGrantByKey self.now way role_place place who attrs key.now
            ↔ MayGrantByContent self.now way role_place who attrs content.now) }
        ensures none { IfNone result ((way : Way) (role_place : ℕ) (who : User)
            (attrs : RequestAttrs)
            → MayGrantByKey self.now way role_place place who attrs key.now → ⊥) }
    {
        let _known = &self.clouds;
        match self.latest(key, place) {
            Some(stored) => {
                if !self.presence(key, stored, place).may {
                    return None;
                }
                Some(&stored.content)
            }
            None => None,
        }
    }

    // The role that the binding names. Where that one grants for certain, so does the binding, if it does at all.
    pub(crate) fn role_bound(&self, key: &ObjectKey, place: u64) -> Option<&ObjectKey>
        ensures { IfSome result (λ role. (way : Way) (who : User) (attrs : RequestAttrs) (r n : ℕ)
            → (MustGrantByRole self.now role.now r attrs → MustGrantByRole self.now
            role.now n attrs)
            → MustGrantByKey self.now way r place who attrs key.now
            → MustGrantByKey self.now way n place who attrs key.now) }
    {
        let _known = &self.clouds;
        match self.latest(key, place) {
            Some(stored) => stored.content.role(),
            None => None,
        }
    }
}
