ghost use Rattle.std.specs.Prelude.{◌≡◌, ◌↔◌, IsTrue, IfSome, IfNone, Any, Contains};
ghost use Rattle.std.specs.Prelude.{false, ◌<◌, ◌≤◌, ◌||◌};
ghost use Rattle.base_types.specs.declared.verdict.placed.Places.{Places};

use crate::search::Asked;
use crate::timeline::Timeline;
use crate::way::{Link, Way};
use base_types::{Decision, Places, Possible, RequestAttrs, Text, Texts, User, has_text};

fn any_group(groups: &[Text], bypass: &Texts) -> bool
    ensures { IsTrue result ↔ Any (Contains bypass.now) groups.now }
{
    groups.iter().any(|group| is_among(bypass, group))
}

fn is_among(texts: &Texts, text: &Text) -> bool
    ensures { IsTrue result ↔ Contains texts.now text.now }
{
    has_text(texts, text)
}

fn any_of(a: bool, b: bool, c: bool) -> bool
    ensures { result ≡ (a || b || c) }
{
    a || b || c
}

impl Timeline {
    ghost use Rattle.rbac_timeline.specs.declared.way.Way.{Way};
    ghost use Rattle.base_types.specs.declared.kubernetes.request.RequestAttrs.{RequestAttrs};
    ghost use Rattle.base_types.specs.declared.kubernetes.request.User.{User};
    ghost use Rattle.base_types.specs.PlaceOrder.{AreLeastPlaces};
    ghost use Rattle.rbac_timeline.specs.Decisions.{IsDecidedAt, IsPossible};
    ghost use Rattle.rbac_timeline.specs.Choices.{IsBypassed};
    ghost use Rattle.rbac_timeline.specs.Searched.{AreFirstOf};

    fn is_bypassed(&self, who: &User) -> bool
        ensures { IsTrue result ↔ IsBypassed self.now who.now }
    {
        any_group(who.groups.as_slice(), &self.bypass)
    }

    /// Which decisions an authorizer could have given whose caches stood at these places. A role or binding
    /// that is clouded or can't be read may grant everything that it can reach, or nothing.
    pub fn decide(&self, places: &Places, who: &User, attrs: &RequestAttrs) -> Possible
        ensures allow { IsTrue result.allow ↔ IsPossible self.now places.now who.now attrs.now
            Decision.Allow }
        ensures forbid { IsTrue result.forbid ↔ IsPossible self.now places.now who.now attrs.now
            Decision.Forbid }
    {
        let _known = &self.clouds;
        if self.is_bypassed(who) {
            return Possible {
                allow: true,
                forbid: false,
            };
        }
        let roles = Link {
            way: Way::Roles,
            role_place: places.roles,
            binding_place: places.bindings,
        };
        let cluster_roles = Link {
            way: Way::ClusterRoles,
            role_place: places.cluster_roles,
            binding_place: places.bindings,
        };
        let cluster_bindings = Link {
            way: Way::ClusterBindings,
            role_place: places.cluster_roles,
            binding_place: places.cluster_bindings,
        };
        let may_by_roles = self.may(roles, who, attrs);
        let may_by_cluster_roles = self.may(cluster_roles, who, attrs);
        let may_by_cluster_bindings = self.may(cluster_bindings, who, attrs);
        let must_by_roles = self.must(roles, who, attrs);
        let must_by_cluster_roles = self.must(cluster_roles, who, attrs);
        let must_by_cluster_bindings = self.must(cluster_bindings, who, attrs);
        let allowed = any_of(may_by_roles, may_by_cluster_roles, may_by_cluster_bindings);
        let certain = any_of(
            must_by_roles,
            must_by_cluster_roles,
            must_by_cluster_bindings,
        );
        Possible {
            allow: allowed,
            forbid: !certain,
        }
    }

    // The least places at which the request may be allowed.
    fn find_allowed(&self, low: u64, high: u64, who: &User, attrs: &RequestAttrs) -> Option<Places>
        requires { low ≤ high }
        ensures { AreFirstOf (λ places. IsPossible self.now places who.now attrs.now Decision.Allow)
            low high result }
    {
        let _known = &self.clouds;
        let asked = Asked {
            timeline: self,
            low,
            high,
            who,
            attrs,
        };
        if self.is_bypassed(who) {
            return Some(asked.lowest());
        }
        asked.first_allowed()
    }

    // The least places at which the request may be forbidden.
    fn find_forbidden(
        &self,
        low: u64,
        high: u64,
        who: &User,
        attrs: &RequestAttrs,
    ) -> Option<Places>
        requires { low ≤ high }
        ensures { AreFirstOf (λ places. IsPossible self.now places who.now attrs.now
            Decision.Forbid) low high result }
    {
        let _known = &self.clouds;
        let asked = Asked {
            timeline: self,
            low,
            high,
            who,
            attrs,
        };
        if self.is_bypassed(who) {
            return None;
        }
        asked.first_forbidden()
    }

    /// The least places of the four caches from `low` to `high` at which the decision is possible.
    pub fn find_decision(
        &self,
        low: u64,
        high: u64,
        who: &User,
        attrs: &RequestAttrs,
        wanted: Decision,
    ) -> Option<Places>
        ensures some { IfSome result (AreLeastPlaces
            (IsDecidedAt self.now low high who.now attrs.now wanted)) }
        ensures none { IfNone result ((places : Places)
            → ¬ (IsDecidedAt self.now low high who.now attrs.now wanted places)) }
    {
        if low > high {
            return None;
        }
        match wanted {
            Decision::Allow => self.find_allowed(low, high, who, attrs),
            Decision::Forbid => self.find_forbidden(low, high, who, attrs),
        }
    }
}
