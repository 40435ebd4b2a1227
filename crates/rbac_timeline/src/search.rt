ghost use Rattle.std.specs.Prelude.{◌≡◌, ◌≤◌, ◌↔◌, IfNone, IfSome, IsTrue, MatchOption};
ghost use Rattle.rbac_timeline.specs.declared.way.Way.TheVariants.{ClusterBindings, ClusterRoles, Roles};
ghost use Rattle.rbac_timeline.specs.Extents.{MustGrantInWay};
ghost use Rattle.rbac_timeline.specs.Freed.{AreFirstFree, AreFirstFrom, IsBarred};
ghost use Rattle.rbac_timeline.specs.Freed.{IsBarredClusterRole, IsFreed, IsWithin};
ghost use Rattle.rbac_timeline.specs.Lasting.{LastsUntil};
ghost use Rattle.rbac_timeline.specs.Searched.{AreFirstOf, IsFreeAt, MayGrantAt, MayGrantBy};
ghost use Rattle.rbac_timeline.specs.Searched.{all_at, lesser_places, with_cluster_bindings, with_cluster_roles};
ghost use Rattle.rbac_timeline.specs.Searched.{with_roles};

use crate::free_bindings::FreeBindings;
use crate::lasting::Until;
use crate::timeline::Timeline;
use crate::way::{Link, Way};
use base_types::{Places, RequestAttrs, User};

/// A decision that is looked for within a range of places.
#[derive(Clone, Copy)]
pub struct Asked<'a> {
    pub timeline: &'a Timeline,
    pub low: u64,
    pub high: u64,
    pub who: &'a User,
    pub attrs: &'a RequestAttrs,
}

// The lesser of two, where there are any.
fn lesser_places(a: Option<Places>, b: Option<Places>) -> Option<Places>
    ensures { result ≡ lesser_places a b }
{
    match (a, b) {
        (Some(a), Some(b)) => Some(if a <= b { a } else { b }),
        (Some(a), None) => Some(a),
        (None, b) => b,
    }
}

// The places of roles and of role bindings.
fn with_roles(pair: Option<(u64, u64)>, lowest: Places) -> Option<Places>
    ensures { result ≡ with_roles pair lowest }
{
    let (roles, bindings) = pair?;
    Some(Places {
        roles,
        bindings,
        ..lowest
    })
}

// The places of cluster roles and of role bindings.
fn with_cluster_roles(pair: Option<(u64, u64)>, lowest: Places) -> Option<Places>
    ensures { result ≡ with_cluster_roles pair lowest }
{
    let (cluster_roles, bindings) = pair?;
    Some(Places {
        cluster_roles,
        bindings,
        ..lowest
    })
}

// The places of cluster roles and of cluster role bindings.
fn with_cluster_bindings(pair: Option<(u64, u64)>, lowest: Places) -> Option<Places>
    ensures { result ≡ with_cluster_bindings pair lowest }
{
    let (cluster_roles, cluster_bindings) = pair?;
    Some(Places {
        cluster_roles,
        cluster_bindings,
        ..lowest
    })
}

// Of which roles a place is looked for. Roles and cluster roles don't ask for each other.
#[derive(Clone, Copy)]
enum RoleCache {
    Plain,
    Cluster,
}

/// A least place of roles, if there is one, and a place of role bindings up to which no lesser one is free.
#[derive(Clone, Copy)]
struct Freed {
    place: Option<u64>,
    last: u64,
}

/// The same of all four caches.
#[derive(Clone, Copy)]
struct FreeFrom {
    places: Option<Places>,
    last: u64,
}

// Whether both caches of roles are at the first place.
fn has_first_roles(low: u64, places: Option<Places>) -> bool
    ensures { IsTrue result ↔ MatchOption places ⊥ (λ p. (p.roles ≤ low)
        × (p.cluster_roles ≤ low)) }
{
    match places {
        Some(places) => places.roles <= low && places.cluster_roles <= low,
        None => false,
    }
}

impl<'a> Asked<'a> {
    /// All caches at the range's first place.
    pub fn lowest(&self) -> Places
        ensures { result ≡ all_at self.now.low }
    {
        Places {
            roles: self.low,
            cluster_roles: self.low,
            bindings: self.low,
            cluster_bindings: self.low,
        }
    }

    /// The least places at which the request may be allowed. The ways to be allowed don't ask for each
    /// other, so each has its own least places.
    pub fn first_allowed(&self) -> Option<Places>
        requires { self.now.low ≤ self.now.high }
        ensures { AreFirstOf (MayGrantAt self.now.timeline.now self.now.who.now self.now.attrs.now)
            self.now.low self.now.high result }
    {
        let lowest = self.lowest();
        let by_roles = with_roles(self.first_pair(Way::Roles), lowest);
        let by_cluster_roles = with_cluster_roles(self.first_pair(Way::ClusterRoles), lowest);
        let by_cluster_bindings = with_cluster_bindings(
            self.first_pair(Way::ClusterBindings),
            lowest,
        );
        lesser_places(
            by_roles,
            lesser_places(by_cluster_roles, by_cluster_bindings),
        )
    }

    // Until where role bindings grant for certain by cluster roles, or cluster role bindings wherever they are.
    fn cluster_role_bar(
        &self,
        free_bindings: &mut FreeBindings,
        cluster_roles: u64,
        bindings: u64,
    ) -> Option<Until>
        requires range { self.now.low ≤ self.now.high }
        requires cluster_roles { cluster_roles ≤ self.now.high }
        requires bindings { bindings ≤ self.now.high }
        requires remembered { AreFirstFree self.now.timeline.now self.now.who.now
            self.now.attrs.now self.now.low self.now.high free_bindings.old }
        ensures until { LastsUntil (IsBarredClusterRole self.now.timeline.now self.now.who.now
            self.now.attrs.now self.now.low self.now.high) cluster_roles bindings
            self.now.high result }
        ensures remembered { AreFirstFree self.now.timeline.now self.now.who.now
            self.now.attrs.now self.now.low self.now.high free_bindings.new }
    {
        let granted = self.granted_until(Link {
            way: Way::ClusterRoles,
            role_place: cluster_roles,
            binding_place: bindings,
        });
        if granted.is_some() {
            return granted;
        }
        match self.first_free_cluster_binding_once(free_bindings, cluster_roles) {
            Ok(_) => None,
            Err(reached) => Some(Until {
                first: reached,
                second: self.high,
            }),
        }
    }

    // Until where nothing is free with the roles of this cache and the role bindings.
    fn bar(
        &self,
        free_bindings: &mut FreeBindings,
        cache: RoleCache,
        roles: u64,
        bindings: u64,
    ) -> Option<Until>
        requires range { self.now.low ≤ self.now.high }
        requires roles { roles ≤ self.now.high }
        requires bindings { bindings ≤ self.now.high }
        requires remembered { AreFirstFree self.now.timeline.now self.now.who.now
            self.now.attrs.now self.now.low self.now.high free_bindings.old }
        ensures until { LastsUntil (IsBarred self.now.timeline.now self.now.who.now
            self.now.attrs.now self.now.low self.now.high cache) roles bindings
            self.now.high result }
        ensures remembered { AreFirstFree self.now.timeline.now self.now.who.now
            self.now.attrs.now self.now.low self.now.high free_bindings.new }
    {
        match cache {
            RoleCache::Plain => self.granted_until(Link {
                way: Way::Roles,
                role_place: roles,
                binding_place: bindings,
            }),
            RoleCache::Cluster => self.cluster_role_bar(free_bindings, roles, bindings),
        }
    }

    // The least place of these roles that is free with the role bindings at this one.
    fn first_free(&self, free_bindings: &mut FreeBindings, cache: RoleCache, bindings: u64) -> Freed
        requires range { self.now.low ≤ self.now.high }
        requires upto { bindings ≤ self.now.high }
        requires remembered { AreFirstFree self.now.timeline.now self.now.who.now
            self.now.attrs.now self.now.low self.now.high free_bindings.old }
        ensures freed { IsFreed (IsBarred self.now.timeline.now self.now.who.now
            self.now.attrs.now self.now.low self.now.high cache) bindings self.now.low
            self.now.high result.place result.last }
        ensures remembered { AreFirstFree self.now.timeline.now self.now.who.now
            self.now.attrs.now self.now.low self.now.high free_bindings.new }
    {
        let mut place = self.low;
        let mut last = self.high;
        'places: while let Some(until) = self.bar(free_bindings, cache, place, bindings) {
            last = last.min(until.second);
            if until.first >= self.high {
                return Freed { place: None, last };
            }
            place = until.first + 1;
        }
        Freed {
            place: Some(place),
            last,
        }
    }

    // The least free places with the role bindings at this place, which no others are before with the role
    // bindings up to the last one: roles and cluster roles don't ask for each other there.
    fn free_from(&self, free_bindings: &mut FreeBindings, bindings: u64) -> FreeFrom
        requires within { IsWithin self.now.low self.now.high bindings }
        requires remembered { AreFirstFree self.now.timeline.now self.now.who.now
            self.now.attrs.now self.now.low self.now.high free_bindings.old }
        ensures places { AreFirstFrom self.now.timeline.now self.now.who.now self.now.attrs.now
            self.now.low self.now.high bindings result.last result.places }
        ensures last { IsWithin bindings self.now.high result.last }
        ensures remembered { AreFirstFree self.now.timeline.now self.now.who.now
            self.now.attrs.now self.now.low self.now.high free_bindings.new }
    {
        let role = self.first_free(free_bindings, RoleCache::Plain, bindings);
        let cluster_role = self.first_free(free_bindings, RoleCache::Cluster, bindings);
        let last = role.last.min(cluster_role.last);
        let Some(roles) = role.place else {
            return FreeFrom { places: None, last };
        };
        let Some(cluster_roles) = cluster_role.place else {
            return FreeFrom { places: None, last };
        };
        match self.first_free_cluster_binding_once(free_bindings, cluster_roles) {
            Ok(cluster_bindings) => FreeFrom {
                places: Some(Places {
                    roles,
                    cluster_roles,
                    bindings,
                    cluster_bindings,
                }),
                last,
            },
            Err(_) => FreeFrom { places: None, last },
        }
    }

    /// The least places at which the request may be forbidden. Where role bindings stand, roles and cluster
    /// roles have least places of their own, so that those of the bindings alone are gone through.
    pub fn first_forbidden(&self) -> Option<Places>
        requires { self.now.low ≤ self.now.high }
        ensures { AreFirstOf (IsFreeAt self.now.timeline.now self.now.who.now self.now.attrs.now)
            self.now.low self.now.high result }
    {
        let mut free_bindings = self.timeline.no_free_bindings();
        let mut best = None;
        let mut bindings = self.low;
        'places: loop {
            let found = self.free_from(&mut free_bindings, bindings);
            best = lesser_places(best, found.places);
            if has_first_roles(self.low, best) {
                return best;
            }
            if found.last >= self.high {
                return best;
            }
            bindings = found.last + 1;
        }
    }
}
