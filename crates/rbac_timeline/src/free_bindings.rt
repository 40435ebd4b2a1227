ghost use Rattle.std.specs.Prelude.{◌≡◌, ◌≤◌, ◌⊎◌, ℕ, Result, Some};
ghost use Rattle.std.specs.BTreeMap.{get};
ghost use Rattle.std.specs.Ordering.{nat_cmp};
ghost use Rattle.rbac_timeline.specs.Freed.{AreFirstFree, IsFirstFree};

use crate::search::Asked;
use crate::way::{Link, Way};
use std::collections::BTreeMap;

/// What was found of cluster role bindings, by the places of cluster roles that were asked for.
pub type FreeBindings = BTreeMap<u64, Result<u64, u64>>;

// Where there is no memory for it the answer isn't remembered, and is looked for again.
fn remember(free_bindings: &mut FreeBindings, cluster_roles: u64, answer: Result<u64, u64>)
    ensures { (place : ℕ) (found : Result ℕ ℕ) → get nat_cmp free_bindings.new place ≡ Some found
        → (get nat_cmp free_bindings.old place ≡ Some found)
        ⊎ ((cluster_roles ≡ place) × (answer ≡ found)) }
{
    let _old = free_bindings.insert(cluster_roles, answer);
}

impl<'a> Asked<'a> {
    // The least place of the cluster role bindings at which they don't grant for certain, or a place of the
    // cluster roles up to which there is none; behind that, whoever asks looks again.
    fn first_free_cluster_binding(&self, cluster_roles: u64) -> Result<u64, u64>
        requires range { self.now.low ≤ self.now.high }
        requires upto { cluster_roles ≤ self.now.high }
        ensures { IsFirstFree self.now.timeline.now self.now.who.now self.now.attrs.now
            self.now.low self.now.high cluster_roles result }
    {
        let mut place = self.low;
        let mut last = self.high;
        'places: while let Some(until) = self.granted_until(Link {
            way: Way::ClusterBindings,
            role_place: cluster_roles,
            binding_place: place,
        }) {
            last = last.min(until.first);
            if until.second >= self.high {
                return Err(last);
            }
            place = until.second + 1;
        }
        Ok(place)
    }

    /// The same, found once for each place of the cluster roles.
    pub fn first_free_cluster_binding_once(
        &self,
        free_bindings: &mut FreeBindings,
        cluster_roles: u64,
    ) -> Result<u64, u64>
        requires range { self.now.low ≤ self.now.high }
        requires upto { cluster_roles ≤ self.now.high }
        requires remembered { AreFirstFree self.now.timeline.now self.now.who.now
            self.now.attrs.now self.now.low self.now.high free_bindings.old }
        ensures found { IsFirstFree self.now.timeline.now self.now.who.now self.now.attrs.now
            self.now.low self.now.high cluster_roles result }
        ensures remembered { AreFirstFree self.now.timeline.now self.now.who.now
            self.now.attrs.now self.now.low self.now.high free_bindings.new }
    {
        if let Some(found) = free_bindings.get(&cluster_roles) {
            return *found;
        }
        let found = self.first_free_cluster_binding(cluster_roles);
        remember(free_bindings, cluster_roles, found);
        found
    }
}
