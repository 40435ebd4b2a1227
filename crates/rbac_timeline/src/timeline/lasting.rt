ghost use Rattle.std.specs.Prelude.{MatchOption};
ghost use Rattle.std.specs.Prelude.{⊤, ◌<◌, ◌≤◌};
ghost use Rattle.rbac_timeline.specs.Lasting.{IsLast};

use crate::first::last_before;
use crate::history::Gap;
use crate::timeline::Timeline;
use base_types::ObjectKey;

// The last place up to which the removal hasn't begun behind this one.
fn gap_until(gap: Option<Gap>, place: u64, high: u64) -> u64
    requires { place ≤ high }
    ensures { IsLast (λ n. MatchOption gap ⊤ (λ gap. place < gap.low → n < gap.low)) place
        high result }
{
    match gap {
        Some(gap) => {
            if place >= gap.low {
                return high;
            }
            last_before(gap.low, place, high)
        }
        None => high,
    }
}

impl Timeline {
    ghost use Rattle.base_types.specs.declared.kubernetes.key.ObjectKey.{ObjectKey};
    ghost use Rattle.rbac_timeline.specs.Lasting.{IsStill, NoneBegins, NoneClouded, NoneRemoved};

    // The last place up to which no version of the key begins behind this one.
    fn unbegun_until(&self, key: &ObjectKey, place: u64, high: u64) -> u64
        requires { place ≤ high }
        ensures { IsLast (NoneBegins self.now.versions key.now place) place high result }
    {
        match self.histories.get(key) {
            Some(history) => history.unbegun_until(place, high),
            None => high,
        }
    }

    // The last place up to which the removal of the object hasn't begun behind this one.
    fn unremoved_until(&self, key: &ObjectKey, place: u64, high: u64) -> u64
        requires { place ≤ high }
        ensures { IsLast (NoneRemoved self.now key.now place) place high result }
    {
        let _known = &self.clouds;
        match self.latest(key, place) {
            Some(stored) => gap_until(self.removal(key, stored.revision), place, high),
            None => high,
        }
    }

    // The last place up to which the object isn't clouded behind this one.
    fn clear_until(&self, key: &ObjectKey, place: u64, high: u64) -> u64
        requires { place ≤ high }
        ensures { IsLast (NoneClouded self.now key.now place) place high result }
    {
        if place >= high {
            return high;
        }
        match self.first_clouded(key, place + 1, high) {
            Some(clouded) => last_before(clouded, place, high),
            None => high,
        }
    }

    // The last place up to which no version, removal or cloud of the object begins behind this one: it may only
    // be in states that it may be in here.
    pub(crate) fn still_until(&self, key: &ObjectKey, place: u64, high: u64) -> u64
        requires { place ≤ high }
        ensures { IsLast (IsStill self.now key.now place) place high result }
    {
        let unbegun = self.unbegun_until(key, place, high);
        let unremoved = self.unremoved_until(key, place, high);
        let clear = self.clear_until(key, place, high);
        unbegun.min(unremoved).min(clear)
    }
}
