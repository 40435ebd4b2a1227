ghost use Rattle.std.specs.Prelude.{◌≡◌, option_map};
ghost use Rattle.history_model.specs.Histories.{History};
ghost use Rattle.local_bounds.specs.Known.{IsPastOf};
ghost use Rattle.local_bounds.specs.Standings.{IsStanding, ask_of, standing_version};

use crate::asking::KeyDemand;
use base_types::{Bound, ObjectKey};
use object_past::{Past, Version};

/// What is known of an object at a place, before the removals' places are chosen.
#[derive(Clone, Copy)]
pub enum Standing<'a> {
    /// It is absent whatever is chosen.
    Absent,
    /// It is present whatever is chosen.
    Present(&'a Version),
    /// It is gone under one bound, and there under the other.
    Leaving {
        version: &'a Version,
        gone: Bound,
        there: Bound,
    },
}

/// What is known of the key's object at the place.
pub fn standing_at<'a>(past: &'a Past, key: &ObjectKey, place: u64) -> Standing<'a>
    ensures { (h : History) → IsPastOf past.now h → IsStanding h key.now place result }
{
    let Some(version) = past.latest(key, place) else {
        return Standing::Absent;
    };
    let Some(position) = past.removal_of(version.revision.get()) else {
        return Standing::Present(version);
    };
    let range = past.ranges()[position as usize];
    if place < range.low {
        return Standing::Present(version);
    }
    if range.high <= place {
        return Standing::Absent;
    }
    Standing::Leaving {
        version,
        gone: Bound {
            range: position,
            low: range.low,
            high: place,
        },
        there: Bound {
            range: position,
            low: place + 1,
            high: range.high,
        },
    }
}

impl<'a> Standing<'a> {
    /// The version that is there, if any is.
    pub fn version(self) -> Option<&'a Version>
        ensures { option_map (λ v. v.now) result ≡ standing_version self.entry }
    {
        match self {
            Standing::Absent => None,
            Standing::Present(version) => Some(version),
            Standing::Leaving { version, .. } => Some(version),
        }
    }

    /// What is asked where the absent object, and the present one, fit so.
    pub fn ask(self, if_absent: bool, if_present: bool) -> KeyDemand
        ensures { result ≡ ask_of self.entry if_absent if_present }
    {
        match self {
            Standing::Absent => KeyDemand::settled(if_absent),
            Standing::Present(_) => KeyDemand::settled(if_present),
            Standing::Leaving { gone, there, .. } => {
                if if_absent && if_present {
                    return KeyDemand::Free;
                }
                if if_absent {
                    return KeyDemand::Under(gone);
                }
                if if_present {
                    return KeyDemand::Under(there);
                }
                KeyDemand::Never
            }
        }
    }
}
