ghost use Rattle.std.specs.Prelude.{◌≡◌, ◌<◌, ◌≤◌, ◌↔◌, All, IfNone, IfSome, IsSomeAnd, IsTrue, option_map};
ghost use Rattle.history_query.specs.Sights.{IsSight};
ghost use Rattle.history_query.specs.Versions.{removal_behind};

use base_types::ObjectKey;
use log_context::Context;
use object_past::{Past, Removal, Version, removal_at};

/// What can be told of an object at a place.
#[derive(Clone, Copy)]
pub enum ObjectSight<'a> {
    /// Nothing: unrecorded writes may have changed it.
    Clouded,
    Told {
        /// The version that may be there.
        present: Option<&'a Version>,
        /// Whether there may be none.
        absent: bool,
    },
}

/// What can be told of the key's object at a place at or above the start.
pub fn sight_of<'a>(context: &'a Context, key: &ObjectKey, place: u64) -> ObjectSight<'a>
    ensures { IsSight context.now key.now place result }
{
    if context.clouds().clouded(key, place) {
        return ObjectSight::Clouded;
    }
    match context.latest(key, place) {
        Some(version) => {
            let removal = removal_behind(context.past(), version);
            ObjectSight::Told {
                present: present_at(version, removal, place),
                absent: may_be_gone(removal, place),
            }
        }
        None => ObjectSight::Told {
            present: None,
            absent: true,
        },
    }
}

/// The removal of the object whose last version this is.
pub fn removal_behind<'a>(past: &'a Past, version: &Version) -> Option<&'a Removal>
    ensures behind { option_map (λ removal. removal.now) result
        ≡ removal_behind past.now.removals version.now }
    ensures alone { IfSome result (λ removal. All (λ other. other.last ≡ version.now.revision
        → other ≡ removal.now) past.now.removals) }
{
    let position = past.removal_of(version.revision.get())?;
    removal_at(past.removals(), position)
}

// The key's latest version, unless it is gone by the place wherever its removal took place.
fn present_at<'a>(
    version: &'a Version,
    removal: Option<&Removal>,
    place: u64,
) -> Option<&'a Version>
    ensures some { IfSome result (λ present. (present.now ≡ version.now) × IfSome removal.entry
        (λ removal. place < removal.now.range.high)) }
    ensures none { IfNone result (IsSomeAnd removal.entry (λ removal. removal.now.range.high
        ≤ place)) }
{
    match removal {
        Some(removal) => {
            if place < removal.range.high {
                Some(version)
            } else {
                None
            }
        }
        None => Some(version),
    }
}

// Whether the removal may have taken place by then.
fn may_be_gone(removal: Option<&Removal>, place: u64) -> bool
    ensures { IsTrue result ↔ IsSomeAnd removal.entry (λ removal. removal.now.range.low ≤ place) }
{
    match removal {
        Some(removal) => removal.range.low <= place,
        None => false,
    }
}
