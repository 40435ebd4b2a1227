ghost use Rattle.std.specs.Prelude.{ℕ};
ghost use Rattle.history_model.specs.Histories.{History};
ghost use Rattle.local_bounds.specs.Subjects.{IsSubject, IsFindingOf, IsFoundSight};
ghost use Rattle.write_groups.specs.Modelled.{event_of};

use crate::sight::Sight;
use base_types::{ObjectKey, Reason};
use write_groups::{Item, Listing, LogEvent, Shown};

/// What an answer is about.
#[derive(Clone, Copy)]
pub enum Subject<'a> {
    /// It is right where the key is clouded, and where the object is so.
    Object {
        key: &'a ObjectKey,
        sight: Sight<'a>,
    },
    List(&'a Listing),
    /// It has nothing to be right about.
    Nothing,
}

// A write that could not have found its revision is right at clouded places alone.
fn found_sight(item: &Item, finding: Option<Reason>) -> Sight<'_>
    ensures { IsFoundSight item.now finding result }
{
    match finding {
        Some(_) => Sight::Nowhere,
        None => Sight::Shown(item),
    }
}

/// What the answer of an event is about. `finding` is why a write could not have found its revision.
pub fn subject_of(event: &LogEvent, finding: Option<Reason>) -> Subject<'_>
    ensures { (h : History) (number : ℕ) → IsFindingOf h number (event_of event.now) finding
        → IsSubject h number (event_of event.now) result }
{
    match &event.answer {
        Shown::Made { item, .. } => Subject::Object {
            key: &item.key,
            sight: found_sight(item, finding),
        },
        Shown::Removed { key, .. } => Subject::Object {
            key,
            sight: Sight::Nowhere,
        },
        Shown::Opaque { .. } => Subject::Nothing,
        Shown::Saw { item } => Subject::Object {
            key: &item.key,
            sight: Sight::Shown(item),
        },
        Shown::SawNone { key } => Subject::Object {
            key,
            sight: Sight::Gone,
        },
        Shown::SawSome { key } => Subject::Object {
            key,
            sight: Sight::There,
        },
        Shown::SawOther { key } => Subject::Object {
            key,
            sight: Sight::Refused(&event.preconditions),
        },
        Shown::Listed { listing } => Subject::List(listing),
        Shown::Free => Subject::Nothing,
        Shown::Aside => Subject::Nothing,
    }
}
