ghost use Rattle.std.specs.Prelude.{◌≡◌, ◌↔◌, IfSome, IfNone, IsTrue, option_map, slice_get};
ghost use Rattle.history_model.specs.Histories.{History, Removal};
ghost use Rattle.history_model.specs.Incarnations.{IsFirstWithUid, IsRemovalBehind, place_before};
ghost use Rattle.history_model.specs.Judging.{IsOrder};
ghost use Rattle.write_groups.specs.Modelled.{HasEvents, HasTimes};
ghost use Rattle.object_past.specs.Modelled.{version_of};
ghost use Rattle.past_building.specs.Modelled.{removal_of};
ghost use Rattle.past_building.specs.Removals.{AreFirstRemovals};
ghost use Rattle.past_building.specs.Surrounded.{HasLog};

use crate::removed::{Removed, first_removal};
use base_types::{Range, Revision};
use object_past::Version;
use time_windows::Windows;
use write_groups::{LogEvent, highest, lowest};

// The last place before the next incarnation.
fn place_before(next: Option<Revision>) -> u64
    ensures { result ≡ place_before next }
{
    match next {
        Some(next) => next.get() - 1,
        None => u64::MAX,
    }
}

fn event_at(events: &[LogEvent], number: u32) -> Option<&LogEvent>
    ensures { option_map (λ event. event.now) result ≡ slice_get events.now number }
{
    events.get(number as usize)
}

/// At which places the object of a version may have been removed, the version being the last of its incarnation and
/// `next` the first revision of the next one; None where it wasn't removed. `is_first` tells whether the incarnation
/// is the first of its key with its uid.
pub fn range_behind(
    windows: &Windows,
    events: &[LogEvent],
    removed: &Removed,
    version: &Version,
    is_first: bool,
    next: Option<Revision>,
) -> Option<Range>
    ensures some { IfSome result
        (λ range. (h : History) → HasLog windows.now events.now removed.now h
        → (IsTrue is_first ↔ IsFirstWithUid h.versions (version_of version.now))
        → IsRemovalBehind h (version_of version.now) next (removal_of version.now range)) }
    ensures none { IfNone result
        ((h : History) (removal : Removal) → HasLog windows.now events.now removed.now h
        → (IsTrue is_first ↔ IsFirstWithUid h.versions (version_of version.now))
        → IsRemovalBehind h (version_of version.now) next removal → ⊥) }
{
    if !is_first {
        return None;
    }
    let number = first_removal(removed, &version.key, &version.uid)?;
    let event = event_at(events, number)?;
    let before = lowest(windows, event.lo).max(version.revision.get());
    let high = highest(windows, event.hi).min(place_before(next));
    if high <= before {
        return None;
    }
    Some(Range {
        event: number,
        low: before + 1,
        high,
    })
}
