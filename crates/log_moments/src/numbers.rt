ghost use Rattle.std.specs.Prelude.{◌≡◌, ◌<◌, ◌≤◌, ◌+◌, ◌*◌, ◌↔◌, ℕ, Option, Some, IsTrue, option_and_then};
ghost use Rattle.std.specs.Prelude.{option_map, slice_get};
ghost use Rattle.history_model.specs.Clouds.{IsCloudedWithin};
ghost use Rattle.history_model.specs.Histories.{History};
ghost use Rattle.history_model.specs.Words.{word};
ghost use Rattle.log_moments.specs.Nexts.{number_before};
ghost use Rattle.log_moments.specs.Things.{HasNumbers, ShowsList, ShowsVersion, greatest_for, no_end};
ghost use Rattle.log_moments.specs.Views.{AreNumbers, IsLogViewOf};
ghost use Rattle.past_building.specs.Modelled.{AreCloudsOf};
ghost use Rattle.write_groups.specs.Modelled.{event_of, item_of, listing_of, reading_of};

use crate::nexts::position_of;
use crate::standing::{RevisionStanding, standing_of};
use crate::view::LogView;
use base_types::{ObjectKey, Revision};
use clouds::Clouds;
use object_past::Version;
use write_groups::{Item, Listing, LogEvent, Reading, Window, window_of};

/// The least and the greatest number at which a thing may stand: the write of revision m is the number 2m, the gap
/// between it and the next write 2m + 1.
#[derive(Clone, Copy, PartialEq, Eq)]
pub struct NumberRange {
    pub least: u128,
    pub greatest: u128,
}

/// Behind the numbers of all revisions.
const NO_END: u128 = 73_786_976_294_838_206_464;

// A read that asks for no most recent state may be answered of an old one.
fn greatest_for(reading: Reading, last: u128) -> u128
    ensures { result ≡ greatest_for (reading_of reading) last }
{
    match reading {
        Reading::MostRecent => last,
        Reading::AnyVersion => NO_END,
        Reading::NotOlderThan(_) => NO_END,
        Reading::Exactly(_) => NO_END,
        Reading::Checkpoint(_) => last,
    }
}

// The number of the gap behind a revision.
fn gap_number(revision: Revision) -> u128
    ensures gap { result ≡ 2 * revision + 1 }
    ensures before_end { result < no_end }
{
    2 * u128::from(revision.get()) + 1
}

// The number of the gap before the next version.
fn number_before(next: Option<&Version>) -> u128
    ensures { result ≡ number_before (option_map (λ v. v.now) next.entry) }
{
    match next {
        Some(version) => 2 * u128::from(version.revision.get()) - 1,
        None => NO_END,
    }
}

// The next version of the key of the version at this position.
fn next_of<'a>(
    versions: &'a [Version],
    nexts: &[Option<usize>],
    position: usize,
) -> Option<&'a Version>
    ensures { (next : Option ℕ) → slice_get nexts.now position ≡ Some next
        → option_map (λ v. v.now) result ≡ option_and_then (slice_get versions.now) next }
{
    let next = *nexts.get(position)?;
    versions.get(next?)
}

// Whether the key is clouded somewhere in the window.
fn is_clouded_within(clouds: &Clouds, key: &ObjectKey, window: Window) -> bool
    ensures { (h : History) → AreCloudsOf clouds.now h → IsTrue result
        ↔ IsCloudedWithin h key.now window.low window.high }
{
    clouds.meets(key, window.low, window.high).is_some()
}

// An answer that shows a version stands behind the version's write, and before the next one of its key.
fn shown_numbers(view: &LogView<'_>, event: &LogEvent, item: &Item) -> Option<NumberRange>
    ensures { (h : History) → IsLogViewOf view.now h
        → AreNumbers (ShowsVersion h (event_of event.now) (item_of item.now)) result }
{
    let window = window_of(view.windows, view.start, event);
    if is_clouded_within(view.clouds, &item.key, window) {
        return None;
    }
    let versions = view.past.versions();
    let position = position_of(versions, item)?;
    let next = next_of(versions, view.nexts, position);
    Some(NumberRange {
        least: gap_number(item.revision),
        greatest: greatest_for(event.reading, number_before(next)),
    })
}

// A list stands in the gap behind its revision.
fn list_numbers(event: &LogEvent, listing: &Listing) -> NumberRange
    ensures shown { ShowsList (event_of event.now) (listing_of listing.now) result }
    ensures order { result.least ≤ result.greatest }
{
    let gap = gap_number(listing.revision);
    NumberRange {
        least: gap,
        greatest: greatest_for(event.reading, gap),
    }
}

// The write of a revision stands at its number.
fn write_numbers(revision: u64) -> NumberRange
    ensures least { result.least ≡ 2 * revision }
    ensures greatest { result.greatest ≡ 2 * revision }
{
    let number = 2 * u128::from(revision);
    NumberRange {
        least: number,
        greatest: number,
    }
}

/// The numbers of the event of this number, where it is a thing.
pub fn numbers_of(view: &LogView<'_>, number: usize, event: &LogEvent) -> Option<NumberRange>
    ensures { (h : History) → IsLogViewOf view.now h
        → AreNumbers (HasNumbers h (event_of event.now) (event_of event.now).answer (word h number
        (event_of event.now))) result }
{
    match standing_of(view.past, view.start, number, event) {
        RevisionStanding::Writes(revision) => Some(write_numbers(revision)),
        RevisionStanding::Shows(item) => shown_numbers(view, event, item),
        RevisionStanding::Lists(listing) => Some(list_numbers(event, listing)),
        RevisionStanding::Nowhere => None,
    }
}
