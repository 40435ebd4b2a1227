ghost use Rattle.std.specs.Prelude.{◌≡◌, ◌<◌, ◌≤◌, ◌-◌, ◌⊎◌, ◌↔◌, IfOk, IsTrue};
ghost use Rattle.base_types.specs.Choices.{IsChoice};
ghost use Rattle.clouds.specs.FirstPlace.{IsFirstPlace};
ghost use Rattle.history_model.specs.Clouds.{IsClouded};
ghost use Rattle.history_model.specs.Histories.{History, ranges};
ghost use Rattle.history_model.specs.Right.{IsShown, IsListRight};
ghost use Rattle.history_model.specs.States.{state};
ghost use Rattle.history_model.specs.Words.{At, word};
ghost use Rattle.local_bounds.specs.Known.{IsPastOf, IsKnownBy, HasSelectors, IsWindowOf};
ghost use Rattle.local_bounds.specs.Places.{IsNarrowed, IsLeastRight};
ghost use Rattle.local_bounds.specs.Sights.{IsSeen, IsSeenWithin};
ghost use Rattle.local_bounds.specs.Subjects.{IsFindingOf};
ghost use Rattle.write_groups.specs.Modelled.{event_of, item_of, listing_of};

use crate::known::{Known, Listable};
use crate::listing::list_asking;
use crate::seen::{seen_at, seen_within};
use crate::sight::Sight;
use crate::subject::{Subject, subject_of};
use base_types::{ObjectKey, OutOfMemory, Reason};
use object_past::Past;
use std::alloc::Global;
use write_groups::{Item, Listing, LogEvent, Window};

// Whether under the choice the object is so somewhere from the window's first place to this one.
fn is_seen_upto(
    past: &Past,
    key: &ObjectKey,
    sight: Sight<'_>,
    low: u64,
    high: u64,
    choice: &[u64],
) -> bool
    ensures { (h : History) → IsPastOf past.now h → IsChoice (ranges h) choice.now
        → IsTrue result ↔ IsSeenWithin h choice.now key.now sight.entry low high }
{
    seen_within(past, key, sight, Window { low, high }).holds(choice)
}

// The half of the places in which the object is first so.
fn halved(
    past: &Past,
    key: &ObjectKey,
    sight: Sight<'_>,
    first: u64,
    rest: Window,
    choice: &[u64],
) -> Window
    requires { rest.low < rest.high }
    ensures smaller { result.high - result.low < rest.high - rest.low }
    ensures within { result.high ≤ rest.high }
    ensures narrowed { (h : History) → IsPastOf past.now h → IsChoice (ranges h) choice.now
        → IsNarrowed h choice.now key.now sight.entry first rest
        → IsNarrowed h choice.now key.now sight.entry first result }
{
    let middle = rest.low + (rest.high - rest.low) / 2;
    if is_seen_upto(past, key, sight, first, middle, choice) {
        return Window {
            low: rest.low,
            high: middle,
        };
    }
    Window {
        low: middle + 1,
        high: rest.high,
    }
}

// A shown object is first there at its revision, or at the window's first place.
fn shown_place(
    past: &Past,
    key: &ObjectKey,
    item: &Item,
    window: Window,
    choice: &[u64],
) -> Option<u64>
    ensures { (h : History) → IsPastOf past.now h → IsChoice (ranges h) choice.now
        → IsFirstPlace (λ x. IsShown (item_of item.now) (state h choice.now x key.now)) window.low
        window.high result }
{
    let place = window.low.max(item.revision.get());
    if window.high < place {
        return None;
    }
    if !seen_at(past, key, Sight::Shown(item), place).holds(choice) {
        return None;
    }
    Some(place)
}

// The least place of the window at which the object is so. From the first place up to a place it is so somewhere, or
// nowhere, so that the places are halved.
fn first_by_halves(
    past: &Past,
    key: &ObjectKey,
    sight: Sight<'_>,
    window: Window,
    choice: &[u64],
) -> Option<u64>
    ensures { (h : History) → IsPastOf past.now h → IsChoice (ranges h) choice.now
        → IsFirstPlace (λ x. IsSeen sight.entry (state h choice.now x key.now)) window.low
        window.high result }
{
    if !is_seen_upto(past, key, sight, window.low, window.high, choice) {
        return None;
    }
    let mut rest = window;
    while rest.low < rest.high {
        rest = halved(past, key, sight, window.low, rest, choice);
    }
    Some(rest.low)
}

// The least place of the window at which the object is so.
fn first_seen(
    past: &Past,
    key: &ObjectKey,
    sight: Sight<'_>,
    window: Window,
    choice: &[u64],
) -> Option<u64>
    ensures { (h : History) → IsPastOf past.now h → IsChoice (ranges h) choice.now
        → IsFirstPlace (λ x. IsSeen sight.entry (state h choice.now x key.now)) window.low
        window.high result }
{
    match sight {
        Sight::Gone => first_by_halves(past, key, sight, window, choice),
        Sight::There => first_by_halves(past, key, sight, window, choice),
        Sight::Shown(item) => shown_place(past, key, item, window, choice),
        Sight::Refused(_) => first_by_halves(past, key, sight, window, choice),
        Sight::Nowhere => None,
    }
}

// The least place at which the key is clouded, or the object is so.
fn object_place(
    known: Known<'_>,
    key: &ObjectKey,
    sight: Sight<'_>,
    window: Window,
    choice: &[u64],
) -> Option<u64>
    ensures { (h : History) → IsKnownBy known.entry.past.now known.entry.clouds.now h
        → IsChoice (ranges h) choice.now
        → IsFirstPlace
        (λ x. IsClouded h key.now x ⊎ IsSeen sight.entry (state h choice.now x key.now))
        window.low window.high result }
{
    let Some(clouded) = known.clouds.meets(key, window.low, window.high) else {
        return first_seen(known.past, key, sight, window, choice);
    };
    let before = Window {
        low: window.low,
        high: clouded,
    };
    let seen = first_seen(known.past, key, sight, before, choice);
    if seen.is_some() {
        return seen;
    }
    Some(clouded)
}

// A list stands at its revision alone.
fn list_place<L: Listable>(
    alloc: Global,
    known: Known<'_>,
    lists: &L,
    window: Window,
    number: u32,
    listing: &Listing,
    choice: &[u64],
) -> Result<Option<u64>, OutOfMemory>
    ensures { IfOk result
        (λ place. (h : History) → IsKnownBy known.entry.past.now known.entry.clouds.now h
        → HasSelectors (L.listable lists.now) h
        → IsChoice (ranges h) choice.now
        → IsFirstPlace (λ x. IsListRight h number (listing_of listing.now) x (state h choice.now x))
        window.low window.high place) }
{
    let asking = list_asking(alloc, known, lists, window, number, listing)?;
    if asking.holds(choice) {
        return Ok(Some(listing.revision.get()));
    }
    Ok(None)
}

/// The least place of the event's window at which its answer is right under the choice; None where it is right at none.
pub fn place_of<L: Listable>(
    alloc: Global,
    known: Known<'_>,
    lists: &L,
    window: Window,
    number: u32,
    event: &LogEvent,
    finding: Option<Reason>,
    choice: &[u64],
) -> Result<Option<u64>, OutOfMemory>
    ensures { IfOk result
        (λ place. (h : History) → IsKnownBy known.entry.past.now known.entry.clouds.now h
        → HasSelectors (L.listable lists.now) h
        → IsWindowOf h (event_of event.now) window
        → IsFindingOf h number (event_of event.now) finding
        → word h number (event_of event.now) ≡ At
        → IsChoice (ranges h) choice.now
        → IsLeastRight h choice.now number (event_of event.now) place) }
{
    match subject_of(event, finding) {
        Subject::Object { key, sight } => Ok(object_place(known, key, sight, window, choice)),
        Subject::List(listing) => list_place(alloc, known, lists, window, number, listing, choice),
        Subject::Nothing => Ok(None),
    }
}
