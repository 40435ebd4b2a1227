ghost use Rattle.std.specs.Prelude.{◌≡◌, ◌↔◌, ℕ, ◌-◌, Some, IfSome, IsTrue, slice_get};
ghost use Rattle.event_claims.specs.Standing.{IsOfPolicy, HasPolicyCode, HasWordCode, HasFoundCode};
ghost use Rattle.event_claims.specs.Verdicts.{IsVerdict};
ghost use Rattle.event_claims.specs.Words.{IsSaid};
ghost use Rattle.history_model.specs.Clouds.{IsCloudedWithin};
ghost use Rattle.history_model.specs.Histories.{History, IsEvent};
ghost use Rattle.history_model.specs.Local.{IsFixedBy};
ghost use Rattle.history_model.specs.Machine.{MeetsPreconditions};
ghost use Rattle.history_model.specs.Words.{word as event_word, Removes};
ghost use Rattle.history_model.specs.Events.{Event, Made};
ghost use Rattle.local_bounds.specs.Known.{IsPastOf, HasClouds, IsWindowOf};
ghost use Rattle.object_past.specs.Faulted.{IsFaultOf};
ghost use Rattle.object_past.specs.Modelled.{recorded};
ghost use Rattle.write_groups.specs.Modelled.{event_of};

use crate::word::Word;
use base_types::{ObjectKey, Reason, Revision, Text};
use clouds::Clouds;
use local_bounds::Known;
use object_past::{Removal, removal_at};
use write_groups::{LogEvent, Shown, Window};

/// The code of an event whose level or stage isn't the policy's.
pub fn policy_fault(event: &LogEvent) -> Option<Reason>
    ensures { IsVerdict (IsOfPolicy (event_of event.now)) (HasPolicyCode (event_of event.now))
        result }
{
    if event.other_level {
        return Some(Reason::U1);
    }
    if event.omitted_stage {
        return Some(Reason::U2);
    }
    None
}

// Whether the key is clouded somewhere from `low` to `high`.
fn is_clouded_within(clouds: &Clouds, key: &ObjectKey, low: u64, high: u64) -> bool
    ensures { (h : History) → HasClouds clouds.now h
        → IsTrue result ↔ IsCloudedWithin h key.now low high }
{
    clouds.meets(key, low, high).is_some()
}

fn asks_uid(wanted: Option<&Text>, uid: &Text) -> bool
    ensures { IsTrue result ↔ IfSome wanted.entry (λ text. text.now ≡ uid.now) }
{
    match wanted {
        Some(wanted) => *wanted == *uid,
        None => true,
    }
}

// Whether the removal's conditions are met. What its key was at its range's beginning may be hidden.
fn meets_preconditions(clouds: &Clouds, event: &LogEvent, removal: &Removal) -> bool
    ensures { (h : History) → HasClouds clouds.now h
        → IsTrue result
        ↔ MeetsPreconditions h (event_of event.now) (recorded removal.now) removal.now.last }
{
    if !asks_uid(event.preconditions.uid.as_ref(), &removal.uid) {
        return false;
    }
    let Some(wanted) = event.preconditions.revision else {
        return true;
    };
    if wanted == removal.last {
        return true;
    }
    let range = removal.range;
    is_clouded_within(
        clouds,
        &removal.key,
        range.low.saturating_sub(1),
        range.high,
    )
}

// The code of a removal whose conditions aren't met.
fn removal_fault(known: Known<'_>, event: &LogEvent, position: u32) -> Option<Reason>
    ensures { (h : History) (removal : _) → IsPastOf known.entry.past.now h
        → HasClouds known.entry.clouds.now h → slice_get h.removals position ≡ Some removal
        → IsVerdict (IsFixedBy h (event_of event.now) (Removes removal))
        (HasWordCode h (event_of event.now)
        (Removes removal)) result }
{
    let Some(removal) = removal_at(known.past.removals(), position) else {
        return None;
    };
    if meets_preconditions(known.clouds, event, removal) {
        return None;
    }
    Some(Reason::U7)
}

/// The code of a write that can't have been made or that strays, and of a removal whose conditions aren't met.
/// `fault` is the recorded one.
pub fn word_fault(
    known: Known<'_>,
    event: &LogEvent,
    word: Word,
    fault: Option<Reason>,
) -> Option<Reason>
    ensures { (h : History) (number : ℕ) → IsPastOf known.entry.past.now h
        → HasClouds known.entry.clouds.now h
        → IsEvent h number (event_of event.now) → IsFaultOf h number (event_of event.now) fault
        → IsSaid h (event_word h number (event_of event.now)) word
        → IsVerdict (IsFixedBy h (event_of event.now) (event_word h number (event_of event.now)))
        (HasWordCode h (event_of event.now) (event_word h number (event_of event.now))) result }
{
    match word {
        Word::Makes(_) => fault,
        Word::Removes(position) => removal_fault(known, event, position),
        Word::At => None,
        Word::Strays => Some(Reason::U3),
        Word::Nothing => None,
    }
}

// Whether the object of the answer of a write is clouded somewhere in the window.
fn is_hidden(clouds: &Clouds, event: &LogEvent, window: Window) -> bool
    ensures { (h : History) (item : _) (created : _) → HasClouds clouds.now h
        → (event_of event.now).answer ≡ Made item created
        → IsTrue result ↔ IsCloudedWithin h item.key window.low window.high }
{
    match &event.answer {
        Shown::Made { item, created: _ } => is_clouded_within(
            clouds,
            &item.key,
            window.low,
            window.high,
        ),
        _ => false,
    }
}

/// The code of a write that could not have found its revision, unless a cloud hides that. `fault` is the recorded one.
pub fn finding_fault(
    clouds: &Clouds,
    event: &LogEvent,
    window: Window,
    word: Word,
    fault: Option<Reason>,
) -> Option<Reason>
    ensures { (h : History) (number : ℕ) → HasClouds clouds.now h
        → IsWindowOf h (event_of event.now) window
        → IsFaultOf h number (event_of event.now) fault
        → IsSaid h (event_word h number (event_of event.now)) word
        → IsVerdict (Unit {0}) (HasFoundCode h number (event_of event.now)) result }
{
    let Word::At = word else {
        return None;
    };
    if is_hidden(clouds, event, window) {
        return None;
    }
    fault
}
