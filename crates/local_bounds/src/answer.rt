ghost use Rattle.std.specs.Prelude.{◌≡◌, IfOk};
ghost use Rattle.history_model.specs.Histories.{History};
ghost use Rattle.history_model.specs.Words.{At, word};
ghost use Rattle.local_bounds.specs.Asked.{IsAskingOf, asking_from};
ghost use Rattle.local_bounds.specs.Known.{IsKnownBy, HasSelectors, IsWindowOf};
ghost use Rattle.local_bounds.specs.Subjects.{IsFindingOf};
ghost use Rattle.write_groups.specs.Modelled.{event_of};

use crate::asking::{BoundDemand, KeyDemand};
use crate::known::{Known, Listable};
use crate::listing::list_asking;
use crate::object::object_asking;
use crate::subject::{Subject, subject_of};
use base_types::{Bounds, OutOfMemory, Reason};
use std::alloc::Global;
use write_groups::{LogEvent, Window};

// What is asked of one object, as all that is asked.
fn asking_from(alloc: Global, asking: KeyDemand) -> Result<BoundDemand, OutOfMemory>
    ensures { IfOk result (λ made. made ≡ asking_from asking) }
{
    match asking {
        KeyDemand::Free => Ok(BoundDemand::Free),
        KeyDemand::Under(bound) => {
            let mut bounds = Bounds::new(alloc);
            bounds.push(bound)?;
            Ok(BoundDemand::Under(bounds))
        }
        KeyDemand::Never => Ok(BoundDemand::Never),
    }
}

/// What the answer of the event of this number asks of the removals' places, `window` being the event's, and `finding`
/// why it could not have found its revision, where it is a write. It holds of events whose answers stand at a place:
/// reads, writes that found their revision, and removals without a range.
pub fn asking_of<L: Listable>(
    alloc: Global,
    known: Known<'_>,
    lists: &L,
    window: Window,
    number: u32,
    event: &LogEvent,
    finding: Option<Reason>,
) -> Result<BoundDemand, OutOfMemory>
    ensures { IfOk result
        (λ asking. (h : History) → IsKnownBy known.entry.past.now known.entry.clouds.now h
        → HasSelectors (L.listable lists.now) h
        → IsWindowOf h (event_of event.now) window
        → IsFindingOf h number (event_of event.now) finding
        → word h number (event_of event.now) ≡ At
        → IsAskingOf h number (event_of event.now) asking) }
{
    match subject_of(event, finding) {
        Subject::Object { key, sight } => {
            asking_from(alloc, object_asking(known, key, sight, window))
        }
        Subject::List(listing) => list_asking(alloc, known, lists, window, number, listing),
        Subject::Nothing => Ok(BoundDemand::Free),
    }
}
