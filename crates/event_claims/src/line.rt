ghost use Rattle.std.specs.Prelude.{◌≡◌, ◌<◌, ◌↔◌, ℕ, length, slice_index, IfOk, IsTrue};
ghost use Rattle.base_types.specs.Choices.{IsChoice};
ghost use Rattle.event_claims.specs.Cases.{IsCaseOf, IsFaultAt};
ghost use Rattle.event_claims.specs.Decided.{IsDecided};
ghost use Rattle.event_claims.specs.Lines.{IsAnswered, IsLineWith, IsLined};
ghost use Rattle.event_claims.specs.Standing.{IsOfPolicy};
ghost use Rattle.event_claims.specs.Views.{IsViewOf};
ghost use Rattle.event_claims.specs.Words.{IsSaid};
ghost use Rattle.history_model.specs.Events.{Event};
ghost use Rattle.history_model.specs.Histories.{History, IsEvent, ranges};
ghost use Rattle.history_model.specs.Local.{IsFixedBy};
ghost use Rattle.history_model.specs.Words.{word as event_word, At};
ghost use Rattle.local_bounds.specs.Known.{IsWindowOf};
ghost use Rattle.write_groups.specs.Modelled.{event_of};

use crate::case::Case;
use crate::claim::fixed_fault;
use crate::decided::{Decided, decided_of};
use crate::view::{Decisions, View};
use crate::word::{Word, word_of};
use base_types::{OutOfMemory, PlacedAnswer, PlacedLine, Reason};
use local_bounds::{Known, Listable, place_of};
use std::alloc::Global;
use write_groups::{Window, window_of};

// Whether the event is of the policy, and what it is in a placement has no fault.
fn is_fixed_right<L: Listable, D: Decisions>(
    view: &View<'_, L, D>,
    case: Case<'_>,
    word: Word,
) -> bool
    ensures { (h : History) → IsViewOf L.listable D.decides view.now h → IsCaseOf h case.entry
        → IsSaid h (event_word h case.entry.number (event_of case.entry.event.now)) word
        → IsTrue result ↔ (IsOfPolicy (event_of case.entry.event.now) × IsFixedBy h
        (event_of case.entry.event.now)
        (event_word h case.entry.number (event_of case.entry.event.now))) }
{
    fixed_fault(view, case, word).is_none()
}

// The place of the range at this position.
fn place_at(choice: &[u64], position: u32) -> u64
    ensures { result ≡ slice_index choice.now position }
{
    choice.get(position as usize).copied().unwrap_or(0)
}

// The least place at which the answer is right.
fn least_place<L: Listable, D: Decisions>(
    alloc: Global,
    view: &View<'_, L, D>,
    case: Case<'_>,
    window: Window,
    choice: &[u64],
) -> Result<Option<PlacedAnswer>, OutOfMemory>
    ensures { IfOk result
        (λ found. (h : History) → IsViewOf L.listable D.decides view.now h → IsCaseOf h case.entry
        → IsWindowOf h (event_of case.entry.event.now) window
        → event_word h case.entry.number (event_of case.entry.event.now) ≡ At
        → IsChoice (ranges h) choice.now → IsAnswered h choice.now case.entry.number
        (event_of case.entry.event.now) found) }
{
    let known = Known {
        past: view.past,
        clouds: view.clouds,
    };
    match place_of(
        alloc,
        known,
        view.lists,
        window,
        case.number,
        case.event,
        case.fault,
        choice,
    )? {
        Some(place) => Ok(Some(PlacedAnswer::At(place))),
        None => Ok(None),
    }
}

// Where a placement with this choice puts the answer.
fn placed_answer<L: Listable, D: Decisions>(
    alloc: Global,
    view: &View<'_, L, D>,
    case: Case<'_>,
    word: Word,
    window: Window,
    choice: &[u64],
) -> Result<Option<PlacedAnswer>, OutOfMemory>
    ensures { IfOk result
        (λ found. (h : History) → IsViewOf L.listable D.decides view.now h → IsCaseOf h case.entry
        → IsWindowOf h (event_of case.entry.event.now) window
        → IsSaid h (event_word h case.entry.number (event_of case.entry.event.now)) word
        → IsChoice (ranges h) choice.now → IsAnswered h choice.now case.entry.number
        (event_of case.entry.event.now) found) }
{
    match word {
        Word::Makes(revision) => Ok(Some(PlacedAnswer::Made(revision))),
        Word::Removes(position) => Ok(Some(PlacedAnswer::Removed(place_at(choice, position)))),
        Word::At => least_place(alloc, view, case, window, choice),
        Word::Strays => Ok(Some(PlacedAnswer::Nowhere)),
        Word::Nothing => Ok(Some(PlacedAnswer::Nowhere)),
    }
}

// The line with this answer, where the decision could be given.
fn line_with(line: u64, answer: PlacedAnswer, decided: Decided) -> Option<PlacedLine>
    ensures { (h : History) (number : ℕ) (event : Event) → IsDecided h number event decided
        → IsLineWith h number event line answer result }
{
    match decided {
        Decided::Unasked => Some(PlacedLine {
            line,
            answer,
            decision: None,
        }),
        Decided::Impossible => None,
        Decided::Given(placed) => Some(PlacedLine {
            line,
            answer,
            decision: Some(placed),
        }),
    }
}

fn line_in<L: Listable, D: Decisions>(
    alloc: Global,
    view: &View<'_, L, D>,
    case: Case<'_>,
    choice: &[u64],
) -> Result<Option<PlacedLine>, OutOfMemory>
    ensures { IfOk result
        (λ found. (h : History) → IsViewOf L.listable D.decides view.now h → IsCaseOf h case.entry
        → IsChoice (ranges h) choice.now → IsLined h choice.now case.entry.number
        (event_of case.entry.event.now) found) }
{
    let window = window_of(view.windows, view.start, case.event);
    let word = word_of(view.past, view.start, case.number, case.event);
    if !is_fixed_right(view, case, word) {
        return Ok(None);
    }
    let placed = placed_answer(alloc, view, case, word, window, choice)?;
    let Some(answer) = placed else {
        return Ok(None);
    };
    let decided = decided_of(view, case.number, case.event);
    Ok(line_with(case.event.line, answer, decided))
}

/// The line of the event of this number under a choice of one place for each removal: its least place, and the least
/// four places of its decision; None where the event isn't right under the choice. `fault` is as for `claim_of`.
pub fn placed_line<L: Listable, D: Decisions>(
    alloc: Global,
    view: &View<'_, L, D>,
    event: u32,
    fault: Option<Reason>,
    choice: &[u64],
) -> Result<Option<PlacedLine>, OutOfMemory>
    requires { event < length view.now.log.now }
    ensures { IfOk result
        (λ found. (h : History) (e : Event) → IsViewOf L.listable D.decides view.now h
        → IsFaultAt h event fault
        → IsEvent h event e → IsChoice (ranges h) choice.now → IsLined h choice.now event e found) }
{
    let case = Case {
        number: event,
        event: &view.log[event as usize],
        fault,
    };
    line_in(alloc, view, case, choice)
}
