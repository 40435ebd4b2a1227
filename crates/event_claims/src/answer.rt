ghost use Rattle.std.specs.Prelude.{◌≡◌, ℕ, IfOk};
ghost use Rattle.event_claims.specs.Cases.{IsCaseOf};
ghost use Rattle.event_claims.specs.Standing.{HasAnswerCode};
ghost use Rattle.event_claims.specs.Verdicts.{IsVerdict};
ghost use Rattle.event_claims.specs.Views.{IsViewOf};
ghost use Rattle.event_claims.specs.Words.{IsSaid};
ghost use Rattle.history_model.specs.Events.{Event};
ghost use Rattle.history_model.specs.Exact.{SometimesHolds};
ghost use Rattle.history_model.specs.Histories.{History};
ghost use Rattle.history_model.specs.Readable.{IsReadable};
ghost use Rattle.history_model.specs.Words.{word as event_word};
ghost use Rattle.local_bounds.specs.Asked.{IsAskingOf};
ghost use Rattle.local_bounds.specs.Known.{IsWindowOf};
ghost use Rattle.write_groups.specs.Modelled.{answer_of, event_of};

use crate::case::Case;
use crate::verdict::reason_of;
use crate::view::{Decisions, View};
use crate::word::Word;
use base_types::{OutOfMemory, Reason};
use local_bounds::{BoundDemand, Known, Listable, asking_of};
use std::alloc::Global;
use write_groups::{Shown, Window};

/// What the answer of the event asks: nothing where it doesn't stand at a place of the window.
pub fn asking_in<L: Listable, D: Decisions>(
    alloc: Global,
    view: &View<'_, L, D>,
    case: Case<'_>,
    word: Word,
    window: Window,
) -> Result<BoundDemand, OutOfMemory>
    ensures { IfOk result
        (λ asking. (h : History) → IsViewOf L.listable D.decides view.now h → IsCaseOf h case.entry
        → IsSaid h (event_word h case.entry.number (event_of case.entry.event.now)) word
        → IsWindowOf h (event_of case.entry.event.now) window
        → IsAskingOf h case.entry.number (event_of case.entry.event.now) asking) }
{
    let Word::At = word else {
        return Ok(BoundDemand::Free);
    };
    let known = Known {
        past: view.past,
        clouds: view.clouds,
    };
    asking_of(
        alloc,
        known,
        view.lists,
        window,
        case.number,
        case.event,
        case.fault,
    )
}

/// The code of an answer that no choice makes right.
pub fn answer_fault(asking: &BoundDemand, answer: &Shown) -> Option<Reason>
    ensures { (h : History) (number : ℕ) (event : Event) → IsReadable h
        → event.answer ≡ answer_of answer.now
        → IsAskingOf h number event asking.now
        → IsVerdict (SometimesHolds h number event) (HasAnswerCode h number event) result }
{
    match asking {
        BoundDemand::Free => None,
        BoundDemand::Under(_) => None,
        BoundDemand::Never => Some(reason_of(answer)),
    }
}
