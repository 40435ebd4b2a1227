ghost use Rattle.std.specs.Prelude.{◌≡◌, ◌<◌, ◌⊎◌, ◌↔◌, ℕ, List, None, length, All, IfOk};
ghost use Rattle.base_types.specs.Choices.{IsChoice, MeetsAll};
ghost use Rattle.base_types.specs.declared.verdict.claim.Claim.{Claim};
ghost use Rattle.event_claims.specs.Cases.{IsCaseOf, IsFaultAt};
ghost use Rattle.event_claims.specs.Standing.{IsOfPolicy, HasPolicyCode, HasWordCode};
ghost use Rattle.event_claims.specs.Verdicts.{IsVerdict};
ghost use Rattle.event_claims.specs.Views.{IsViewOf};
ghost use Rattle.event_claims.specs.Words.{IsSaid};
ghost use Rattle.history_model.specs.Events.{Event};
ghost use Rattle.history_model.specs.Exact.{IsExactClaim, IsFailure};
ghost use Rattle.history_model.specs.Histories.{History, IsEvent, ranges};
ghost use Rattle.history_model.specs.Local.{IsFixedBy, IsRightUnder};
ghost use Rattle.history_model.specs.Words.{word as event_word};
ghost use Rattle.local_bounds.specs.Asked.{AreDeciding, IsAskingOf};
ghost use Rattle.local_bounds.specs.Known.{IsWindowOf};
ghost use Rattle.write_groups.specs.Modelled.{event_of};

use crate::answer::{answer_fault, asking_in};
use crate::case::Case;
use crate::decided::{decided_of, decision_fault};
use crate::standing::{finding_fault, policy_fault, word_fault};
use crate::verdict::{lesser, reason_of};
use crate::view::{Decisions, View};
use crate::word::{Word, word_of};
use base_types::{Claim, OutOfMemory, Reason};
use local_bounds::{BoundDemand, Known, Listable};
use std::alloc::Global;
use write_groups::{Window, window_of};

/// The least code of the policy, or of what the event is in a placement.
pub fn fixed_fault<L: Listable, D: Decisions>(
    view: &View<'_, L, D>,
    case: Case<'_>,
    word: Word,
) -> Option<Reason>
    ensures { (h : History) → IsViewOf L.listable D.decides view.now h → IsCaseOf h case.entry
        → IsSaid h (event_word h case.entry.number (event_of case.entry.event.now)) word
        → IsVerdict (IsOfPolicy (event_of case.entry.event.now)
        × IsFixedBy h (event_of case.entry.event.now)
        (event_word h case.entry.number (event_of case.entry.event.now)))
        (λ code. HasPolicyCode (event_of case.entry.event.now) code ⊎ HasWordCode h
        (event_of case.entry.event.now)
        (event_word h case.entry.number (event_of case.entry.event.now))
        code) result }
{
    let known = Known {
        past: view.past,
        clouds: view.clouds,
    };
    let by_word = word_fault(known, case.event, word, case.fault);
    lesser(policy_fault(case.event), by_word)
}

// The least code that the event has under every choice.
fn failure_of<L: Listable, D: Decisions>(
    view: &View<'_, L, D>,
    case: Case<'_>,
    word: Word,
    window: Window,
    asking: &BoundDemand,
) -> Option<Reason>
    ensures { (h : History) → IsViewOf L.listable D.decides view.now h → IsCaseOf h case.entry
        → IsSaid h (event_word h case.entry.number (event_of case.entry.event.now)) word
        → IsWindowOf h (event_of case.entry.event.now) window
        → IsAskingOf h case.entry.number (event_of case.entry.event.now) asking.now
        → IsFailure h case.entry.number (event_of case.entry.event.now) result }
{
    let fixed = fixed_fault(view, case, word);
    let finding = finding_fault(view.clouds, case.event, window, word, case.fault);
    let answer = answer_fault(asking, &case.event.answer);
    let decision = decision_fault(decided_of(view, case.number, case.event));
    let standing = lesser(fixed, finding);
    let answered = lesser(answer, decision);
    lesser(standing, answered)
}

fn claim_in<L: Listable, D: Decisions>(
    alloc: Global,
    view: &View<'_, L, D>,
    case: Case<'_>,
) -> Result<Claim, OutOfMemory>
    ensures exact { IfOk result (λ claim. (h : History) → IsViewOf L.listable D.decides view.now h
        → IsCaseOf h case.entry
        → IsExactClaim h case.entry.number (event_of case.entry.event.now) claim) }
    ensures deciding { IfOk result
        (λ claim. (h : History) → IsViewOf L.listable D.decides view.now h
        → IsCaseOf h case.entry
        → AreDeciding h claim.bounds) }
{
    let window = window_of(view.windows, view.start, case.event);
    let word = word_of(view.past, view.start, case.number, case.event);
    let asking = asking_in(alloc, view, case, word, window)?;
    let fails = failure_of(view, case, word, window, &asking);
    let reason = reason_of(&case.event.answer);
    Ok(Claim {
        fails,
        bounds: asking.into_bounds(alloc),
        reason,
    })
}

/// What the event of this number asks of the choice of the removals' places. `fault` is why it could not have made its
/// revision, or could not have found it, where it is a write.
pub fn claim_of<L: Listable, D: Decisions>(
    alloc: Global,
    view: &View<'_, L, D>,
    event: u32,
    fault: Option<Reason>,
) -> Result<Claim, OutOfMemory>
    requires { event < length view.now.log.now }
    ensures exact { IfOk result
        (λ claim. (h : History) (e : Event) → IsViewOf L.listable D.decides view.now h
        → IsFaultAt h event fault
        → IsEvent h event e → IsExactClaim h event e claim) }
    ensures deciding { IfOk result
        (λ claim. (h : History) → IsViewOf L.listable D.decides view.now h
        → IsFaultAt h event fault → AreDeciding h claim.bounds) }
    ensures ranges { IfOk result (λ claim. (h : History) → IsViewOf L.listable D.decides view.now h
        → IsFaultAt h event fault
        → All (λ bound. bound.range < length (ranges h)) claim.bounds) }
{
    let case = Case {
        number: event,
        event: &view.log[event as usize],
        fault,
    };
    claim_in(alloc, view, case)
}

/// An event has one claim.
pub fn one_claim_law()
    ensures { (h : History) (number : ℕ) (event : Event) (a b : Claim)
        → IsExactClaim h number event a
        → IsExactClaim h number event b
        → AreDeciding h a.bounds → AreDeciding h b.bounds → a ≡ b }
{}

/// Local bounds are exact: under a choice an event is right exactly where its claim doesn't fail and the choice meets
/// its bounds.
pub fn local_bounds_law()
    ensures { (h : History) (number : ℕ) (event : Event) (claim : Claim) (choice : List ℕ)
        → IsExactClaim h number event claim → IsChoice (ranges h) choice
        → IsRightUnder h choice number event
        ↔ ((claim.fails ≡ None) × MeetsAll choice claim.bounds) }
{}
