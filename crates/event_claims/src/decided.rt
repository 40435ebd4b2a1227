ghost use Rattle.std.specs.Prelude.{◌≡◌, ◌^◌, ◌-ℤ◌, ◌≤ℤ◌, neg_ℤ, pos, IfSome, IfNone};
ghost use Rattle.event_claims.specs.Decided.{IsDecided};
ghost use Rattle.event_claims.specs.Standing.{IsDecidable, HasDecisionCode};
ghost use Rattle.event_claims.specs.Verdicts.{IsVerdict};
ghost use Rattle.event_claims.specs.Views.{IsViewOf};
ghost use Rattle.base_types.specs.PlaceOrder.{AreLeastPlaces};
ghost use Rattle.history_model.specs.Decisions.{IsDecidedAt};
ghost use Rattle.history_model.specs.Events.{Event};
ghost use Rattle.history_model.specs.Histories.{History, IsEvent};
ghost use Rattle.base_types.specs.declared.verdict.placed.Places.{Places};
ghost use Rattle.history_model.specs.Windows.{decision_low, decision_high};
ghost use Rattle.write_groups.specs.Modelled.{event_of};

use crate::view::{Decisions, View};
use base_types::{Moment, PlacedDecision, Places, Reason};
use local_bounds::Listable;
use write_groups::{LogEvent, Window, highest, lowest};

/// What is known of an event's decision.
#[derive(Clone, Copy)]
pub enum Decided {
    /// None is judged.
    Unasked,
    /// It could be given at no four places.
    Impossible,
    /// It could be given at these places, the least.
    Given(PlacedDecision),
}

// The moment so many nanoseconds earlier.
fn earlier(at: Moment, nanos: u64) -> Moment
    ensures { neg_ℤ (pos (2 ^ 101)) ≤ℤ at.0 → result.0 ≡ at.0 -ℤ pos nanos }
{
    match at.0.checked_sub(i128::from(nanos)) {
        Some(moment) => Moment(moment),
        None => at,
    }
}

/// The places at which the caches of the event's authorizer may be, both ends among them: as far behind the event's
/// start as the lag says, up to its end.
pub fn decision_window_of<L: Listable, D: Decisions>(
    view: &View<'_, L, D>,
    event: &LogEvent,
) -> Window
    ensures low { (h : History) (number : _) → IsViewOf L.listable D.decides view.now h
        → IsEvent h number (event_of event.now)
        → result.low ≡ decision_low h (event_of event.now) }
    ensures high { (h : History) → IsViewOf L.listable D.decides view.now h
        → result.high ≡ decision_high h
        (event_of event.now) }
{
    Window {
        low: lowest(view.windows, earlier(event.lo, view.lag)),
        high: highest(view.windows, event.hi),
    }
}

// The least four places at which the decision of the event of this number could be given.
fn places_of<L: Listable, D: Decisions>(
    view: &View<'_, L, D>,
    number: u32,
    event: &LogEvent,
) -> Option<Places>
    ensures some { IfSome result (λ places. (h : History) → IsViewOf L.listable D.decides view.now h
        → IsEvent h number (event_of event.now)
        → AreLeastPlaces (IsDecidedAt h number (event_of event.now)) places) }
    ensures none { IfNone result ((h : History) → IsViewOf L.listable D.decides view.now h
        → IsEvent h number (event_of event.now)
        → (places : Places) → IsDecidedAt h number (event_of event.now) places → ⊥) }
{
    let window = decision_window_of(view, event);
    view.decisions.find(number, window.low, window.high)
}

/// What is known of the decision of the event of this number.
pub fn decided_of<L: Listable, D: Decisions>(
    view: &View<'_, L, D>,
    number: u32,
    event: &LogEvent,
) -> Decided
    ensures { (h : History) → IsViewOf L.listable D.decides view.now h
        → IsEvent h number (event_of event.now)
        → IsDecided h number (event_of event.now) result }
{
    let Some(decision) = event.decision else {
        return Decided::Unasked;
    };
    match places_of(view, number, event) {
        Some(places) => Decided::Given(PlacedDecision { decision, places }),
        None => Decided::Impossible,
    }
}

/// The code of a decision that could not be given.
pub fn decision_fault(decided: Decided) -> Option<Reason>
    ensures { (h : History) (number : _) (event : Event) → IsDecided h number event decided
        → IsVerdict (IsDecidable h number event) (HasDecisionCode h number event) result }
{
    match decided {
        Decided::Unasked => None,
        Decided::Impossible => Some(Reason::U14),
        Decided::Given(_) => None,
    }
}
