ghost use Rattle.std.specs.Prelude.{◌≡◌, ◌<◌, ◌≤◌, ◌^◌, ◌↔◌, ◌-ℤ◌, ◌≤ℤ◌, neg_ℤ, pos, ℕ, IfNone, IfSome, IsTrue};
ghost use Rattle.std.specs.Prelude.{Some, length, slice_get};
ghost use Rattle.history_model.specs.Checking.{IsLeastLine, IsMisplacedAt, IsOutside, NoLine};
ghost use Rattle.history_model.specs.Decisions.{AreCachePlaces};
ghost use Rattle.history_model.specs.Events.{Event};
ghost use Rattle.history_model.specs.Histories.{IsEvent};
ghost use Rattle.history_model.specs.Placed.{answer_place, decision_places, line_place, line_places};
ghost use Rattle.history_model.specs.Windows.{decision_high, decision_low};
ghost use Rattle.history_model.specs.Words as model;
ghost use Rattle.serial_machine.specs.Places.{AreOutOfCaches, IsMisplaced};
ghost use Rattle.log_context.specs.Histories.{history_of};

use crate::words::{PlacementWord, event_count, word_at};
use base_types::{Moment, PlacedAnswer, PlacedDecision, PlacedLine, Places};
use log_context::Context;
use write_groups::{Window, highest, lowest};

/// The place of an answer.
pub fn answer_place(answer: PlacedAnswer) -> u64
    ensures { result ≡ answer_place answer }
{
    match answer {
        PlacedAnswer::Made(revision) => revision,
        PlacedAnswer::Removed(place) => place,
        PlacedAnswer::At(place) => place,
        PlacedAnswer::Nowhere => 0,
    }
}

/// The place of the answer in the line of this number.
pub fn line_place(lines: &[PlacedLine], number: u32) -> u64
    ensures { result ≡ line_place (slice_get lines.now number) }
{
    match lines.get(number as usize) {
        Some(line) => answer_place(line.answer),
        None => 0,
    }
}

/// The places of a decision.
pub fn decision_places(decision: Option<PlacedDecision>) -> Places
    ensures { result ≡ decision_places decision }
{
    match decision {
        Some(placed) => placed.places,
        None => Places {
            roles: 0,
            cluster_roles: 0,
            bindings: 0,
            cluster_bindings: 0,
        },
    }
}

/// The places of the decision in the line of this number.
pub fn line_places(lines: &[PlacedLine], number: u32) -> Places
    ensures { result ≡ line_places (slice_get lines.now number) }
{
    match lines.get(number as usize) {
        Some(line) => decision_places(line.decision),
        None => decision_places(None),
    }
}

fn lies_within(low: u64, high: u64, place: u64) -> bool
    ensures { IsTrue result ↔ ((low ≤ place) × (place ≤ high)) }
{
    low <= place && place <= high
}

/// Whether the answer of the event of this number can't stand at the place.
pub fn is_outside(context: &Context, number: u32, place: u64) -> bool
    requires { number < length context.now.log }
    ensures { (event : Event) → IsEvent (history_of context.now) number event → IsTrue result
        ↔ IsOutside (history_of context.now) event
        (model.word (history_of context.now) number event) place }
{
    match word_at(context, number) {
        PlacementWord::Makes(revision) => place != revision,
        PlacementWord::Removes(range) => !lies_within(range.low, range.high, place),
        PlacementWord::At => {
            let window = context.window(number);
            !lies_within(window.low, window.high, place)
        }
        PlacementWord::Strays => false,
        PlacementWord::Nothing => false,
    }
}

// The moment so many nanoseconds earlier.
fn before(at: Moment, nanos: u64) -> Moment
    requires { neg_ℤ (pos (2 ^ 101)) ≤ℤ at.0 }
    ensures { result.0 ≡ at.0 -ℤ pos nanos }
{
    Moment(at.0 - i128::from(nanos))
}

// The places at which the caches of the event's authorizer may have been.
fn cache_window(context: &Context, number: u32) -> Window
    requires { number < length context.now.log }
    ensures low { (event : Event) → IsEvent (history_of context.now) number event
        → result.low ≡ decision_low (history_of context.now) event }
    ensures high { (event : Event) → IsEvent (history_of context.now) number event
        → result.high ≡ decision_high (history_of context.now) event }
{
    let event = &context.log()[number as usize];
    let windows = context.windows();
    Window {
        low: lowest(windows, before(event.lo, context.setup().lag)),
        high: highest(windows, event.hi),
    }
}

// Whether caches may have been at these places when the event of this number was decided.
fn are_cache_places(context: &Context, number: u32, places: &Places) -> bool
    requires { number < length context.now.log }
    ensures { (event : Event) → IsEvent (history_of context.now) number event → IsTrue result
        ↔ AreCachePlaces (history_of context.now) event places.now }
{
    let window = cache_window(context, number);
    lies_within(window.low, window.high, places.roles)
        && lies_within(window.low, window.high, places.cluster_roles)
        && lies_within(window.low, window.high, places.bindings)
        && lies_within(window.low, window.high, places.cluster_bindings)
}

/// Whether a decision is judged that can't have been given at these places.
pub fn is_out_of_caches(context: &Context, number: u32, places: &Places) -> bool
    requires { number < length context.now.log }
    ensures { (event : Event) → IsEvent (history_of context.now) number event
        → IsTrue result ↔ AreOutOfCaches (history_of context.now) event places.now }
{
    let event = &context.log()[number as usize];
    event.decision.is_some() && !are_cache_places(context, number, places)
}

// Whether the line of this number has a place that its event can't have.
fn is_misplaced(context: &Context, lines: &[PlacedLine], number: u32) -> bool
    requires { number < length context.now.log }
    ensures { (event : Event) → IsEvent (history_of context.now) number event → IsTrue result
        ↔ IsMisplaced (history_of context.now) lines.now number event }
{
    let outside = is_outside(context, number, line_place(lines, number));
    let out_of_caches = is_out_of_caches(context, number, &line_places(lines, number));
    outside || out_of_caches
}

/// The least line with a place that its event can't have.
pub fn first_misplaced(context: &Context, lines: &[PlacedLine]) -> Option<u64>
    ensures some { IfSome result (IsLeastLine (IsMisplacedAt (history_of context.now) lines.now)) }
    ensures none { IfNone result (NoLine (IsMisplacedAt (history_of context.now) lines.now)) }
{
    for number in 0..event_count(context) {
        if is_misplaced(context, lines, number) {
            return Some(context.line_of(number));
        }
    }
    None
}
