ghost use Rattle.std.specs.Prelude.{◌≡◌, ◌<◌, ◌≤◌, ℕ, IfNone, IfSome, length};
ghost use Rattle.base_types.specs.Reasons.{code_number};
ghost use Rattle.history_model.specs.Checking.{HasCodeAt, HasSomeCodeAt, HasStandingCode, IsLeastLine, NoLine};
ghost use Rattle.history_model.specs.Events.{Event};
ghost use Rattle.history_model.specs.Histories.{History, IsEvent};
ghost use Rattle.history_model.specs.Words.{word as event_word};
ghost use Rattle.serial_machine.specs.Standing.{IsLeastCode};
ghost use Rattle.serial_machine.specs.Words.{SaysWord};
ghost use Rattle.log_context.specs.Histories.{history_of};
ghost use Rattle.write_groups.specs.Modelled.{event_of};

use crate::words::{PlacementWord, event_count, word_at};
use base_types::Reason;
use log_context::Context;
use write_groups::LogEvent;

// The least code of an event that no placement mends: it isn't logged as the policy says, or it strays.
fn standing_code(event: &LogEvent, word: PlacementWord) -> Option<Reason>
    ensures { (h : History) (number : ℕ) → SaysWord (event_word h number (event_of event.now)) word
        → IsLeastCode (HasStandingCode h number (event_of event.now)) result }
{
    if event.other_level {
        return Some(Reason::U1);
    }
    if event.omitted_stage {
        return Some(Reason::U2);
    }
    match word {
        PlacementWord::Strays => Some(Reason::U3),
        PlacementWord::Makes(_) => None,
        PlacementWord::Removes(_) => None,
        PlacementWord::At => None,
        PlacementWord::Nothing => None,
    }
}

// That code of the event of this number.
fn code_at(context: &Context, number: u32) -> Option<Reason>
    requires { number < length context.now.log }
    ensures { (event : Event) → IsEvent (history_of context.now) number event
        → IsLeastCode (HasStandingCode (history_of context.now) number event) result }
{
    let event = &context.log()[number as usize];
    standing_code(event, word_at(context, number))
}

/// The least line whose event has a code that no placement mends, and the least of its codes.
pub fn first_standing(context: &Context) -> Option<(u64, Reason)>
    ensures line { IfSome result (λ found. IsLeastLine (HasSomeCodeAt (history_of context.now))
        found.0) }
    ensures code { IfSome result (λ found. HasCodeAt (history_of context.now) found.0 found.1) }
    ensures least { IfSome result (λ found. (other : Reason)
        → HasCodeAt (history_of context.now) found.0 other
        → code_number found.1 ≤ code_number other) }
    ensures none { IfNone result (NoLine (HasSomeCodeAt (history_of context.now))) }
{
    for number in 0..event_count(context) {
        if let Some(reason) = code_at(context, number) {
            return Some((context.line_of(number), reason));
        }
    }
    None
}
