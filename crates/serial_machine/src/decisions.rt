ghost use Rattle.std.specs.Prelude.{◌≡◌, ◌<◌, ◌↔◌, IfNone, IfSome, IsTrue, length};
ghost use Rattle.history_model.specs.Checking.{IsLeastLine, IsUndecidedAt, NoLine};
ghost use Rattle.history_model.specs.Events.{Event};
ghost use Rattle.history_model.specs.Histories.{IsEvent};
ghost use Rattle.serial_machine.specs.Places.{IsUndecided};
ghost use Rattle.log_context.specs.Histories.{history_of};

use crate::places::line_places;
use crate::words::event_count;
use base_types::PlacedLine;
use log_context::Context;

// Whether the decision of the event of this number isn't given at its line's places.
fn is_undecided(context: &Context, lines: &[PlacedLine], number: u32) -> bool
    requires { number < length context.now.log }
    ensures { (event : Event) → IsEvent (history_of context.now) number event → IsTrue result
        ↔ IsUndecided (history_of context.now) lines.now number event }
{
    let judged = context.log()[number as usize].decision.is_some();
    let given = context.is_given(number, &line_places(lines, number));
    judged && !given
}

/// The least line whose decision isn't given at its places.
pub fn first_undecided(context: &Context, lines: &[PlacedLine]) -> Option<u64>
    ensures some { IfSome result (IsLeastLine (IsUndecidedAt (history_of context.now) lines.now)) }
    ensures none { IfNone result (NoLine (IsUndecidedAt (history_of context.now) lines.now)) }
{
    for number in 0..event_count(context) {
        if is_undecided(context, lines, number) {
            return Some(context.line_of(number));
        }
    }
    None
}
