ghost use Rattle.std.specs.Prelude.{◌≡◌, ◌<◌, IfOk, length};
ghost use Rattle.history_model.specs.Events as model;
ghost use Rattle.history_model.specs.Histories.{IsEvent};
ghost use Rattle.history_model.specs.Outcomes.{shown_low, shown_high};
ghost use Rattle.history_model.specs.Readable.{IsReadable};
ghost use Rattle.log_verdict.specs.Findings.{IsFindingOf};
ghost use Rattle.log_context.specs.Histories.{history_of};

use base_types::{OutOfMemory, Outcome, Reason};
use context_claims::decision_window;
use log_context::Context;
use std::alloc::Global;
use window_writes::writes_within;
use write_groups::Window;

/// The finding of an event that no choice explains together with the events before it.
pub fn unexplained(
    alloc: Global,
    context: &Context,
    event: u32,
    reason: Reason,
) -> Result<Outcome, OutOfMemory>
    requires readable { IsReadable (history_of context.now) }
    requires known { event < length context.now.log }
    ensures { IfOk result (IsFindingOf context.now event reason) }
{
    let window = shown_window(context, event, reason);
    Ok(Outcome::Unexplained {
        line: context.line_of(event),
        audit_id: context.name_of(event).clone()?,
        reason,
        low: window.low,
        high: window.high,
        writes: writes_within(alloc, context, window)?,
    })
}

// The places that an event was judged at for a code.
fn shown_window(context: &Context, event: u32, reason: Reason) -> Window
    requires { event < length context.now.log }
    ensures low { (e : model.Event) → IsEvent (history_of context.now) event e
        → result.low ≡ shown_low (history_of context.now) e reason }
    ensures high { (e : model.Event) → IsEvent (history_of context.now) event e
        → result.high ≡ shown_high (history_of context.now) e reason }
{
    if reason == Reason::U14 {
        return decision_window(context, event);
    }
    context.window(event)
}
