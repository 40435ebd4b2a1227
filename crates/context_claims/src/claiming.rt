ghost use Rattle.std.specs.Prelude.{◌≡◌, ◌<◌, length, All, IfOk};
ghost use Rattle.base_types.specs.Choices.{IsChoice};
ghost use Rattle.context_claims.specs.Claims.{IsClaimOf};
ghost use Rattle.event_claims.specs.Lines.{IsLined};
ghost use Rattle.history_model.specs.Events.{Event};
ghost use Rattle.history_model.specs.Exact.{IsExactClaim};
ghost use Rattle.history_model.specs.Histories.{IsEvent, ranges};
ghost use Rattle.history_model.specs.Windows.{decision_low, decision_high};
ghost use Rattle.local_bounds.specs.Asked.{AreDeciding};
ghost use Rattle.log_context.specs.Histories.{history_of};

use crate::judge::{ContextJudge, view_of};
use base_types::{Claim, OutOfMemory, PlacedLine};
use event_claims::{claim_of, decision_window_of, placed_line};
use log_context::Context;
use std::alloc::Global;
use write_groups::Window;

/// What the event of this number asks of the choice of one place for each removal: under a choice it is right exactly
/// where it doesn't fail under every choice and the choice meets its bounds. There is a bound for each removal whose
/// place decides, and no other; none is given where no choice makes the answer right.
pub fn claim(alloc: Global, context: &Context, event: u32) -> Result<Claim, OutOfMemory>
    requires { event < length context.now.log }
    ensures of_event { IfOk result (IsClaimOf context.now event) }
    ensures exact { IfOk result (λ claim. (e : Event) → IsEvent (history_of context.now) event e
        → IsExactClaim (history_of context.now) event e claim) }
    ensures deciding { IfOk result (λ claim. AreDeciding (history_of context.now) claim.bounds) }
    ensures ranges { IfOk result (λ claim. All (λ bound. bound.range < length
        (ranges (history_of context.now))) claim.bounds) }
{
    let judge = ContextJudge { context };
    let view = view_of(&judge);
    claim_of(alloc, &view, event, context.fault(event))
}

/// The line of the event of this number in the placement of a choice of one place for each removal: its least place,
/// and the least four places of its decision; None where the event isn't right under the choice.
pub fn place(
    alloc: Global,
    context: &Context,
    event: u32,
    choice: &[u64],
) -> Result<Option<PlacedLine>, OutOfMemory>
    requires { event < length context.now.log }
    ensures { IfOk result (λ found. (e : Event) → IsEvent (history_of context.now) event e
        → IsChoice (ranges (history_of context.now)) choice.now
        → IsLined (history_of context.now) choice.now event e found) }
{
    let judge = ContextJudge { context };
    let view = view_of(&judge);
    placed_line(alloc, &view, event, context.fault(event), choice)
}

/// The places that the authorizer's caches may have been at when the event of this number was decided, both ends among
/// them.
pub fn decision_window(context: &Context, event: u32) -> Window
    requires { event < length context.now.log }
    ensures low { (e : Event) → IsEvent (history_of context.now) event e → result.low ≡ decision_low
        (history_of context.now) e }
    ensures high { (e : Event) → IsEvent (history_of context.now) event e
        → result.high ≡ decision_high (history_of context.now) e }
{
    let judge = ContextJudge { context };
    let view = view_of(&judge);
    let logged = &view.log[event as usize];
    decision_window_of(&view, logged)
}
