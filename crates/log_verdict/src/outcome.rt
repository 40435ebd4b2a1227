ghost use Rattle.std.specs.Prelude.{ℕ, ◌<◌, length, IfOk};
ghost use Rattle.history_model.specs.Placed.{ArePlacedLines};
ghost use Rattle.history_model.specs.Readable.{IsReadable};
ghost use Rattle.log_verdict.specs.Findings.{ExplainsEach};
ghost use Rattle.log_verdict.specs.Judging.{IsOutcomeOf};
ghost use Rattle.log_context.specs.Histories.{history_of};

use crate::finding::unexplained;
use crate::source::{ContextClaims, ContextLines};
use base_types::{OutOfMemory, Outcome, Placement};
use judge_pool::{Gate, claims_all, lines_all};
use log_context::Context;
use place_choice::{Settled, settle};
use std::alloc::Global;
use std::marker::Sync;
use std::thread::Threads;

/// What the events of a context come to. Several threads take their claims, and place them; each event enters the gate
/// before its claim is taken.
pub fn outcome_of<R: Threads + Sync, G: Gate>(
    rt: &R,
    alloc: Global,
    context: &Context,
    gate: &G,
) -> Result<Outcome, OutOfMemory>
    ensures outcome { IfOk result (IsOutcomeOf context.now) }
    ensures entered { IfOk result
        (λ _. (event : ℕ) → event < length context.now.log → G.is_entered gate.now event) }
{
    let claims = claims_all(rt, alloc, &ContextClaims { context }, gate)?;
    let settled = settle(alloc, context.ranges(), context.order(), claims.as_slice())?;
    match settled {
        Settled::Fits(choice) => {
            let lines = placed(rt, alloc, context, choice.as_slice())?;
            Ok(Outcome::Explained(lines))
        }
        Settled::Breaks { event, reason } => unexplained(alloc, context, event, reason),
    }
}

// The lines of all events under a choice that explains them. Several threads find them.
fn placed<R: Threads + Sync>(
    rt: &R,
    alloc: Global,
    context: &Context,
    choice: &[u64],
) -> Result<Placement, OutOfMemory>
    requires readable { IsReadable (history_of context.now) }
    requires explains { ExplainsEach context.now choice.now }
    ensures { IfOk result (ArePlacedLines (history_of context.now) choice.now) }
{
    let found = lines_all(rt, alloc, &ContextLines { context, choice })?;
    let mut lines = Placement::new(alloc);
    for line in &found {
        // The choice explains each event.
        lines.push(line.unwrap())?;
    }
    Ok(lines)
}
