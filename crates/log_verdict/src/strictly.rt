ghost use Rattle.std.specs.Prelude.{◌≡◌, ◌≢◌, ◌↔◌, ℕ, List, Some, IfOk, IsErrOf, IsTrue};
ghost use Rattle.context_intake.specs.Taking.{ReadsSetupAndLog};
ghost use Rattle.log_verdict.specs.Judging.{IsOutcomeOf};
ghost use Rattle.log_verdict.specs.Strictly.{IsExplained, IsSettledFrom, IsStrictlyFrom, IsStrictlyJudged};
ghost use Rattle.log_verdict.specs.Taking.{IsReadToSettle};

use crate::judged::JudgedLog;
use crate::judging::Gates;
use crate::outcome::outcome_of;
use base_types::{OutOfMemory, Outcome};
use context_intake::{Intake, Stop, read_context};
use edge_io::Desk;
use judge_pool::Gate;
use log_context::Context;
use log_moments::{StrictAnswer, strict_answer};
use std::alloc::Global;
use std::marker::Sync;
use std::mem::ManuallyDrop;
use std::thread::Threads;

/// What a setup and a log come to where moments are asked for.
#[derive(Drop)]
pub enum StrictlyJudged {
    /// The log isn't explained, or isn't judged.
    Plain(JudgedLog),
    /// The log is explained, and its things have moments, or two of them cross.
    Settled {
        outcome: Outcome,
        answer: StrictAnswer,
    },
}

/// Reads a setup and then a log from a desk, each by its name, judges the log, and where it is explained gives its
/// things moments. What setup and log tell isn't freed: the program ends soon after.
pub fn judge_strictly<R: Threads + Sync, D: Desk, G: Gate, H: Gate>(
    rt: &R,
    alloc: Global,
    desk: &mut D,
    setup: &str,
    log: &str,
    gates: Gates<'_, G, H>,
) -> Result<StrictlyJudged, Stop>
    requires { setup.now ≢ log.now }
    ensures judged { IfOk result (λ judged. (of_setup of_log : List ℕ)
        → D.left desk.old setup.now ≡ Some of_setup → D.left desk.old log.now ≡ Some of_log
        → IsStrictlyJudged of_setup of_log judged) }
    ensures whole { IfOk result (λ judged. IsReadToSettle judged (D.left desk.new setup.now)
        (D.left desk.new log.now)) }
    ensures reads { ReadsSetupAndLog setup.now log.now (D.left desk.old) (D.left desk.new)
        (D.faults desk.old) (D.faults desk.new) (IsErrOf result Stop.ReadFault)
        (IsErrOf result Stop.ReadFault) }
{
    let found = read_context(rt, alloc, desk, setup, log, gates.lines)?;
    let told = ManuallyDrop::new(found);
    let judged = strictly_of(rt, alloc, &told, gates.events)?;
    Ok(judged)
}

// What a setup and a log come to, of what they tell.
fn strictly_of<R: Threads + Sync, G: Gate>(
    rt: &R,
    alloc: Global,
    told: &Intake,
    gate: &G,
) -> Result<StrictlyJudged, OutOfMemory>
    ensures { IfOk result (IsStrictlyFrom told.now) }
{
    match told {
        Intake::Refused(refusal) => Ok(StrictlyJudged::Plain(JudgedLog::Refused(*refusal))),
        Intake::Context(context) => {
            let outcome = outcome_of(rt, alloc, context, gate)?;
            settled(alloc, context, outcome)
        }
    }
}

// Moments are asked for where the log is explained.
fn settled(
    alloc: Global,
    context: &Context,
    outcome: Outcome,
) -> Result<StrictlyJudged, OutOfMemory>
    requires { IsOutcomeOf context.now outcome }
    ensures { IfOk result (IsSettledFrom context.now) }
{
    if !is_explained(&outcome) {
        return Ok(StrictlyJudged::Plain(JudgedLog::Verdict(outcome)));
    }
    let answer = strict_answer(alloc, context)?;
    Ok(StrictlyJudged::Settled { outcome, answer })
}

fn is_explained(outcome: &Outcome) -> bool
    ensures { IsTrue result ↔ IsExplained outcome.now }
{
    match outcome {
        Outcome::Explained(_) => true,
        Outcome::Unexplained { .. } => false,
    }
}
