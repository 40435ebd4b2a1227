ghost use Rattle.std.specs.Prelude.{◌≡◌, ◌≢◌, ℕ, List, Some, IfOk, IsErrOf};
ghost use Rattle.context_intake.specs.Taking.{ReadsSetupAndLog};
ghost use Rattle.log_verdict.specs.Judging.{IsJudged, IsJudgedFrom};
ghost use Rattle.log_verdict.specs.Taking.{IsReadToJudge};

use crate::judged::JudgedLog;
use crate::outcome::outcome_of;
use base_types::OutOfMemory;
use context_intake::{Intake, Stop, read_context};
use edge_io::Desk;
use judge_pool::Gate;
use std::alloc::Global;
use std::marker::Sync;
use std::mem::ManuallyDrop;
use std::thread::Threads;

/// The gates of the work that threads share: of the lines of a batch, and of the events.
#[derive(Clone, Copy)]
pub struct Gates<'a, G, H> {
    pub events: &'a G,
    pub lines: &'a H,
}

/// Reads a setup and then a log from a desk, each by its name, and judges the log. What they tell isn't freed: the
/// program ends soon after.
pub fn judge<R: Threads + Sync, D: Desk, G: Gate, H: Gate>(
    rt: &R,
    alloc: Global,
    desk: &mut D,
    setup: &str,
    log: &str,
    gates: Gates<'_, G, H>,
) -> Result<JudgedLog, Stop>
    requires { setup.now ≢ log.now }
    ensures judged { IfOk result (λ judged. (of_setup of_log : List ℕ)
        → D.left desk.old setup.now ≡ Some of_setup → D.left desk.old log.now ≡ Some of_log
        → IsJudged of_setup of_log judged) }
    ensures whole { IfOk result (λ judged. IsReadToJudge judged (D.left desk.new setup.now)
        (D.left desk.new log.now)) }
    ensures reads { ReadsSetupAndLog setup.now log.now (D.left desk.old) (D.left desk.new)
        (D.faults desk.old) (D.faults desk.new) (IsErrOf result Stop.ReadFault)
        (IsErrOf result Stop.ReadFault) }
{
    let found = read_context(rt, alloc, desk, setup, log, gates.lines)?;
    let told = ManuallyDrop::new(found);
    let judged = judged_of(rt, alloc, &told, gates.events)?;
    Ok(judged)
}

// What a setup and a log come to, of what they tell.
fn judged_of<R: Threads + Sync, G: Gate>(
    rt: &R,
    alloc: Global,
    told: &Intake,
    gate: &G,
) -> Result<JudgedLog, OutOfMemory>
    ensures { IfOk result (IsJudgedFrom told.now) }
{
    match told {
        Intake::Refused(refusal) => Ok(JudgedLog::Refused(*refusal)),
        Intake::Context(context) => Ok(JudgedLog::Verdict(outcome_of(rt, alloc, context, gate)?)),
    }
}
