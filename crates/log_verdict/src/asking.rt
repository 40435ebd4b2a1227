ghost use Rattle.std.specs.Prelude.{◌≡◌, ◌≢◌, ℕ, List, Some, IfOk, IsErrOf};
ghost use Rattle.context_intake.specs.Taking.{ReadsSetupAndLog};
ghost use Rattle.log_verdict.specs.Answering.{IsHistory, IsHistoryFrom};
ghost use Rattle.log_verdict.specs.Taking.{IsReadToAnswer};

use base_types::{Bytes, OutOfMemory};
use context_intake::{Intake, Refusal, Stop, read_context};
use edge_io::Desk;
use history_query::{Question, answer};
use judge_pool::Gate;
use std::alloc::Global;
use std::marker::Sync;
use std::mem::ManuallyDrop;
use std::thread::Threads;

/// What a question comes to by a setup and a log.
#[derive(Drop)]
pub enum Answered {
    Refused(Refusal),
    /// The text that answers it.
    History(Bytes),
}

/// Reads a setup and then a log from a desk, each by its name, and answers a question of the history that they tell.
/// What they tell isn't freed: the program ends soon after.
pub fn ask<R: Threads + Sync, D: Desk, H: Gate>(
    rt: &R,
    alloc: Global,
    desk: &mut D,
    setup: &str,
    log: &str,
    question: &Question,
    lines: &H,
) -> Result<Answered, Stop>
    requires { setup.now ≢ log.now }
    ensures answered { IfOk result (λ found. (of_setup of_log : List ℕ)
        → D.left desk.old setup.now ≡ Some of_setup → D.left desk.old log.now ≡ Some of_log
        → IsHistory of_setup of_log question.now found) }
    ensures whole { IfOk result (λ found. IsReadToAnswer found (D.left desk.new setup.now)
        (D.left desk.new log.now)) }
    ensures reads { ReadsSetupAndLog setup.now log.now (D.left desk.old) (D.left desk.new)
        (D.faults desk.old) (D.faults desk.new) (IsErrOf result Stop.ReadFault)
        (IsErrOf result Stop.ReadFault) }
{
    let found = read_context(rt, alloc, desk, setup, log, lines)?;
    let told = ManuallyDrop::new(found);
    let answered = answered_of(alloc, &told, question)?;
    Ok(answered)
}

// What the question comes to, of what the setup and the log tell.
fn answered_of(alloc: Global, told: &Intake, question: &Question) -> Result<Answered, OutOfMemory>
    ensures { IfOk result (IsHistoryFrom told.now question.now) }
{
    match told {
        Intake::Refused(refusal) => Ok(Answered::Refused(*refusal)),
        Intake::Context(context) => Ok(Answered::History(answer(alloc, context, question)?)),
    }
}
