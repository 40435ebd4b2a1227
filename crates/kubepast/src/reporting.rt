ghost use Rattle.std.specs.Prelude.{◌≡◌, ◌≢◌, ◌≤◌, ℕ, List, Some, IfOk, IsErrOf};
ghost use Rattle.command_words.specs.Command.{Ask, Judge, Make, Strict, Verify, command_asked, most_made};
ghost use Rattle.log_verdict.specs.Answers.{report_answer};
ghost use Rattle.kubepast.specs.Program.{IsAnswerTo};
ghost use Rattle.kubepast.specs.Reported.{IsReported, IsSpelled};

use crate::made::{judge_made, made_report};
use command_words::Command;
use context_intake::Stop;
use edge_io::Desk;
use history_query::Question;
use judge_pool::Gate;
use log_verdict::{
    Gates, Report, ask, history_report, judge, judge_strictly, judged_report, strictly_report,
    verified_report, verify,
};
use std::alloc::Global;
use std::marker::Sync;
use std::thread::Threads;

/// What a command comes to, as a status and a text.
pub fn report_of<R: Threads + Sync, D: Desk, G: Gate, H: Gate>(
    rt: &R,
    alloc: Global,
    command: Command<'_>,
    desk: &mut D,
    gates: Gates<'_, G, H>,
) -> Result<Report, Stop>
    requires { IsSpelled (command_asked command) }
    ensures { IsReported (command_asked command.entry) (D.left desk.old) (D.left desk.new)
        (desk.new ≡ desk.old) (D.faults desk.old) (D.faults desk.new) result }
{
    match command {
        Command::Judge { setup, log } => judged(rt, alloc, desk, setup, log, gates),
        Command::Strict { setup, log } => strictly(rt, alloc, desk, setup, log, gates),
        Command::Verify {
            setup,
            log,
            placement,
        } => verified(rt, alloc, desk, setup, log, placement, gates.lines),
        Command::Ask {
            setup,
            log,
            question,
        } => {
            let found = asked(rt, alloc, desk, setup, log, &question, gates.lines);
            drop(question);
            found
        }
        Command::Make { number, events } => made(rt, alloc, number, events, gates),
    }
}

// Judges a log by a setup, each by its name.
fn judged<R: Threads + Sync, D: Desk, G: Gate, H: Gate>(
    rt: &R,
    alloc: Global,
    desk: &mut D,
    setup: &str,
    log: &str,
    gates: Gates<'_, G, H>,
) -> Result<Report, Stop>
    requires { setup.now ≢ log.now }
    ensures { IsReported (Judge setup.now log.now) (D.left desk.old) (D.left desk.new) (desk.new
        ≡ desk.old) (D.faults desk.old) (D.faults desk.new) result }
{
    let judged = judge(rt, alloc, desk, setup, log, gates)?;
    let report = judged_report(alloc, &judged);
    drop(judged);
    Ok(report?)
}

// Judges a log by a setup, each by its name, and asks for moments.
fn strictly<R: Threads + Sync, D: Desk, G: Gate, H: Gate>(
    rt: &R,
    alloc: Global,
    desk: &mut D,
    setup: &str,
    log: &str,
    gates: Gates<'_, G, H>,
) -> Result<Report, Stop>
    requires { setup.now ≢ log.now }
    ensures { IsReported (Strict setup.now log.now) (D.left desk.old) (D.left desk.new) (desk.new
        ≡ desk.old) (D.faults desk.old) (D.faults desk.new) result }
{
    let found = judge_strictly(rt, alloc, desk, setup, log, gates)?;
    let report = strictly_report(alloc, &found);
    drop(found);
    Ok(report?)
}

// Checks a placement again, by a setup and a log, each by its name.
fn verified<R: Threads + Sync, D: Desk, H: Gate>(
    rt: &R,
    alloc: Global,
    desk: &mut D,
    setup: &str,
    log: &str,
    placement: &str,
    lines: &H,
) -> Result<Report, Stop>
    requires differ { setup.now ≢ log.now }
    requires not_setup { placement.now ≢ setup.now }
    requires not_log { placement.now ≢ log.now }
    ensures { IsReported (Verify setup.now log.now placement.now) (D.left desk.old)
        (D.left desk.new) (desk.new ≡ desk.old) (D.faults desk.old) (D.faults desk.new) result }
{
    let verified = verify(rt, alloc, desk, setup, log, placement, lines)?;
    Ok(verified_report(alloc, verified)?)
}

// Answers a question of the history that a setup and a log tell, each by its name.
fn asked<R: Threads + Sync, D: Desk, H: Gate>(
    rt: &R,
    alloc: Global,
    desk: &mut D,
    setup: &str,
    log: &str,
    question: &Question,
    lines: &H,
) -> Result<Report, Stop>
    requires { setup.now ≢ log.now }
    ensures { IsReported (Ask setup.now log.now question.now) (D.left desk.old) (D.left desk.new)
        (desk.new ≡ desk.old) (D.faults desk.old) (D.faults desk.new) result }
{
    let found = ask(rt, alloc, desk, setup, log, question, lines)?;
    Ok(history_report(alloc, found)?)
}

// Judges a made case.
fn made<R: Threads + Sync, G: Gate, H: Gate>(
    rt: &R,
    alloc: Global,
    number: u64,
    events: u32,
    gates: Gates<'_, G, H>,
) -> Result<Report, Stop>
    requires { events ≤ most_made }
    ensures answered { IfOk result (λ report. (files : List ℕ → List ℕ)
        → IsAnswerTo (Some (Make number events)) files (report_answer report)) }
    ensures no_fault { IsErrOf result Stop.ReadFault → ⊥ }
{
    let judged = judge_made(rt, alloc, number, events, gates)?;
    let report = made_report(alloc, number, events, &judged);
    drop(judged);
    Ok(report?)
}
