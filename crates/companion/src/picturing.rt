ghost use Rattle.std.specs.Prelude.{◌≡◌, ◌≢◌, ℕ, List, Some, IfOk, IsErrOf, string_bytes};
ghost use Rattle.std.specs.Io.KnownBytes.{IsAtEnd};
ghost use Rattle.context_intake.specs.Taking.{ReadsSetupAndLog};
ghost use Rattle.log_verdict.specs.Answers.{report_answer};
ghost use Rattle.log_verdict.specs.Judging.{IsOutcomeOf};
ghost use Rattle.companion.specs.Picturing.{HasBrokenRule, HasPage, IsPage, IsPictured};
ghost use Rattle.companion.specs.Picturing.{IsPicturedFrom, IsPicturedOf};

use base_types::{Bytes, OutOfMemory, Outcome};
use context_intake::{Intake, Stop, read_context};
use edge_io::Desk;
use finding_picture::{Finding, finding_page};
use judge_pool::Gate;
use log_context::Context;
use log_picture::log_page;
use log_verdict::{Gates, Report, outcome_of, refusal_report, status_of};
use std::alloc::Global;
use std::marker::Sync;
use std::mem::ManuallyDrop;
use std::thread::Threads;

/// Reads a setup and then a log from a desk, each by its name, judges the log, and gives the page of its verdict, with
/// the status of the verdict; or the refusal of the two, as the judge says it. What they tell isn't freed: the program
/// ends soon after.
pub fn picture<R: Threads + Sync, D: Desk, G: Gate, H: Gate>(
    rt: &R,
    alloc: Global,
    desk: &mut D,
    setup: &str,
    log: &str,
    gates: Gates<'_, G, H>,
) -> Result<Report, Stop>
    requires { setup.now ≢ log.now }
    ensures pictured { IfOk result (λ report. (of_setup of_log : List ℕ)
        → D.left desk.old setup.now ≡ Some of_setup → D.left desk.old log.now ≡ Some of_log
        → IsPictured of_setup of_log (report_answer report)) }
    ensures whole { IfOk result (λ report. HasPage (report_answer report)
        → IsAtEnd (D.left desk.new setup.now) × IsAtEnd (D.left desk.new log.now)) }
    ensures setup_whole { IfOk result (λ report. HasBrokenRule (report_answer report)
        → IsAtEnd (D.left desk.new setup.now)) }
    ensures reads { ReadsSetupAndLog setup.now log.now (D.left desk.old) (D.left desk.new)
        (D.faults desk.old) (D.faults desk.new) (IsErrOf result Stop.ReadFault)
        (IsErrOf result Stop.ReadFault) }
{
    let found = read_context(rt, alloc, desk, setup, log, gates.lines)?;
    let told = ManuallyDrop::new(found);
    let report = pictured_of(rt, alloc, &told, gates.events)?;
    Ok(report)
}

// The report of what a setup and a log tell.
fn pictured_of<R: Threads + Sync, G: Gate>(
    rt: &R,
    alloc: Global,
    told: &Intake,
    gate: &G,
) -> Result<Report, OutOfMemory>
    ensures { IfOk result (λ report. IsPicturedFrom told.now (report_answer report)) }
{
    match told {
        Intake::Refused(refusal) => refusal_report(alloc, *refusal),
        Intake::Context(context) => {
            let outcome = outcome_of(rt, alloc, context, gate)?;
            verdict_of(alloc, context, &outcome)
        }
    }
}

// The report of a verdict: its page, with its status.
fn verdict_of(alloc: Global, context: &Context, outcome: &Outcome) -> Result<Report, OutOfMemory>
    requires { IsOutcomeOf context.now outcome.now }
    ensures { IfOk result (λ report. IsPicturedOf context.now (report_answer report)) }
{
    let page = page_of(alloc, context, outcome)?;
    Ok(Report {
        status: status_of(outcome),
        text: Bytes::from_vec(page.into_bytes()),
    })
}

fn page_of(alloc: Global, context: &Context, outcome: &Outcome) -> Result<String, OutOfMemory>
    ensures { IfOk result (λ page. IsPage context.now outcome.now (string_bytes page)) }
{
    match outcome {
        Outcome::Explained(placement) => log_page(alloc, context, placement),
        Outcome::Unexplained {
            line,
            audit_id,
            reason,
            low,
            high,
            writes,
        } => finding_page(
            alloc,
            context,
            &Finding {
                line: *line,
                audit_id,
                reason: *reason,
                low: *low,
                high: *high,
                writes: writes.as_slice(),
            },
        ),
    }
}
