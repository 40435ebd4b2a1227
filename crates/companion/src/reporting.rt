ghost use Rattle.std.specs.Prelude.{◌≡◌, ◌≢◌, ◌∷◌, true, map, string_bytes};
ghost use Rattle.log_verdict.specs.Answers.{report_answer as verdict_answer, status_number as verdict_number};
ghost use Rattle.process_words.specs.Names.{are_distinct};
ghost use Rattle.companion_words.specs.Command.{Explain, IsSpelled, Picture, Setup, Sift, command_asked};
ghost use Rattle.companion.specs.Reported.{HasStretchesWithin, IsReported, TellsStop};
ghost use Rattle.companion.specs.Reported.{made_answer, report_answer, status_number};

use crate::picturing::picture;
use crate::report::{CommandReport, ExitStatus, ReportText};
use cluster_setup::{MadeText, make_named};
use companion_words::Command;
use context_intake::Stop;
use edge_io::{Desk, WholeStop};
use judge_pool::Gate;
use log_sift::sift_named;
use log_verdict::Gates;
use std::alloc::Global;
use std::marker::Sync;
use std::thread::Threads;

/// What a command comes to, as a status and a text.
pub fn report_of<R: Threads + Sync, D: Desk, G: Gate, H: Gate>(
    rt: &R,
    alloc: Global,
    command: Command<'_>,
    desk: &mut D,
    gates: Gates<'_, G, H>,
) -> Result<CommandReport, Stop>
    requires { IsSpelled (command_asked command) }
    ensures { IsReported (command_asked command.entry) (D.left desk.old) (D.left desk.new)
        (desk.new ≡ desk.old) (D.faults desk.old) (D.faults desk.new) result }
{
    match command {
        Command::Explain { text } => explained(desk, text),
        Command::Sift { left, log } => sifted(alloc, desk, log, left),
        Command::Setup {
            authorize,
            time,
            policy,
            files,
        } => made(alloc, desk, authorize, time, policy, files),
        Command::Picture { setup, log } => pictured(rt, alloc, desk, setup, log, gates),
    }
}

// The text of a code. The desk is left as it is.
fn explained<D: Desk>(desk: &mut D, text: &'static str) -> Result<CommandReport, Stop>
    ensures { IsReported (Explain text.now) (D.left desk.old) (D.left desk.new) (desk.new
        ≡ desk.old) (D.faults desk.old) (D.faults desk.new) result }
{
    Ok(CommandReport {
        status: ExitStatus::Done,
        body: ReportText::Fixed(text),
    })
}

// What becomes of the lines of a log.
fn sifted<D: Desk>(
    alloc: Global,
    desk: &mut D,
    log: &str,
    left: bool,
) -> Result<CommandReport, Stop>
    ensures { IsReported (Sift left log.now) (D.left desk.old) (D.left desk.new) (desk.new
        ≡ desk.old) (D.faults desk.old) (D.faults desk.new) result }
{
    match sift_named(alloc, desk, log, left) {
        Ok(text) => Ok(CommandReport {
            status: ExitStatus::Done,
            body: ReportText::Sifted(text),
        }),
        Err(stop) => stop_report(stop, "limit input\n"),
    }
}

// The setup of a policy and files, each by its name.
fn made<D: Desk>(
    alloc: Global,
    desk: &mut D,
    authorize: bool,
    time: &str,
    policy: &str,
    files: &[String],
) -> Result<CommandReport, Stop>
    requires { are_distinct (policy.now ∷ map string_bytes files.now) ≡ true }
    ensures { IsReported (Setup authorize time.now policy.now (map string_bytes files.now))
        (D.left desk.old) (D.left desk.new) (desk.new ≡ desk.old) (D.faults desk.old)
        (D.faults desk.new) result }
{
    match make_named(alloc, desk, authorize, time, policy, files) {
        Ok(found) => Ok(made_report(found)),
        Err(stop) => stop_report(stop, "limit file\n"),
    }
}

fn made_report(found: MadeText) -> CommandReport
    ensures answer { report_answer result ≡ made_answer found }
    ensures within { HasStretchesWithin result.body }
{
    match found {
        MadeText::Setup(line) => CommandReport {
            status: ExitStatus::Done,
            body: ReportText::Made(line),
        },
        MadeText::Refused(line) => CommandReport {
            status: ExitStatus::SetupRefused,
            body: ReportText::Made(line),
        },
    }
}

// Why a name wasn't read to its end; where it is too long, with the text of that limit.
fn stop_report(stop: WholeStop, limit: &'static str) -> Result<CommandReport, Stop>
    ensures { TellsStop stop limit.now result }
{
    match stop {
        WholeStop::TooLong => Ok(CommandReport {
            status: ExitStatus::LimitPassed,
            body: ReportText::Fixed(limit),
        }),
        WholeStop::ReadFault => Err(Stop::ReadFault),
        WholeStop::OutOfMemory => Err(Stop::OutOfMemory),
    }
}

// The page of the verdict on a log.
fn pictured<R: Threads + Sync, D: Desk, G: Gate, H: Gate>(
    rt: &R,
    alloc: Global,
    desk: &mut D,
    setup: &str,
    log: &str,
    gates: Gates<'_, G, H>,
) -> Result<CommandReport, Stop>
    requires { setup.now ≢ log.now }
    ensures { IsReported (Picture setup.now log.now) (D.left desk.old) (D.left desk.new) (desk.new
        ≡ desk.old) (D.faults desk.old) (D.faults desk.new) result }
{
    match picture(rt, alloc, desk, setup, log, gates) {
        Ok(found) => Ok(page_report(found)),
        Err(stop) => Err(stop),
    }
}

fn page_report(found: log_verdict::Report) -> CommandReport
    ensures answer { report_answer result ≡ verdict_answer found }
    ensures within { HasStretchesWithin result.body }
{
    CommandReport {
        status: status_of(found.status),
        body: ReportText::Made(found.text),
    }
}

fn status_of(status: log_verdict::Status) -> ExitStatus
    ensures { status_number result ≡ verdict_number status }
{
    match status {
        log_verdict::Status::Explained => ExitStatus::Done,
        log_verdict::Status::Unexplained => ExitStatus::Unexplained,
        log_verdict::Status::SetupRefused => ExitStatus::SetupRefused,
        log_verdict::Status::LogRefused => ExitStatus::LogRefused,
        log_verdict::Status::LimitPassed => ExitStatus::LimitPassed,
    }
}
