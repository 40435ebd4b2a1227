ghost use Rattle.std.specs.Prelude.{◌≡◌, ◌≤◌, ◌∷◌, [], IfOk, codes};
ghost use Rattle.case_maker.specs.Case.{log_text, setup_text};
ghost use Rattle.log_verdict.specs.Answers.{report_answer};
ghost use Rattle.log_verdict.specs.Judging.{IsJudged};
ghost use Rattle.kubepast.specs.Program.{made_answer};

use crate::summary::summary;
use base_types::{Bytes, OutOfMemory, Text};
use case_maker::{Case, make_case};
use context_intake::Stop;
use edge_io::{InputFile, InputFiles, SteadyDesk};
use judge_pool::Gate;
use log_verdict::{Gates, JudgedLog, Report, judge, refusal_report, status_of};
use std::alloc::Global;
use std::marker::Sync;
use std::thread::Threads;

const SETUP: &str = "setup";

const LOG: &str = "log";

/// A read gives at most so many bytes.
const CUT: usize = 65_536;

/// Makes the case of a number and judges it. Nothing is read for it.
pub fn judge_made<R: Threads + Sync, G: Gate, H: Gate>(
    rt: &R,
    alloc: Global,
    number: u64,
    events: u32,
    gates: Gates<'_, G, H>,
) -> Result<JudgedLog, OutOfMemory>
    requires { events ≤ 100000 }
    ensures { IfOk result (IsJudged setup_text (log_text number events)) }
{
    let Case { setup, log } = make_case(alloc, number, events)?;
    let mut desk = SteadyDesk::new(alloc, files_of(alloc, setup, log)?, CUT)?;
    match judge(rt, alloc, &mut desk, SETUP, LOG, gates) {
        Ok(judged) => Ok(judged),
        // A steady desk has no faults.
        Err(Stop::ReadFault) => unreachable!(),
        Err(Stop::OutOfMemory) => Err(OutOfMemory),
    }
}

/// The report of what a made case comes to.
pub fn made_report(
    alloc: Global,
    number: u64,
    events: u32,
    judged: &JudgedLog,
) -> Result<Report, OutOfMemory>
    ensures { IfOk result (λ report. report_answer report ≡ made_answer number events judged.now) }
{
    match judged {
        JudgedLog::Refused(refusal) => refusal_report(alloc, *refusal),
        JudgedLog::Verdict(outcome) => Ok(Report {
            status: status_of(outcome),
            text: summary(alloc, number, events, outcome)?,
        }),
    }
}

fn files_of(alloc: Global, setup: Bytes, log: Bytes) -> Result<InputFiles, OutOfMemory>
    ensures { IfOk result (λ files. files ≡ record { name = codes "setup"; bytes = setup }
        ∷ record { name = codes "log"; bytes = log } ∷ []) }
{
    let mut files = InputFiles::new(alloc);
    files.push(InputFile {
        name: Text::from_str(alloc, SETUP)?,
        bytes: setup,
    })?;
    files.push(InputFile {
        name: Text::from_str(alloc, LOG)?,
        bytes: log,
    })?;
    Ok(files)
}
