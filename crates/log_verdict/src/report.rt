ghost use Rattle.std.specs.Prelude.{◌≡◌, ◌++◌, IfOk, string_bytes};
ghost use Rattle.context_intake.specs.Refusals.{limit_word};
ghost use Rattle.log_verdict.specs.Answers.{IsPlacementText, answer, checked_status, history_answer, judged_answer};
ghost use Rattle.log_verdict.specs.Answers.{outcome_status, refusal_answer, report_answer, settled_answer};
ghost use Rattle.log_verdict.specs.Answers.{status_number, strictly_answer, verified_answer};

use crate::asking::Answered;
use crate::judged::JudgedLog;
use crate::strictly::StrictlyJudged;
use crate::verified::Verified;
use base_types::{Bytes, OutOfMemory, Outcome};
use context_intake::{Limit, Refusal};
use log_moments::{StrictAnswer, print_strict};
use serial_machine::{Checked, print_checked};
use std::alloc::Global;
use verdict_text::print_outcome;

/// How a setup and a log were answered.
#[derive(Clone, Copy, PartialEq, Eq)]
pub enum Status {
    /// Some placement explains the log; a given one holds; a question is answered.
    Explained,
    /// No placement does; a given one is wrong.
    Unexplained,
    /// The setup breaks a rule.
    SetupRefused,
    /// An event of the log breaks a rule; a placement can't be read.
    LogRefused,
    /// One of them is too large.
    LimitPassed,
}

impl Status {
    /// The exit status.
    pub fn number(self) -> u8
        ensures { result ≡ status_number self }
    {
        match self {
            Status::Explained => 0,
            Status::Unexplained => 1,
            Status::SetupRefused => 3,
            Status::LogRefused => 4,
            Status::LimitPassed => 7,
        }
    }
}

/// A status and the text that goes with it.
#[derive(Drop)]
pub struct Report {
    pub status: Status,
    pub text: Bytes,
}

/// The report of what a setup and a log come to.
pub fn judged_report(alloc: Global, judged: &JudgedLog) -> Result<Report, OutOfMemory>
    ensures report { IfOk result (λ report. report_answer report ≡ judged_answer judged.now) }
    ensures printed { IfOk result (λ report. status_number report.status ≡ 0
        → IsPlacementText report.text) }
{
    match judged {
        JudgedLog::Refused(refusal) => refusal_report(alloc, *refusal),
        JudgedLog::Verdict(outcome) => Ok(Report {
            status: status_of(outcome),
            text: print_outcome(alloc, outcome)?,
        }),
    }
}

/// The report of what a setup and a log come to where moments are asked for.
pub fn strictly_report(alloc: Global, found: &StrictlyJudged) -> Result<Report, OutOfMemory>
    ensures { IfOk result (λ report. report_answer report ≡ strictly_answer found.now) }
{
    match found {
        StrictlyJudged::Plain(judged) => judged_report(alloc, judged),
        StrictlyJudged::Settled { outcome, answer } => settled_report(alloc, outcome, answer),
    }
}

fn settled_report(
    alloc: Global,
    outcome: &Outcome,
    answer: &StrictAnswer,
) -> Result<Report, OutOfMemory>
    ensures { IfOk result (λ report. report_answer report ≡ settled_answer outcome.now answer.now) }
{
    let text = print_strict(alloc, answer)?;
    match answer {
        StrictAnswer::Strict(_) => Ok(Report {
            status: Status::Explained,
            text: put_behind(print_outcome(alloc, outcome)?, &text)?,
        }),
        StrictAnswer::Crossed { .. } => Ok(Report {
            status: Status::Unexplained,
            text,
        }),
    }
}

// One text behind another.
fn put_behind(front: Bytes, text: &Bytes) -> Result<Bytes, OutOfMemory>
    ensures { IfOk result (λ whole. whole ≡ front ++ text.now) }
{
    let mut bytes = front.into_vec();
    bytes.extend_from_slice(text.as_slice())?;
    Ok(Bytes::from_vec(bytes))
}

/// The report of what a placement comes to.
pub fn verified_report(alloc: Global, verified: Verified) -> Result<Report, OutOfMemory>
    ensures { IfOk result (λ report. report_answer report ≡ verified_answer verified) }
{
    match verified {
        Verified::Refused(refusal) => refusal_report(alloc, refusal),
        Verified::TooLong => {
            let text = format!(in alloc; "limit placement\n")?;
            Ok(reported(Status::LimitPassed, text))
        }
        Verified::Misspelt { line } => {
            let text = format!(in alloc; "placement {line}\n")?;
            Ok(reported(Status::LogRefused, text))
        }
        Verified::Judged(checked) => Ok(Report {
            status: checked_status(checked),
            text: print_checked(alloc, &checked)?,
        }),
    }
}

/// The report of what a question comes to.
pub fn history_report(alloc: Global, found: Answered) -> Result<Report, OutOfMemory>
    ensures { IfOk result (λ report. report_answer report ≡ history_answer found) }
{
    match found {
        Answered::Refused(refusal) => refusal_report(alloc, refusal),
        Answered::History(text) => {
            let status = Status::Explained;
            Ok(Report { status, text })
        }
    }
}

fn checked_status(checked: Checked) -> Status
    ensures { status_number result ≡ checked_status checked }
{
    match checked {
        Checked::Holds => Status::Explained,
        Checked::Wrong { .. } => Status::Unexplained,
    }
}

/// The status of what a log comes to.
pub fn status_of(outcome: &Outcome) -> Status
    ensures { status_number result ≡ outcome_status outcome.now }
{
    match outcome {
        Outcome::Explained(_) => Status::Explained,
        Outcome::Unexplained { .. } => Status::Unexplained,
    }
}

/// The report of why a setup and a log tell nothing.
pub fn refusal_report(alloc: Global, refusal: Refusal) -> Result<Report, OutOfMemory>
    ensures { IfOk result (λ report. report_answer report ≡ refusal_answer refusal) }
{
    match refusal {
        Refusal::BrokenSetup(rule) => {
            let number = rule.number();
            let text = format!(in alloc; "setup S{number}\n")?;
            Ok(reported(Status::SetupRefused, text))
        }
        Refusal::MalformedLog { line, code } => {
            let number = code.number();
            let text = format!(in alloc; "malformed {line} M{number}\n")?;
            Ok(reported(Status::LogRefused, text))
        }
        Refusal::PastLimit(limit) => {
            let name = limit_word(limit);
            let text = format!(in alloc; "limit {name}\n")?;
            Ok(reported(Status::LimitPassed, text))
        }
    }
}

fn reported(status: Status, text: String) -> Report
    ensures { report_answer result ≡ answer (status_number status) (string_bytes text) }
{
    Report {
        status,
        text: Bytes::from_vec(text.into_bytes()),
    }
}

fn limit_word(limit: Limit) -> &'static str
    ensures { result.now ≡ limit_word limit }
{
    match limit {
        Limit::SetupSize => "setup",
        Limit::LineSize => "line",
        Limit::EventCount => "events",
        Limit::InputSize => "input",
        Limit::PoolSize => "pool",
    }
}
