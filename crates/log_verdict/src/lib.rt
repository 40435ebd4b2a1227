//! What a setup and a log come to: the outcome of the history that they tell, its moments, the check of a placement,
//! and the answer of a question; each with its status and its text.
#![tactic(auto)]

mod asking;
mod finding;
mod judged;
mod judging;
mod outcome;
mod report;
mod source;
mod strictly;
mod verified;
mod verifying;

pub use asking::{Answered, ask};
pub use judged::JudgedLog;
pub use judging::{Gates, judge};
pub use outcome::outcome_of;
pub use report::{
    Report, Status, history_report, judged_report, refusal_report, status_of, strictly_report,
    verified_report,
};
pub use strictly::{StrictlyJudged, judge_strictly};
pub use verified::Verified;
pub use verifying::verify;
