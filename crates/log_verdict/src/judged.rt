use base_types::Outcome;
use context_intake::Refusal;

/// What a setup and a log come to.
#[derive(Drop)]
pub enum JudgedLog {
    Refused(Refusal),
    Verdict(Outcome),
}
