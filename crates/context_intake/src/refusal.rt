use audit_event::Malformed;
use setup_file::SetupRule;

/// What may be too much.
#[derive(Clone, Copy, PartialEq, Eq)]
pub enum Limit {
    /// A setup has at most 268,435,456 bytes.
    SetupSize,
    /// A line of a log has at most 16,777,216 bytes.
    LineSize,
    /// A log has at most 4,194,304 events, repeats aside.
    EventCount,
    /// A log has at most 2^40 bytes.
    InputSize,
    /// The objects of a setup and a log have at most 50,000,000 distinct values.
    PoolSize,
}

/// Why a setup and a log tell nothing.
#[derive(Clone, Copy, PartialEq, Eq)]
pub enum Refusal {
    /// The first rule that the setup breaks.
    BrokenSetup(SetupRule),
    /// The first number of the log whose event breaks a rule.
    MalformedLog { line: u64, code: Malformed },
    PastLimit(Limit),
}
