use audit_event::Malformed;
use base_types::OutOfMemory;
use setup_file::SetupRule;
use thiserror::Error;

/// Why a log was read no further. The first four are refusals; of those that hold, the one at the first number of
/// the log counts.
#[derive(Clone, Copy, Debug, PartialEq, Eq, Error)]
pub enum LogStop {
    /// The event of this number breaks a rule of audit events, this one first.
    #[error("malformed {line} {code}")]
    Malformed { line: u64, code: Malformed },
    /// A line has more than 16,777,216 bytes.
    #[error("a line is too long")]
    LineTooLong,
    /// There are more than 4,194,304 events, repeats aside.
    #[error("there are too many events")]
    TooManyEvents,
    /// The log has more than 2^40 bytes.
    #[error("the log is too long")]
    TooLong,
    /// A read failed.
    #[error("a read failed")]
    ReadFault,
    #[error("out of memory")]
    OutOfMemory,
}

impl From<OutOfMemory> for LogStop {
    ghost use Rattle.log_intake.specs.declared.stop.LogStop.TheVariants.{OutOfMemory as Wanted};
    ghost use Rattle.std.specs.Prelude.{◌≡◌};

    ghost from_gives = { λ _ stop. stop ≡ Wanted };

    fn from(_: OutOfMemory) -> LogStop {
        LogStop::OutOfMemory
    }
}

/// Why there is no setup.
#[derive(Clone, Copy, Debug, PartialEq, Eq, Error)]
pub enum SetupStop {
    /// The first rule of setups that the bytes break.
    #[error("a rule of the setup is broken")]
    Rule(SetupRule),
    /// The setup has more than 268,435,456 bytes.
    #[error("the setup is too long")]
    TooLong,
    /// A read failed.
    #[error("a read failed")]
    ReadFault,
    #[error("out of memory")]
    OutOfMemory,
}
