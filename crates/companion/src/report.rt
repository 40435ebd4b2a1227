ghost use Rattle.std.specs.Prelude.{◌≡◌};
ghost use Rattle.companion.specs.Reported.{status_number};

use base_types::Bytes;
use log_sift::SiftText;

/// How a command was answered.
#[derive(Clone, Copy)]
pub enum ExitStatus {
    /// It was done; a log that is shown is explained.
    Done,
    /// No placement explains the log that is shown.
    Unexplained,
    /// No setup can be made of what was given, or the setup breaks a rule.
    SetupRefused,
    /// An event of the log that is to be shown breaks a rule.
    LogRefused,
    /// What was given is too large.
    LimitPassed,
}

impl ExitStatus {
    /// The exit status.
    pub fn number(self) -> u8
        ensures { result ≡ status_number self }
    {
        match self {
            ExitStatus::Done => 0,
            ExitStatus::Unexplained => 1,
            ExitStatus::SetupRefused => 3,
            ExitStatus::LogRefused => 4,
            ExitStatus::LimitPassed => 7,
        }
    }
}

/// The text of an answer.
#[derive(Drop)]
pub enum ReportText {
    /// A text that the program has.
    Fixed(&'static str),
    /// One that was made.
    Made(Bytes),
    /// What a log comes to, line by line.
    Sifted(SiftText),
}

/// A status and the text that goes with it.
#[derive(Drop)]
pub struct CommandReport {
    pub status: ExitStatus,
    pub body: ReportText,
}
