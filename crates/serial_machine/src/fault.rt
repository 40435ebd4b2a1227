ghost use Rattle.std.specs.Prelude.{◌≡◌};

use base_types::{OutOfMemory, Reason};
use thiserror::Error;

/// What is wrong with a line of a placement.
#[derive(Clone, Copy, Debug)]
pub enum WrongCode {
    /// The placement or the log lacks the line, or the line doesn't have the words of its event.
    V1,
    /// The event can't stand at the line's places.
    V2,
    /// The event isn't explained there.
    Judged(Reason),
}

/// Why a placement doesn't hold, or a machine doesn't make a line of one.
#[derive(Clone, Copy, Debug, Error)]
pub enum CheckFault {
    /// Of a placement the first fault, of a line the only one.
    #[error("line {line} of the placement is wrong")]
    Wrong { line: u64, code: WrongCode },
    #[error("out of memory")]
    OutOfMemory,
}

/// Why a machine doesn't make a line of a placement.
pub type StepFault = CheckFault;

impl From<OutOfMemory> for CheckFault {
    ghost use Rattle.serial_machine.specs.declared.fault.CheckFault.TheVariants as fault;

    ghost from_gives = { λ _ made. made ≡ fault.OutOfMemory };

    fn from(_: OutOfMemory) -> CheckFault {
        CheckFault::OutOfMemory
    }
}
