use base_types::{Bytes, OutOfMemory, Shared};
use thiserror::Error;

/// A line of a log, without its newline.
#[derive(Drop)]
pub struct Line {
    /// The number of the line, from 1. Blank lines are counted.
    pub number: u64,
    pub bytes: Bytes,
}

impl Shared for Line {}

/// Why no line was given.
#[derive(Clone, Copy, Debug, PartialEq, Eq, Error)]
pub enum LineFault {
    /// The line of this number has more than 16,777,216 bytes.
    #[error("line {number} is too long")]
    TooLong { number: u64 },
    #[error("out of memory")]
    OutOfMemory,
}

impl From<OutOfMemory> for LineFault {
    ghost use Rattle.std.specs.Prelude.{◌≡◌};
    ghost use Rattle.line_reader.specs.declared.line.LineFault.TheVariants.{OutOfMemory};

    ghost from_gives = { λ _ fault. fault ≡ OutOfMemory };

    fn from(_: OutOfMemory) -> LineFault {
        LineFault::OutOfMemory
    }
}
