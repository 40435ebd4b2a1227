ghost use Rattle.std.specs.Prelude.{◌≡◌};

use base_types::OutOfMemory;
use std::alloc::{AllocError, AllocFailed};
use thiserror::Error;

/// Why a JSON value is no patch.
#[derive(Clone, Copy, Debug, PartialEq, Eq, Error)]
pub enum PatchFault {
    #[error("not a list of operations")]
    NotList,
    /// More than 10,000 operations.
    #[error("too many operations")]
    TooMany,
    /// The first item, from 0, that isn't an operation of RFC 6902 section 4 with its members.
    #[error("operation {index} is none")]
    BadOperation { index: u32 },
    #[error("out of memory")]
    OutOfMemory,
}

impl From<AllocError> for PatchFault {
    ghost use Rattle.json_patch.specs.declared.fault.PatchFault.TheVariants.{OutOfMemory};
    ghost use Rattle.std.specs.Prelude.{◌≡◌};

    ghost from_gives = { λ _ fault. fault ≡ OutOfMemory };

    fn from(_: AllocError) -> PatchFault {
        PatchFault::OutOfMemory
    }
}

impl<T: Drop> From<AllocFailed<T>> for PatchFault {
    ghost use Rattle.json_patch.specs.declared.fault.PatchFault.TheVariants.{OutOfMemory};
    ghost use Rattle.std.specs.Prelude.{◌≡◌};

    ghost from_gives = { λ _ fault. fault ≡ OutOfMemory };

    fn from(_: AllocFailed<T>) -> PatchFault {
        PatchFault::OutOfMemory
    }
}

impl From<OutOfMemory> for PatchFault {
    ghost use Rattle.json_patch.specs.declared.fault.PatchFault.TheVariants.{OutOfMemory as Refused};
    ghost use Rattle.std.specs.Prelude.{◌≡◌};

    ghost from_gives = { λ _ fault. fault ≡ Refused };

    fn from(_: OutOfMemory) -> PatchFault {
        PatchFault::OutOfMemory
    }
}

/// Why an operation can't be done. The first of this list that applies is given.
#[derive(Clone, Copy, Debug, PartialEq, Eq, Error)]
pub enum ApplyCause {
    /// A move's `from` is a proper prefix of its `path`.
    #[error("a value can't be moved into itself")]
    IntoItself,
    /// There is no value to remove, replace, move, copy or test.
    #[error("no value is there")]
    NoValue,
    /// The root can't be removed, and a value can only be added to an object or an array.
    #[error("no container is there")]
    NoParent,
    /// The last token isn't `-` nor an index of at most the array's length.
    #[error("no index of the array")]
    BadIndex,
    /// A test found another value.
    #[error("the value differs")]
    Differs,
    /// More than 127 containers stand one inside another.
    #[error("too deep")]
    Deep,
    /// There are more than 1,000,000 values.
    #[error("too large")]
    Large,
}

/// Why a patch can't be applied.
#[derive(Clone, Copy, Debug, PartialEq, Eq, Error)]
pub enum ApplyFault {
    /// The first operation, from 0, that can't be done.
    #[error("operation {index}: {cause}")]
    Operation { index: u32, cause: ApplyCause },
    #[error("out of memory")]
    OutOfMemory,
}
