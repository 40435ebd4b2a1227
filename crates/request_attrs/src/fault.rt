use base_types::OutOfMemory;
use std::alloc::{AllocError, AllocFailed};
use thiserror::Error;

/// Why a URI has no attributes.
#[derive(Clone, Copy, Debug, PartialEq, Eq, Error)]
pub enum UriFault {
    #[error("the URI doesn't begin with a slash")]
    NoSlash,
    /// A `%` of the path has no two hexadecimal digits behind it.
    #[error("a percent sign of the path begins no escape")]
    BadEscape,
    #[error("the decoded path isn't UTF-8")]
    NotText,
    #[error("out of memory")]
    OutOfMemory,
}

impl From<OutOfMemory> for UriFault {
    ghost use Rattle.request_attrs.specs.declared.fault.UriFault.TheVariants.{OutOfMemory as Refused};
    ghost use Rattle.std.specs.Prelude.{◌≡◌};

    ghost from_gives = { λ _ fault. fault ≡ Refused };

    fn from(_: OutOfMemory) -> UriFault {
        UriFault::OutOfMemory
    }
}

impl From<AllocError> for UriFault {
    ghost use Rattle.request_attrs.specs.declared.fault.UriFault.TheVariants.{OutOfMemory};
    ghost use Rattle.std.specs.Prelude.{◌≡◌};

    ghost from_gives = { λ _ fault. fault ≡ OutOfMemory };

    fn from(_: AllocError) -> UriFault {
        UriFault::OutOfMemory
    }
}
