use base_types::OutOfMemory;
use std::alloc::{AllocError, AllocFailed};
use std::fmt;
use thiserror::Error;

/// The rules of audit events, in the order in which they are judged.
#[derive(Clone, Copy, Debug, PartialEq, Eq, PartialOrd, Ord)]
pub enum Malformed {
    /// The line isn't one JSON text in UTF-8.
    M1,
    /// It isn't an object with `kind` `Event` and `apiVersion` `audit.k8s.io/v1`.
    M2,
    /// `level` isn't `Metadata`, `Request` or `RequestResponse`.
    M3,
    /// `stage` isn't `RequestReceived`, `ResponseStarted`, `ResponseComplete` or `Panic`.
    M4,
    /// `requestReceivedTimestamp` or `stageTimestamp` is no timestamp, or the stage is before the receipt.
    M5,
    /// A number outside the bodies isn't whole or not in -2^63 to 2^64 - 1.
    M6,
    /// `auditID` isn't a text with at least one byte.
    M7,
    /// `requestURI` isn't a text.
    M8,
    /// `verb` isn't a text with at least one byte, or the URI has no attributes.
    M9,
    /// `user` or `impersonatedUser` isn't of the form of a UserInfo.
    M10,
    /// `responseStatus` isn't an object, or its `code` isn't a whole number from 0 to 999.
    M11,
    /// The event differs from an earlier one of its audit ID and stage.
    M12,
}

impl Malformed {
    ghost use Rattle.audit_event.specs.Rules.{rank};
    ghost use Rattle.std.specs.Prelude.{◌≡◌};

    /// The number in the rule's name, from 1.
    pub fn number(self) -> u8
        ensures { result ≡ rank self }
    {
        match self {
            Malformed::M1 => 1,
            Malformed::M2 => 2,
            Malformed::M3 => 3,
            Malformed::M4 => 4,
            Malformed::M5 => 5,
            Malformed::M6 => 6,
            Malformed::M7 => 7,
            Malformed::M8 => 8,
            Malformed::M9 => 9,
            Malformed::M10 => 10,
            Malformed::M11 => 11,
            Malformed::M12 => 12,
        }
    }
}

impl fmt::Display for Malformed {
    ghost use Rattle.audit_event.specs.Rules.{rank};
    ghost use Rattle.std.specs.Prelude.{Some, ◌++◌, codes, decimal};

    ghost output = { λ rule. Some (codes "M" ++ decimal (rank rule)) };

    fn fmt<W: fmt::Write>(&self, f: &mut fmt::Formatter<W>) -> fmt::Result {
        write!(f, "M{}", self.number())
    }
}

impl std::error::Error for Malformed {}

/// Why a line or a JSON value is no event.
#[derive(Clone, Copy, Debug, PartialEq, Eq, Error)]
pub enum EventFault {
    /// The first rule that it breaks.
    #[error("the event breaks {0}")]
    Malformed(Malformed),
    #[error("out of memory")]
    OutOfMemory,
}

impl From<OutOfMemory> for EventFault {
    ghost use Rattle.audit_event.specs.declared.fault.EventFault.TheVariants.{OutOfMemory as Refused};
    ghost use Rattle.std.specs.Prelude.{◌≡◌};

    ghost from_gives = { λ _ fault. fault ≡ Refused };

    fn from(_: OutOfMemory) -> EventFault {
        EventFault::OutOfMemory
    }
}

/// Why an event isn't kept.
#[derive(Clone, Copy, Debug, PartialEq, Eq, Error)]
pub enum SeenFault {
    /// It differs from the event of its audit ID and stage that was kept in this line.
    #[error("the event differs from that of line {line}")]
    Differs { line: u64 },
    #[error("out of memory")]
    OutOfMemory,
}

impl From<OutOfMemory> for SeenFault {
    ghost use Rattle.audit_event.specs.declared.fault.SeenFault.TheVariants.{OutOfMemory as Refused};
    ghost use Rattle.std.specs.Prelude.{◌≡◌};

    ghost from_gives = { λ _ fault. fault ≡ Refused };

    fn from(_: OutOfMemory) -> SeenFault {
        SeenFault::OutOfMemory
    }
}

impl From<AllocError> for SeenFault {
    ghost use Rattle.audit_event.specs.declared.fault.SeenFault.TheVariants.{OutOfMemory};
    ghost use Rattle.std.specs.Prelude.{◌≡◌};

    ghost from_gives = { λ _ fault. fault ≡ OutOfMemory };

    fn from(_: AllocError) -> SeenFault {
        SeenFault::OutOfMemory
    }
}

impl<T: Drop> From<AllocFailed<T>> for SeenFault {
    ghost use Rattle.audit_event.specs.declared.fault.SeenFault.TheVariants.{OutOfMemory};
    ghost use Rattle.std.specs.Prelude.{◌≡◌};

    ghost from_gives = { λ _ fault. fault ≡ OutOfMemory };

    fn from(_: AllocFailed<T>) -> SeenFault {
        SeenFault::OutOfMemory
    }
}
