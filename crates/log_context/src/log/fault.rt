use base_types::OutOfMemory;
use node_pool::PoolFault;
use std::alloc::{AllocError, AllocFailed};
use thiserror::Error;

/// Why what a log says wasn't put together.
#[derive(Clone, Copy, Debug, PartialEq, Eq, Error)]
pub enum BuildFault {
    /// The objects have more distinct trees than the pool may hold.
    #[error("the pool of trees is full")]
    PoolFull,
    #[error("out of memory")]
    OutOfMemory,
}

impl From<PoolFault> for BuildFault {
    ghost use Rattle.log_context.specs.LogFaults.{fault_for};
    ghost use Rattle.std.specs.Prelude.{◌≡◌};

    ghost from_gives = { λ refusal fault. fault ≡ fault_for refusal };

    fn from(refusal: PoolFault) -> BuildFault {
        match refusal {
            PoolFault::Full => BuildFault::PoolFull,
            PoolFault::OutOfMemory => BuildFault::OutOfMemory,
        }
    }
}

impl From<AllocError> for BuildFault {
    ghost use Rattle.log_context.specs.declared.log.fault.BuildFault.TheVariants.{OutOfMemory};
    ghost use Rattle.std.specs.Prelude.{◌≡◌};

    ghost from_gives = { λ _ fault. fault ≡ OutOfMemory };

    fn from(_: AllocError) -> BuildFault {
        BuildFault::OutOfMemory
    }
}

impl<T: Drop> From<AllocFailed<T>> for BuildFault {
    ghost use Rattle.log_context.specs.declared.log.fault.BuildFault.TheVariants.{OutOfMemory};
    ghost use Rattle.std.specs.Prelude.{◌≡◌};

    ghost from_gives = { λ _ fault. fault ≡ OutOfMemory };

    fn from(_: AllocFailed<T>) -> BuildFault {
        BuildFault::OutOfMemory
    }
}

impl From<OutOfMemory> for BuildFault {
    ghost use Rattle.log_context.specs.declared.log.fault.BuildFault.TheVariants.{OutOfMemory as Refused};
    ghost use Rattle.std.specs.Prelude.{◌≡◌};

    ghost from_gives = { λ _ fault. fault ≡ Refused };

    fn from(_: OutOfMemory) -> BuildFault {
        BuildFault::OutOfMemory
    }
}
