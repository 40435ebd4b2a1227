use base_types::OutOfMemory;
use std::alloc::{AllocError, AllocFailed};
use thiserror::Error;

/// Why a tree wasn't interned.
#[derive(Clone, Copy, Debug, PartialEq, Eq, Error)]
pub enum PoolFault {
    /// The pool would hold more trees than its limit.
    #[error("the pool is full")]
    Full,
    #[error("out of memory")]
    OutOfMemory,
}

impl From<AllocError> for PoolFault {
    ghost use Rattle.node_pool.specs.declared.fault.PoolFault.TheVariants.{OutOfMemory};
    ghost use Rattle.std.specs.Prelude.{◌≡◌};

    ghost from_gives = { λ _ fault. fault ≡ OutOfMemory };

    fn from(_: AllocError) -> PoolFault {
        PoolFault::OutOfMemory
    }
}

impl<T: Drop> From<AllocFailed<T>> for PoolFault {
    ghost use Rattle.node_pool.specs.declared.fault.PoolFault.TheVariants.{OutOfMemory};
    ghost use Rattle.std.specs.Prelude.{◌≡◌};

    ghost from_gives = { λ _ fault. fault ≡ OutOfMemory };

    fn from(_: AllocFailed<T>) -> PoolFault {
        PoolFault::OutOfMemory
    }
}

impl From<OutOfMemory> for PoolFault {
    ghost use Rattle.node_pool.specs.declared.fault.PoolFault.TheVariants.{OutOfMemory as Refused};
    ghost use Rattle.std.specs.Prelude.{◌≡◌};

    ghost from_gives = { λ _ fault. fault ≡ Refused };

    fn from(_: OutOfMemory) -> PoolFault {
        PoolFault::OutOfMemory
    }
}
