use base_types::OutOfMemory;
use std::alloc::AllocFailed;

/// Why there is no answer.
#[derive(Clone, Copy, PartialEq, Eq)]
pub enum Stop {
    /// A read failed.
    ReadFault,
    OutOfMemory,
}

impl From<OutOfMemory> for Stop {
    ghost use Rattle.std.specs.Prelude.{◌≡◌};
    ghost use Rattle.context_intake.specs.declared.stop.Stop.TheVariants as variant;

    ghost from_gives = { λ _ stop. stop ≡ variant.OutOfMemory };

    fn from(_: OutOfMemory) -> Stop {
        Stop::OutOfMemory
    }
}

impl<T: Drop> From<AllocFailed<T>> for Stop {
    ghost use Rattle.std.specs.Prelude.{◌≡◌};
    ghost use Rattle.context_intake.specs.declared.stop.Stop.TheVariants as variant;

    ghost from_gives = { λ _ stop. stop ≡ variant.OutOfMemory };

    fn from(_: AllocFailed<T>) -> Stop {
        Stop::OutOfMemory
    }
}
