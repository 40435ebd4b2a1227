use base_types::OutOfMemory;
use setup_file::SetupRule;
use std::alloc::AllocFailed;

/// What is wrong with a file that a setup is to be made of.
#[derive(Clone, Copy)]
pub enum FileFault {
    /// It isn't one JSON text whose numbers are whole.
    Json,
    /// It is neither an `APIResourceList` nor a list of objects.
    Kind,
    /// It is a list of which more pages follow.
    Pages,
    /// It is a list of a resource that no `APIResourceList` has.
    Unknown,
    /// It is a list of a resource that an `APIResourceList` has in another version alone.
    Version,
    /// It is a list of a resource of which a later file is a list too.
    Twice,
    /// It is a list without a revision, or of another revision than the first list.
    Revision,
    /// With its objects, and with none of them missing, the setup breaks this rule.
    Rule(SetupRule),
}

/// Why no setup is made.
#[derive(Clone, Copy)]
pub enum SetupRefusal {
    /// The start's time isn't a timestamp.
    Time,
    /// The policy isn't an audit policy as JSON.
    Policy,
    /// No file is a list.
    Empty,
    /// The resources of the lists break this rule of setups, whatever their objects are.
    Rule(SetupRule),
    /// The first file with a fault, by its number from 1 in the order given.
    File { number: usize, code: FileFault },
    OutOfMemory,
}

impl From<OutOfMemory> for SetupRefusal {
    ghost use Rattle.cluster_setup.specs.declared.fault.SetupRefusal.TheVariants.{OutOfMemory as NoMemory};
    ghost use Rattle.std.specs.Prelude.{◌≡◌};

    ghost from_gives = { λ _ refusal. refusal ≡ NoMemory };

    fn from(_: OutOfMemory) -> SetupRefusal {
        SetupRefusal::OutOfMemory
    }
}

impl<T: Drop> From<AllocFailed<T>> for SetupRefusal {
    ghost use Rattle.cluster_setup.specs.declared.fault.SetupRefusal.TheVariants.{OutOfMemory as NoMemory};
    ghost use Rattle.std.specs.Prelude.{◌≡◌};

    ghost from_gives = { λ _ refusal. refusal ≡ NoMemory };

    fn from(_: AllocFailed<T>) -> SetupRefusal {
        SetupRefusal::OutOfMemory
    }
}
