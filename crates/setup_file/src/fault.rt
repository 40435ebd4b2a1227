use base_types::OutOfMemory;
use thiserror::Error;

/// The rules of a setup, in the order in which they are judged.
#[derive(Clone, Copy, Debug, PartialEq, Eq, PartialOrd, Ord)]
pub enum SetupRule {
    /// The bytes are one JSON text whose numbers are whole.
    S1,
    /// An object of kind `PastSetup` with the members that are required, and none that is unknown.
    S2,
    /// `version` is 1 or 2.
    S3,
    /// `start` has a canonical revision and a time.
    S4,
    /// `until` is a time that isn't before the start.
    S5,
    /// `slackNanos` and `lagNanos` are whole numbers from 0 to 10^18.
    S6,
    /// `policy` is an audit policy.
    S7,
    /// `resources` is a list of entries in their form, shapes and subresources aside.
    S8,
    /// No two entries have one group and resource, or one group and kind.
    S9,
    /// The `shapes` of each entry are in their form.
    S10,
    /// The `subresources` of each entry are in their form, with distinct names.
    S11,
    /// `snapshot` is a list of objects of tracked resources.
    S12,
    /// No two objects of the snapshot have one key, uid or revision, and none is above the start.
    S13,
    /// `authorize` and the lists of groups are in their form, and what RBAC needs is there.
    S14,
    /// `checkpoints` is a list of whole lists of tracked resources.
    S15,
}

impl SetupRule {
    ghost use Rattle.setup_file.specs.Rules.{rule_number};
    ghost use Rattle.std.specs.Prelude.{◌≡◌};

    /// The number in the rule's name, from 1.
    pub fn number(self) -> u8
        ensures { result ≡ rule_number self }
    {
        match self {
            SetupRule::S1 => 1,
            SetupRule::S2 => 2,
            SetupRule::S3 => 3,
            SetupRule::S4 => 4,
            SetupRule::S5 => 5,
            SetupRule::S6 => 6,
            SetupRule::S7 => 7,
            SetupRule::S8 => 8,
            SetupRule::S9 => 9,
            SetupRule::S10 => 10,
            SetupRule::S11 => 11,
            SetupRule::S12 => 12,
            SetupRule::S13 => 13,
            SetupRule::S14 => 14,
            SetupRule::S15 => 15,
        }
    }
}

/// Why bytes are no setup.
#[derive(Clone, Copy, Debug, PartialEq, Eq, Error)]
pub enum SetupFault {
    /// The first rule that is broken.
    #[error("a rule of the setup is broken")]
    Rule(SetupRule),
    #[error("out of memory")]
    OutOfMemory,
}

impl From<OutOfMemory> for SetupFault {
    ghost use Rattle.setup_file.specs.declared.fault.SetupFault.TheVariants.{OutOfMemory as Refused};
    ghost use Rattle.std.specs.Prelude.{◌≡◌};

    ghost from_gives = { λ _ fault. fault ≡ Refused };

    fn from(_: OutOfMemory) -> SetupFault {
        SetupFault::OutOfMemory
    }
}

impl From<SetupRule> for SetupFault {
    ghost use Rattle.setup_file.specs.declared.fault.SetupFault.TheVariants.{Rule};
    ghost use Rattle.std.specs.Prelude.{◌≡◌};

    ghost from_gives = { λ rule fault. fault ≡ Rule rule };

    fn from(rule: SetupRule) -> SetupFault {
        SetupFault::Rule(rule)
    }
}
