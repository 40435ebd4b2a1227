use base_types::{Listed, OutOfMemory, PolicyLevel, StageSet, Text, Texts};
use thiserror::Error;

/// An audit policy: its rules in order, and the stages that no event is written of.
#[derive(Drop, PartialEq, Eq)]
pub struct Policy {
    pub omitted: StageSet,
    pub rules: AuditRules,
}

pub type AuditRules = Listed<AuditRule>;

/// One rule of a policy. An empty list puts no condition.
#[derive(Drop, PartialEq, Eq)]
pub struct AuditRule {
    pub level: PolicyLevel,
    pub users: Texts,
    /// The request's user is in one of them.
    pub user_groups: Texts,
    pub verbs: Texts,
    /// The empty namespace stands for cluster-wide objects.
    pub namespaces: Texts,
    /// Paths, or fronts of paths with one `*` behind them.
    pub non_resource_urls: Texts,
    pub resources: GroupResourcesList,
    /// The stages omitted besides those of the policy.
    pub omitted: StageSet,
}

pub type GroupResourcesList = Listed<GroupResources>;

/// Resources of one API group: `pods`, `pods/log`, `pods/*`, `*/scale` or `*`; none for the whole group.
#[derive(Drop, PartialEq, Eq)]
pub struct GroupResources {
    pub group: Text,
    pub resources: Texts,
    pub resource_names: Texts,
}

/// Why a tree is no policy.
#[derive(Clone, Copy, Debug, PartialEq, Eq, Error)]
pub enum PolicyFault {
    /// The first part that isn't in its form: 0 is the policy itself, and its rules count from 1.
    #[error("part {rule} of the policy isn't in its form")]
    Form { rule: u32 },
    #[error("out of memory")]
    OutOfMemory,
}

impl From<OutOfMemory> for PolicyFault {
    ghost use Rattle.audit_policy.specs.declared.policy.PolicyFault.TheVariants.{OutOfMemory as Refused};
    ghost use Rattle.std.specs.Prelude.{◌≡◌};

    ghost from_gives = { λ _ fault. fault ≡ Refused };

    fn from(_: OutOfMemory) -> PolicyFault {
        PolicyFault::OutOfMemory
    }
}
