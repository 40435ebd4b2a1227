use base_types::{Listed, Texts};

/// The rules of a Role or a ClusterRole. They only add up: what one rule grants is granted.
pub type PolicyRules = Listed<PolicyRule>;

/// One rule of a Role or a ClusterRole (Kubernetes "Using RBAC Authorization", "Role and ClusterRole").
#[derive(Drop, PartialEq, Eq)]
pub struct PolicyRule {
    /// The empty text is the core group, `*` each group.
    pub api_groups: Texts,
    /// `pods`, `pods/log`, `*/scale` or `*`.
    pub resources: Texts,
    /// `*` is each verb.
    pub verbs: Texts,
    /// Without names the rule is for objects of every name.
    pub resource_names: Texts,
    /// Paths, or fronts of paths with one `*` behind them.
    pub non_resource_urls: Texts,
}
