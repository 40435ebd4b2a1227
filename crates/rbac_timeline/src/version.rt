use base_types::{Listed, ObjectKey, Revision};
use rbac_rules::{Binding, PolicyRules};

/// What a version of a role or a binding holds.
#[derive(Drop)]
pub enum RbacContent {
    Role(PolicyRules),
    Bound(Binding),
    /// The object isn't in the form of its kind.
    Unreadable,
}

/// One version of a Role, ClusterRole, RoleBinding or ClusterRoleBinding.
#[derive(Drop)]
pub struct RbacVersion {
    pub key: ObjectKey,
    pub revision: Revision,
    pub content: RbacContent,
}

pub type RbacVersions = Listed<RbacVersion>;

/// The removal of an object whose last version has the revision `last`: it took place at one of the places
/// from `low` to `high`.
#[derive(Drop)]
pub struct RbacEnd {
    pub key: ObjectKey,
    pub last: Revision,
    pub low: u64,
    pub high: u64,
}

pub type RbacEnds = Listed<RbacEnd>;
