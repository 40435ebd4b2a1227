use base_types::{Listed, Text};

/// A RoleBinding or a ClusterRoleBinding (Kubernetes "Using RBAC Authorization", "RoleBinding and
/// ClusterRoleBinding").
#[derive(Drop, PartialEq, Eq)]
pub struct Binding {
    /// Whether the role is a ClusterRole; else it is a Role of the binding's namespace.
    pub role_is_cluster: bool,
    /// The role's name.
    pub role: Text,
    pub subjects: Subjects,
}

pub type Subjects = Listed<Subject>;

/// To whom a binding grants (Kubernetes "Using RBAC Authorization", "Referring to subjects").
#[derive(Drop, PartialEq, Eq)]
pub enum Subject {
    /// The user of this name.
    User(Text),
    /// Every user of this group.
    Group(Text),
    /// The account of this name in a namespace. An account of the empty namespace is nobody.
    ServiceAccount { namespace: Text, name: Text },
}
