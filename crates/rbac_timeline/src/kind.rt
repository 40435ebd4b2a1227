ghost use Rattle.std.specs.Prelude.{◌≡◌, ◌↔◌, IsTrue, IfOk};
ghost use Rattle.rbac_timeline.specs.Kinds.{IsReached, is_cluster_binding, kind_of, kind_of_key, rbac_group, role_key};

use base_types::{ObjectKey, OutOfMemory, RequestAttrs, Text};
use rbac_rules::Binding;
use std::alloc::Global;

/// The kinds of objects of `rbac.authorization.k8s.io` (Kubernetes "Using RBAC Authorization", "API objects").
#[derive(Clone, Copy, PartialEq, Eq)]
pub enum Kind {
    Role,
    ClusterRole,
    RoleBinding,
    ClusterRoleBinding,
}

const RBAC_GROUP: &str = "rbac.authorization.k8s.io";

/// The kind of an API group's resource.
pub fn kind_of(group: &Text, resource: &Text) -> Option<Kind>
    ensures { result ≡ kind_of group.now resource.now }
{
    if group.as_str() != RBAC_GROUP {
        return None;
    }
    match resource.as_str() {
        "roles" => Some(Kind::Role),
        "clusterroles" => Some(Kind::ClusterRole),
        "rolebindings" => Some(Kind::RoleBinding),
        "clusterrolebindings" => Some(Kind::ClusterRoleBinding),
        _ => None,
    }
}

/// Whether the kind is that of cluster role bindings.
pub fn is_cluster_binding(kind: Option<Kind>) -> bool
    ensures { result ≡ is_cluster_binding kind }
{
    matches!(kind, Some(Kind::ClusterRoleBinding))
}

/// Whether it is this kind.
pub fn is_kind(kind: Option<Kind>, expected: Kind) -> bool
    ensures { IsTrue result ↔ (kind ≡ Some expected) }
{
    kind == Some(expected)
}

pub fn kind_of_key(key: &ObjectKey) -> Option<Kind>
    ensures { result ≡ kind_of_key key.now }
{
    kind_of(&key.group, &key.resource)
}

// A text of the group and one of the resource.
fn resource_texts(alloc: Global, resource: &str) -> Result<(Text, Text), OutOfMemory>
    ensures group { IfOk result (λ texts. texts.0 ≡ rbac_group) }
    ensures resource { IfOk result (λ texts. texts.1 ≡ resource.now) }
{
    let group = Text::from_str(alloc, RBAC_GROUP)?;
    let resource = Text::from_str(alloc, resource)?;
    Ok((group, resource))
}

// The key of this kind of role. The texts are let go where there is no memory.
fn key_with(
    alloc: Global,
    resource: &str,
    namespace: Text,
    name: Text,
) -> Result<ObjectKey, OutOfMemory>
    ensures { IfOk result (λ role. role ≡ record {
      group = rbac_group;
      resource = resource.now;
      namespace =
          namespace;
      name = name;
    }) }
{
    let (group, resource) = resource_texts(alloc, resource)?;
    Ok(ObjectKey {
        group,
        resource,
        namespace,
        name,
    })
}

/// The key of the role that a binding of this key names.
pub fn role_key(alloc: Global, key: &ObjectKey, binding: &Binding) -> Result<ObjectKey, OutOfMemory>
    ensures { IfOk result (λ role. role ≡ role_key key.now binding.now) }
{
    let name = binding.role.clone()?;
    if binding.role_is_cluster {
        return key_with(alloc, "clusterroles", Text::new(alloc), name);
    }
    let Ok(namespace) = key.namespace.clone() else {
        drop(name);
        return Err(OutOfMemory);
    };
    key_with(alloc, "roles", namespace, name)
}

/// Whether a binding of this key can grant the request at all.
pub fn reaches(key: &ObjectKey, attrs: &RequestAttrs) -> bool
    ensures { IsTrue result ↔ IsReached key.now attrs.now }
{
    match kind_of_key(key) {
        Some(Kind::ClusterRoleBinding) => true,
        Some(Kind::RoleBinding) => attrs.is_resource && attrs.namespace == key.namespace,
        _ => false,
    }
}
