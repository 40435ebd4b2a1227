ghost use Rattle.std.specs.Prelude.{◌≡◌};
ghost use Rattle.rbac_timeline.specs.Kinds.{can_bind, is_readable, subjects_of};

use crate::kind::{Kind, kind_of_key};
use crate::version::RbacContent;
use base_types::ObjectKey;
use rbac_rules::Subject;

// Whether a binding of this kind may name its role: a ClusterRoleBinding can't name a Role.
fn can_bind(kind: Option<Kind>, of_cluster: bool) -> bool
    ensures { result ≡ can_bind kind of_cluster }
{
    match kind {
        Some(Kind::RoleBinding) => true,
        Some(Kind::ClusterRoleBinding) => of_cluster,
        _ => false,
    }
}

/// Whether a version of this key is a binding that can be read.
pub fn is_readable(key: &ObjectKey, content: &RbacContent) -> bool
    ensures { result ≡ is_readable key.now content.now }
{
    match content {
        RbacContent::Bound(binding) => can_bind(kind_of_key(key), binding.role_is_cluster),
        _ => false,
    }
}

/// The subjects that a version of this key names; one that can't be read names none.
pub fn named_subjects<'a>(key: &ObjectKey, content: &'a RbacContent) -> &'a [Subject]
    ensures { result.now ≡ subjects_of key.now content.now }
{
    match content {
        RbacContent::Bound(binding) => {
            if can_bind(kind_of_key(key), binding.role_is_cluster) {
                binding.subjects.as_slice()
            } else {
                &[]
            }
        }
        _ => &[],
    }
}
