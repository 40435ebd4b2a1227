ghost use Rattle.std.specs.Prelude.{◌≡◌, ◌↔◌, Contains};
ghost use Rattle.base_types.specs.declared.kubernetes.key.ObjectKey.{ObjectKey};
ghost use Rattle.object_past.specs.Scopes.{AreInOrder, IsInScope, scope_order};

use base_types::{ObjectKey, Text};
use std::cmp::Ordering;

// Where a key stands to those of the scope.
fn scope_order(key: &ObjectKey, group: &Text, resource: &Text, namespace: &Text) -> Ordering
    ensures { result ≡ scope_order group.now resource.now namespace.now key.now }
{
    let by_namespace = if namespace.is_empty() {
        Ordering::Equal
    } else {
        key.namespace.cmp(namespace)
    };
    key.group
        .cmp(group)
        .then(key.resource.cmp(resource).then(by_namespace))
}

/// Those of the keys that a list of this group, resource and namespace is about.
pub fn keys_in<'a>(
    keys: &'a [ObjectKey],
    group: &Text,
    resource: &Text,
    namespace: &Text,
) -> &'a [ObjectKey]
    requires { AreInOrder keys.now }
    ensures order { AreInOrder result.now }
    ensures exact { (key : ObjectKey) → Contains result.now key ↔ (Contains keys.now key
        × IsInScope group.now resource.now namespace.now key) }
{
    let before = keys.partition_point(|key| scope_order(key, group, resource, namespace).is_lt());
    let (_, rest) = keys.split_at(before);
    let within = rest.partition_point(|key| scope_order(key, group, resource, namespace).is_le());
    let (scope, _) = rest.split_at(within);
    scope
}
