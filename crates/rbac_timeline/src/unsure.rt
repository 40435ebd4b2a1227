ghost use Rattle.std.specs.Prelude.{◌≡◌, ◌↔◌, ◌∷◌, ◌++◌, [], List, Some, None, IfOk, OnOk, IsTrue};
ghost use Rattle.std.specs.List.Sorted.{IsPermutation};
ghost use Rattle.base_types.specs.declared.kubernetes.key.ObjectKey.{ObjectKey};
ghost use Rattle.rbac_timeline.specs.Kinds.{is_binding};
ghost use Rattle.rbac_timeline.specs.Unsure.{AreFound, AreGathered, AreUnsure, GivesNamed, GivesUnsure};
ghost use Rattle.rbac_timeline.specs.Unsure.{IsCloudedSomewhere, MayBeUnsure, unsure_keys};

use crate::index::{ByText, Keys, add_under, found};
use crate::kind::{Kind, is_kind, kind_of_key};
use crate::named::is_readable;
use crate::version::RbacVersion;
use base_types::{ObjectKey, OutOfMemory, RequestAttrs, exact_key};
use clouds::{Clouds, OpaqueSpan};
use std::alloc::Global;
use std::collections::BTreeMap;

fn is_binding(kind: Option<Kind>) -> bool
    ensures { result ≡ is_binding kind }
{
    matches!(
        kind,
        Some(Kind::RoleBinding) | Some(Kind::ClusterRoleBinding)
    )
}

fn is_clouded_somewhere(clouds: &Clouds, key: &ObjectKey) -> bool
    ensures { IsTrue result ↔ IsCloudedSomewhere clouds.now key.now }
{
    clouds.meets(key, 0, u64::MAX).is_some()
}

// Whether this is a version of a binding that can't be read, or the binding is clouded somewhere.
fn may_be_unsure(clouds: &Clouds, version: &RbacVersion) -> bool
    ensures { IsTrue result ↔ MayBeUnsure clouds.now version.now }
{
    if !is_binding(kind_of_key(&version.key)) {
        return false;
    }
    if !is_readable(&version.key, &version.content) {
        return true;
    }
    is_clouded_somewhere(clouds, &version.key)
}

// The bindings of such versions.
fn keys_of_versions(
    alloc: Global,
    versions: &[RbacVersion],
    clouds: &Clouds,
) -> Result<Vec<ObjectKey>, OutOfMemory>
    ensures { IfOk result (λ keys. AreGathered (GivesUnsure clouds.now) versions.now keys.items) }
{
    let mut keys = Vec::new(alloc);
    for version in versions {
        if may_be_unsure(clouds, version) {
            keys.push(version.key.clone()?)?;
        }
    }
    Ok(keys)
}

// The keys that spans name.
fn keys_of_spans(alloc: Global, spans: &[OpaqueSpan]) -> Result<Vec<ObjectKey>, OutOfMemory>
    ensures { IfOk result (λ keys. AreGathered GivesNamed spans.now keys.items) }
{
    let mut keys = Vec::new(alloc);
    for span in spans {
        if let Some(key) = exact_key(alloc, &span.cover)? {
            keys.push(key)?;
        }
    }
    Ok(keys)
}

// Both together, in order, so that each is put behind the others.
fn in_order(
    of_versions: Vec<ObjectKey>,
    of_spans: Vec<ObjectKey>,
) -> Result<Vec<ObjectKey>, OutOfMemory>
    ensures { IfOk result (λ keys. IsPermutation (of_versions.items ++ of_spans.items) keys.items) }
{
    let mut keys = of_versions;
    let mut others = of_spans;
    keys.append(&mut others)?;
    keys.sort()?;
    Ok(keys)
}

/// The bindings that may be clouded or unreadable somewhere, and maybe others.
#[derive(Drop)]
pub struct Unsure {
    by_namespace: ByText,
    cluster_bindings: Keys,
}

impl Unsure {
    fn new(alloc: Global) -> Unsure
        ensures { AreFound result [] }
    {
        Unsure {
            by_namespace: BTreeMap::new(alloc),
            cluster_bindings: Keys::new(alloc),
        }
    }

    // Takes a binding; keys of other kinds are let go.
    fn add(&mut self, alloc: Global, key: &ObjectKey) -> Result<(), OutOfMemory>
        ensures { OnOk result ((keys : List ObjectKey) → AreFound self.old keys
            → AreFound self.new (keys ++ key.now ∷ [])) }
    {
        let kind = kind_of_key(key);
        if is_kind(kind, Kind::RoleBinding) {
            add_under(alloc, &mut self.by_namespace, &key.namespace, key)?;
            return Ok(());
        }
        if is_kind(kind, Kind::ClusterRoleBinding) {
            self.cluster_bindings.add(key)?;
            return Ok(());
        }
        Ok(())
    }

    fn add_each(&mut self, alloc: Global, more: &[ObjectKey]) -> Result<(), OutOfMemory>
        ensures { OnOk result ((keys : List ObjectKey) → AreFound self.old keys
            → AreFound self.new (keys ++ more.now)) }
    {
        for key in more {
            self.add(alloc, key)?;
        }
        Ok(())
    }

    /// Of the versions and the unrecorded writes.
    pub fn of(
        alloc: Global,
        versions: &[RbacVersion],
        spans: &[OpaqueSpan],
        clouds: &Clouds,
    ) -> Result<Unsure, OutOfMemory>
        ensures { IfOk result (AreUnsure clouds.now versions.now spans.now) }
    {
        let of_versions = keys_of_versions(alloc, versions, clouds)?;
        let of_spans = keys_of_spans(alloc, spans)?;
        let keys = in_order(of_versions, of_spans)?;
        let mut unsure = Unsure::new(alloc);
        unsure.add_each(alloc, keys.as_slice())?;
        Ok(unsure)
    }

    /// Those of a kind that can reach the request, and maybe others.
    pub fn keys(&self, kind: Kind, attrs: &RequestAttrs) -> &[ObjectKey]
        ensures { result.now ≡ unsure_keys self.now kind attrs.now }
    {
        match kind {
            Kind::ClusterRoleBinding => self.cluster_bindings.as_slice(),
            _ => found(&self.by_namespace, &attrs.namespace),
        }
    }
}
