ghost use Rattle.std.specs.Prelude.{◌≡◌, IfOk, option_map, bytes_eq, codes};
ghost use Rattle.base_types.specs.Stored.{stored};
ghost use Rattle.setup_file.specs.Objects.{api_version_of, has_text_at, has_no, is_of_kind, namespace_in, is_under};
ghost use Rattle.setup_file.specs.Objects.{is_in_namespace, object_of};

use crate::setup::{SnapshotObject, Tracked};
use base_types::{ObjectKey, OutOfMemory, Revision, Text, is_combined};
use packed_tree::PackedRef;
use std::alloc::Global;

/// Whether the member is there with this text.
pub fn has_text_at(value: &PackedRef<'_>, name: &str, text: &str) -> bool
    ensures { result ≡ has_text_at name.now text.now value.now }
{
    match value.text_at(name) {
        Some(found) => found == text,
        None => false,
    }
}

pub fn has_no(value: &PackedRef<'_>, name: &str) -> bool
    ensures { result ≡ has_no name.now value.now }
{
    value.member(name).is_none()
}

// Whether a text is the `apiVersion` of a group's version.
fn is_api_version(group: &Text, version: &Text, text: &str) -> bool
    ensures { result ≡ bytes_eq text.now (api_version_of group.now version.now) }
{
    if group.is_empty() {
        return text == version.as_str();
    }
    is_combined(text, group.as_str(), version.as_str())
}

fn has_api_version(tracked: &Tracked, value: &PackedRef<'_>) -> bool
    ensures { result ≡ has_text_at (codes "apiVersion") (api_version_of tracked.now.group tracked.now.version) value.now }
{
    match value.text_at("apiVersion") {
        Some(text) => is_api_version(&tracked.group, &tracked.version, text),
        None => false,
    }
}

fn is_of_kind(tracked: &Tracked, value: &PackedRef<'_>) -> bool
    ensures { result ≡ is_of_kind tracked.now value.now }
{
    (has_text_at(value, "kind", tracked.kind.as_str()) && has_api_version(tracked, value))
        || (has_no(value, "kind") && has_no(value, "apiVersion"))
}

// The namespace of an object of the resource; that of a cluster-wide one is empty.
fn namespace_in<'a>(tracked: &Tracked, metadata: &PackedRef<'a>) -> Option<&'a str>
    ensures { option_map (λ text. text.now) result ≡ namespace_in tracked.now metadata.now }
{
    if tracked.namespaced {
        metadata.text_at("namespace")
    } else {
        Some("")
    }
}

// A path without the part takes each object.
fn is_under(part: &Text, own: &str) -> bool
    ensures { result ≡ is_under part.now own.now }
{
    part.is_empty() || part.as_str() == own
}

fn is_in_namespace(tracked: &Tracked, namespace: &Text, own: &str) -> bool
    ensures { result ≡ is_in_namespace tracked.now namespace.now own.now }
{
    !tracked.namespaced || is_under(namespace, own)
}

/// The key of an object of a resource.
pub fn key_of(
    alloc: Global,
    tracked: &Tracked,
    namespace: &str,
    name: &str,
) -> Result<ObjectKey, OutOfMemory>
    ensures { IfOk result (λ key. key ≡ record {
      group = tracked.now.group;
      resource = tracked.now.resource;
      namespace = namespace.now;
      name = name.now;
    }) }
{
    Ok(ObjectKey {
        group: tracked.group.clone()?,
        resource: tracked.resource.clone()?,
        namespace: Text::from_str(alloc, namespace)?,
        name: Text::from_str(alloc, name)?,
    })
}

/// The object with these parts, its tree in stored form.
pub(crate) fn object_with(
    alloc: Global,
    tracked: &Tracked,
    namespace: &str,
    name: &str,
    uid: &str,
    revision: Revision,
    value: &PackedRef<'_>,
) -> Result<SnapshotObject, OutOfMemory>
    ensures { IfOk result (λ object. object ≡ record {
      key = record { group = tracked.now.group; resource = tracked.now.resource; namespace = namespace.now; name = name.now };
      revision = revision;
      uid = uid.now;
      tree = stored value.now;
    }) }
{
    let tree = value.stored(alloc)?;
    let uid = Text::from_str(alloc, uid)?;
    let key = key_of(alloc, tracked, namespace, name)?;
    Ok(SnapshotObject {
        key,
        revision,
        uid,
        tree,
    })
}

/// Reads the object of a resource that a value is, under a path with this name and namespace, of which an
/// empty text is none. `kind` and `apiVersion` are those of the resource, or both are absent.
pub fn read_object(
    alloc: Global,
    tracked: &Tracked,
    name: &Text,
    namespace: &Text,
    value: &PackedRef<'_>,
) -> Result<Option<SnapshotObject>, OutOfMemory>
    ensures { IfOk result (λ found. found ≡ object_of tracked.now name.now namespace.now value.now) }
{
    let Some(metadata) = value.member("metadata") else {
        return Ok(None);
    };
    let Some(own_name) = metadata.filled_at("name") else {
        return Ok(None);
    };
    let Some(uid) = metadata.filled_at("uid") else {
        return Ok(None);
    };
    let Some(revision) = metadata.revision_at("resourceVersion") else {
        return Ok(None);
    };
    let Some(own_namespace) = namespace_in(tracked, &metadata) else {
        return Ok(None);
    };
    if !is_of_kind(tracked, value)
        || !is_under(name, own_name)
        || !is_in_namespace(tracked, namespace, own_namespace)
    {
        return Ok(None);
    }
    let object = object_with(
        alloc,
        tracked,
        own_namespace,
        own_name,
        uid,
        revision,
        value,
    )?;
    Ok(Some(object))
}
