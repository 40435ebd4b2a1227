ghost use Rattle.std.specs.Prelude.{◌≡◌, IfOk, OnErr, IsSome, IsTrue, is_some, codes};
ghost use Rattle.std.specs.List.{list_all};
ghost use Rattle.base_types.specs.Parts.{member_of};
ghost use Rattle.rbac_rules.specs.Forms.{role_of, binding_of};
ghost use Rattle.setup_file.specs.Authorization.{authorize_of, groups_or, authorization_of, rbac_group, is_rbac};
ghost use Rattle.setup_file.specs.Authorization.{is_readable, has_rbac, is_authorized, rbac_resources};
ghost use Rattle.setup_file.specs.Resources.{tracked_as};

use crate::setup::SnapshotObject;
use crate::tracked_list::TrackedList;
use crate::values::flag_of;
use base_types::{OutOfMemory, Text, Texts};
use packed_tree::{Packed, PackedRef};
use rbac_rules::{RbacFault, read_binding, read_role};
use std::alloc::Global;

/// Whether recorded decisions are judged, the groups that pass RBAC, and those that aren't judged.
#[derive(Drop)]
pub struct Authorization {
    pub authorize: bool,
    pub bypass: Texts,
    pub skip: Texts,
}

const RBAC_GROUP: &str = "rbac.authorization.k8s.io";

fn authorize_of(member: Option<PackedRef<'_>>) -> Option<bool>
    ensures { result ≡ authorize_of member.entry }
{
    match member {
        Some(value) => flag_of(&value),
        None => Some(false),
    }
}

// The groups of a member, or the one group that needn't be said.
fn groups_or(
    alloc: Global,
    usual: &str,
    member: Option<PackedRef<'_>>,
) -> Result<Option<Texts>, OutOfMemory>
    ensures { IfOk result (λ found. found ≡ groups_or usual.now member.entry) }
{
    let Some(member) = member else {
        let mut groups = Texts::new(alloc);
        groups.push(Text::from_str(alloc, usual)?)?;
        return Ok(Some(groups));
    };
    let tree = member.tree(alloc)?;
    tree.to_texts(alloc)
}

/// Reads what a setup says of authorization.
pub fn read_authorization(
    alloc: Global,
    value: &PackedRef<'_>,
) -> Result<Option<Authorization>, OutOfMemory>
    ensures authorization { IfOk result (λ found. found ≡ authorization_of value.now) }
    ensures memory { OnErr result (IsSome (authorize_of
        (member_of (codes "authorize") value.now))) }
{
    let Some(authorize) = authorize_of(value.member("authorize")) else {
        return Ok(None);
    };
    let Some(bypass) = groups_or(alloc, "system:masters", value.member("bypassGroups"))? else {
        return Ok(None);
    };
    let Some(skip) = groups_or(alloc, "system:nodes", value.member("skipGroups"))? else {
        return Ok(None);
    };
    Ok(Some(Authorization {
        authorize,
        bypass,
        skip,
    }))
}

fn is_rbac(object: &SnapshotObject, resource: &str) -> bool
    ensures { result ≡ is_rbac resource.now object.now }
{
    object.key.group.as_str() == RBAC_GROUP && object.key.resource.as_str() == resource
}

fn is_role(alloc: Global, object: &Packed) -> Result<bool, OutOfMemory>
    ensures { IfOk result (λ is. is ≡ is_some (role_of object.now)) }
{
    let tree = object.tree(alloc)?;
    match read_role(alloc, &tree) {
        Ok(_) => Ok(true),
        Err(RbacFault::Form) => Ok(false),
        Err(RbacFault::OutOfMemory) => Err(OutOfMemory),
    }
}

fn is_binding(alloc: Global, object: &Packed) -> Result<bool, OutOfMemory>
    ensures { IfOk result (λ is. is ≡ is_some (binding_of object.now)) }
{
    let tree = object.tree(alloc)?;
    match read_binding(alloc, &tree) {
        Ok(_) => Ok(true),
        Err(RbacFault::Form) => Ok(false),
        Err(RbacFault::OutOfMemory) => Err(OutOfMemory),
    }
}

fn is_readable(alloc: Global, object: &SnapshotObject) -> Result<bool, OutOfMemory>
    ensures { IfOk result (λ is. is ≡ is_readable object.now) }
{
    if is_rbac(object, "roles") || is_rbac(object, "clusterroles") {
        return is_role(alloc, &object.tree);
    }
    if is_rbac(object, "rolebindings") || is_rbac(object, "clusterrolebindings") {
        return is_binding(alloc, &object.tree);
    }
    Ok(true)
}

fn are_readable(alloc: Global, objects: &[SnapshotObject]) -> Result<bool, OutOfMemory>
    ensures { IfOk result (λ are. are ≡ list_all is_readable objects.now) }
{
    for object in objects {
        if !is_readable(alloc, object)? {
            return Ok(false);
        }
    }
    Ok(true)
}

fn has_rbac_resource(
    alloc: Global,
    resources: &TrackedList,
    resource: &str,
) -> Result<bool, OutOfMemory>
    ensures { IfOk result (λ has. has ≡ is_some
        (tracked_as resources.now rbac_group resource.now)) }
{
    let group = Text::from_str(alloc, RBAC_GROUP)?;
    let resource = Text::from_str(alloc, resource)?;
    Ok(resources.find(&group, &resource).is_some())
}

fn has_rbac_resources(alloc: Global, resources: &TrackedList) -> Result<bool, OutOfMemory>
    ensures { IfOk result (λ has. has ≡ list_all
        (λ resource. is_some (tracked_as resources.now rbac_group resource)) rbac_resources) }
{
    Ok(
        has_rbac_resource(alloc, resources, "roles")?
            && has_rbac_resource(alloc, resources, "clusterroles")?
            && has_rbac_resource(alloc, resources, "rolebindings")?
            && has_rbac_resource(alloc, resources, "clusterrolebindings")?,
    )
}

/// Whether what RBAC needs is there, where decisions are judged: its four resources are tracked, and the
/// roles and bindings of the snapshot are readable.
pub fn is_authorized(
    alloc: Global,
    resources: &TrackedList,
    snapshot: &[SnapshotObject],
    authorization: &Authorization,
) -> Result<bool, OutOfMemory>
    ensures is { IfOk result (λ is. is ≡ is_authorized resources.now snapshot.now
        authorization.now) }
    ensures memory { OnErr result (IsTrue authorization.now.authorize) }
{
    if !authorization.authorize {
        return Ok(true);
    }
    if !has_rbac_resources(alloc, resources)? {
        return Ok(false);
    }
    are_readable(alloc, snapshot)
}
