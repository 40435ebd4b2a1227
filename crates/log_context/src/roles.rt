ghost use Rattle.std.specs.Prelude.{◌≡◌, ◌<◌, ◌^◌, Some, IfOk, All, AllPairs, length};
ghost use Rattle.std.specs.List.Sorted.{IsPermutation, IsSorted};
ghost use Rattle.log_context.specs.Roles.{AreRoles, binding_content, content_by, is_role, rbac_version};
ghost use Rattle.log_context.specs.Roles.{role_content, role_end, role_ends, roles_at, turn_order, turns_from};
ghost use Rattle.log_context.specs.Timelines.{IsTimelineOf};

use base_types::json::Tree;
use base_types::{ObjectKey, OutOfMemory, Revision};
use clouds::OpaqueSpans;
use node_pool::Pool;
use object_past::{Past, Removal, Version};
use past_building::unrecorded_of;
use rbac_rules::{RbacFault, read_binding, read_role};
use rbac_timeline::{
    Kind, RbacContent, RbacEnd, RbacEnds, RbacVersion, RbacVersions, Timeline, kind_of_key,
};
use setup_file::Setup;
use std::alloc::Global;
use time_windows::Windows;
use write_groups::LogEvent;

fn role_content(alloc: Global, tree: &Tree) -> Result<RbacContent, OutOfMemory>
    ensures { IfOk result (λ content. content ≡ role_content tree.now) }
{
    match read_role(alloc, tree) {
        Ok(rules) => Ok(RbacContent::Role(rules)),
        Err(RbacFault::Form) => Ok(RbacContent::Unreadable),
        Err(RbacFault::OutOfMemory) => Err(OutOfMemory),
    }
}

fn binding_content(alloc: Global, tree: &Tree) -> Result<RbacContent, OutOfMemory>
    ensures { IfOk result (λ content. content ≡ binding_content tree.now) }
{
    match read_binding(alloc, tree) {
        Ok(binding) => Ok(RbacContent::Bound(binding)),
        Err(RbacFault::Form) => Ok(RbacContent::Unreadable),
        Err(RbacFault::OutOfMemory) => Err(OutOfMemory),
    }
}

// What an object of the kind holds.
fn content_by(alloc: Global, kind: Kind, tree: &Tree) -> Result<RbacContent, OutOfMemory>
    ensures { IfOk result (λ content. content ≡ content_by (Some kind) tree.now) }
{
    match kind {
        Kind::Role => role_content(alloc, tree),
        Kind::ClusterRole => role_content(alloc, tree),
        Kind::RoleBinding => binding_content(alloc, tree),
        Kind::ClusterRoleBinding => binding_content(alloc, tree),
    }
}

fn is_role(key: &ObjectKey) -> bool
    ensures { result ≡ is_role key.now }
{
    kind_of_key(key).is_some()
}

// The role or binding that a version is, as the authorizer reads it.
fn rbac_version(
    alloc: Global,
    pool: &Pool,
    version: &Version,
) -> Result<Option<RbacVersion>, OutOfMemory>
    requires { version.now.node.0 < length pool.now.trees }
    ensures { IfOk result (λ read. read ≡ rbac_version pool.now.trees version.now) }
{
    let Some(kind) = kind_of_key(&version.key) else {
        return Ok(None);
    };
    let tree = pool.tree(version.node)?;
    let Ok(content) = content_by(alloc, kind, &tree) else {
        drop(tree);
        return Err(OutOfMemory);
    };
    drop(tree);
    let Ok(key) = version.key.clone() else {
        drop(content);
        return Err(OutOfMemory);
    };
    Ok(Some(RbacVersion {
        key,
        revision: version.revision,
        content,
    }))
}

// What versions are sorted by, and their position.
#[derive(PartialEq, Eq, PartialOrd, Ord, Drop)]
pub struct RoleTurn {
    key: ObjectKey,
    revision: Revision,
    position: u32,
}

// The turns of the roles and bindings.
fn turns_of(alloc: Global, versions: &[Version]) -> Result<Vec<RoleTurn>, OutOfMemory>
    requires { length versions.now < 2 ^ 32 }
    ensures { IfOk result (λ turns. turns.items ≡ turns_from 0 versions.now) }
{
    let mut turns = Vec::new(alloc);
    for (i, version) in versions.iter().enumerate() {
        if is_role(&version.key) {
            turns.push(RoleTurn {
                key: version.key.clone()?,
                revision: version.revision,
                position: i as u32,
            })?;
        }
    }
    Ok(turns)
}

fn sorted(mut turns: Vec<RoleTurn>) -> Result<Vec<RoleTurn>, OutOfMemory>
    ensures same { IfOk result (λ order. IsPermutation turns.items order.items) }
    ensures sorted { IfOk result (λ order. IsSorted turn_order order.items) }
{
    turns.sort()?;
    Ok(turns)
}

// The roles and bindings at these positions.
fn roles_at(
    alloc: Global,
    pool: &Pool,
    versions: &[Version],
    turns: &[RoleTurn],
) -> Result<RbacVersions, OutOfMemory>
    requires within { All (λ turn. turn.position < length versions.now) turns.now }
    requires nodes { All (λ v. v.node.0 < length pool.now.trees) versions.now }
    ensures { IfOk result (λ roles. roles ≡ roles_at pool.now.trees versions.now turns.now) }
{
    let mut roles = RbacVersions::new(alloc);
    for turn in turns {
        if let Some(role) = rbac_version(alloc, pool, &versions[turn.position as usize])? {
            roles.push(role)?;
        }
    }
    Ok(roles)
}

/// The roles and bindings among versions that rise by revision.
pub fn roles_of(
    alloc: Global,
    pool: &Pool,
    versions: &[Version],
) -> Result<RbacVersions, OutOfMemory>
    requires few { length versions.now < 2 ^ 32 }
    requires rising { AllPairs (λ a b. a.revision < b.revision) versions.now }
    requires nodes { All (λ v. v.node.0 < length pool.now.trees) versions.now }
    ensures { IfOk result (AreRoles pool.now.trees versions.now) }
{
    let turns = sorted(turns_of(alloc, versions)?)?;
    roles_at(alloc, pool, versions, &turns)
}

fn role_end(removal: &Removal) -> Result<RbacEnd, OutOfMemory>
    ensures { IfOk result (λ end. end ≡ role_end removal.now) }
{
    Ok(RbacEnd {
        key: removal.key.clone()?,
        last: removal.last,
        low: removal.range.low,
        high: removal.range.high,
    })
}

/// The removals of roles and bindings.
pub fn role_ends(alloc: Global, removals: &[Removal]) -> Result<RbacEnds, OutOfMemory>
    ensures { IfOk result (λ ends. ends ≡ role_ends removals.now) }
{
    let mut ends = RbacEnds::new(alloc);
    for removal in removals {
        if is_role(&removal.key) {
            ends.push(role_end(removal)?)?;
        }
    }
    Ok(ends)
}

/// Roles and bindings at each place of a past.
pub fn timeline_of(
    alloc: Global,
    setup: &Setup,
    windows: &Windows,
    log: &[LogEvent],
    past: &Past,
    pool: &Pool,
) -> Result<Timeline, OutOfMemory>
    requires start { setup.now.start ≡ windows.now.start }
    requires few { length past.now.versions < 2 ^ 32 }
    requires nodes { All (λ v. v.node.0 < length pool.now.trees) past.now.versions }
    ensures { IfOk result (IsTimelineOf setup.now pool.now.trees past.now windows.now log.now) }
{
    let roles = roles_of(alloc, pool, past.versions())?;
    let ends = role_ends(alloc, past.removals())?;
    let spans = OpaqueSpans::from_vec(unrecorded_of(alloc, windows, setup.start, log)?);
    Timeline::build(alloc, roles, ends, spans, &setup.bypass)
}
