ghost use Rattle.std.specs.Prelude.{◌≡◌, ◌<◌, ◌≤◌, ◌++◌, ◌↔◌, IfOk, IfSome, IsTrue, OnOk, length, string_bytes};
ghost use Rattle.std.specs.Prelude.{option_and_then, slice_get, Contains};
ghost use Rattle.history_query.specs.Appending.{Appends};
ghost use Rattle.history_query.specs.Blaming.{IsBlame, IsBlameText, IsPresentBlame, IsSince, since_text, value_pointed};
ghost use Rattle.history_query.specs.Blaming.{value_text};

use crate::json::append_json;
use crate::sight::{ObjectSight, sight_of};
use crate::telling::{append_piece, append_user, append_who, is_untold};
use base_types::json::Pointer;
use base_types::{Bytes, ObjectKey, OutOfMemory};
use log_context::Context;
use node_number::NodeId;
use node_pool::Pool;
use object_past::Version;
use std::alloc::Global;

/// The value that a pointer identifies in the object that may be at a place, and the write since which each version of
/// that object has it.
pub fn blame(
    alloc: Global,
    context: &Context,
    key: &ObjectKey,
    pointer: &Pointer,
    place: u64,
) -> Result<Bytes, OutOfMemory>
    ensures { IfOk result (IsBlameText context.now key.now pointer.now place) }
{
    let mut text = String::new(alloc);
    if is_untold(context, key, place) {
        text.push_str("unknown\n")?;
    } else {
        append_blame(alloc, &mut text, context, key, pointer, place)?;
    }
    Ok(Bytes::from_vec(text.into_bytes()))
}

fn append_blame(
    alloc: Global,
    text: &mut String,
    context: &Context,
    key: &ObjectKey,
    pointer: &Pointer,
    place: u64,
) -> Result<(), OutOfMemory>
    ensures { OnOk result (Appends (IsBlame context.now key.now pointer.now place)
        (string_bytes text.old) (string_bytes text.new)) }
{
    match sight_of(context, key, place) {
        ObjectSight::Clouded => append_piece(text, "clouded\n"),
        ObjectSight::Told { present: None, .. } => append_piece(text, "absent\n"),
        ObjectSight::Told {
            present: Some(version),
            ..
        } => append_origin(alloc, text, context, pointer, version),
    }
}

// The value in a version, and where it comes from.
fn append_origin(
    alloc: Global,
    text: &mut String,
    context: &Context,
    pointer: &Pointer,
    version: &Version,
) -> Result<(), OutOfMemory>
    requires { Contains context.now.versions version.now }
    ensures { OnOk result (Appends (IsPresentBlame context.now pointer.now (Some version.now))
        (string_bytes text.old) (string_bytes text.new)) }
{
    append_value(alloc, text, context, value_in(context, pointer, version))?;
    append_since(alloc, text, context, since_of(context, pointer, version))
}

fn append_value(
    alloc: Global,
    text: &mut String,
    context: &Context,
    value: Option<NodeId>,
) -> Result<(), OutOfMemory>
    requires { IfSome value (λ node. node.0 < length context.now.trees) }
    ensures { OnOk result (string_bytes text.new ≡ string_bytes text.old
        ++ value_text (option_and_then (λ node. slice_get context.now.trees node.0) value)) }
{
    match value {
        Some(node) => append_tree(alloc, text, context, node),
        None => append_piece(text, "no value\n"),
    }
}

fn append_tree(
    alloc: Global,
    text: &mut String,
    context: &Context,
    node: NodeId,
) -> Result<(), OutOfMemory>
    requires { node.0 < length context.now.trees }
    ensures { OnOk result (string_bytes text.new ≡ string_bytes text.old ++ value_text
        (slice_get context.now.trees node.0)) }
{
    text.push_str("value ")?;
    append_json(alloc, text, context.pool(), node)
}

fn append_since(
    alloc: Global,
    text: &mut String,
    context: &Context,
    since: &Version,
) -> Result<(), OutOfMemory>
    ensures { OnOk result (string_bytes text.new ≡ string_bytes text.old
        ++ since_text context.now.events context.now.log since.now) }
{
    write!(text, "since {} ", since.revision.get())?;
    append_who(text, context.log(), since.maker)?;
    append_user(alloc, text, context.events(), since.maker)
}

// The first version from which on, up to this one, each is one of the same object with the same value.
fn since_of<'a>(context: &'a Context, pointer: &Pointer, version: &'a Version) -> &'a Version
    requires { Contains context.now.versions version.now }
    ensures { IsSince context.now pointer.now version.now result.now }
{
    let versions = context.past().versions();
    let mut since = None;
    for other in versions {
        if is_before(other, version) {
            since = if is_same_at(context, pointer, version, other) {
                since.or(Some(other))
            } else {
                None
            };
        }
    }
    since.unwrap_or(version)
}

// Another version of the version's key, at or below its revision.
fn is_before(other: &Version, version: &Version) -> bool
    ensures { IsTrue result ↔ ((other.now.key ≡ version.now.key)
        × (other.now.revision ≤ version.now.revision)) }
{
    other.key == version.key && other.revision.get() <= version.revision.get()
}

// Another version of the same object with the same value at the pointer.
fn is_same_at(context: &Context, pointer: &Pointer, version: &Version, other: &Version) -> bool
    requires version { Contains context.now.versions version.now }
    requires other { Contains context.now.versions other.now }
    ensures { IsTrue result ↔ ((other.now.uid ≡ version.now.uid)
        × (value_pointed context.now.trees pointer.now other.now
        ≡ value_pointed context.now.trees pointer.now version.now)) }
{
    other.uid == version.uid && has_same_value(context, pointer, version, other)
}

fn has_same_value(context: &Context, pointer: &Pointer, version: &Version, other: &Version) -> bool
    requires version { Contains context.now.versions version.now }
    requires other { Contains context.now.versions other.now }
    ensures { IsTrue result ↔ (value_pointed context.now.trees pointer.now other.now
        ≡ value_pointed context.now.trees pointer.now version.now) }
{
    are_same(
        context.pool(),
        value_in(context, pointer, other),
        value_in(context, pointer, version),
    )
}

// What the pointer identifies in a version.
fn value_in(context: &Context, pointer: &Pointer, version: &Version) -> Option<NodeId>
    requires { Contains context.now.versions version.now }
    ensures value { option_and_then (λ node. slice_get context.now.trees node.0) result
        ≡ value_pointed context.now.trees pointer.now version.now }
    ensures within { IfSome result (λ node. node.0 < length context.now.trees) }
{
    let _versions = context.versions();
    context.pool().at(version.node, pointer)
}

// Whether two trees are the same, or both are absent.
fn are_same(pool: &Pool, first: Option<NodeId>, second: Option<NodeId>) -> bool
    requires first { IfSome first (λ node. node.0 < length pool.now.trees) }
    requires second { IfSome second (λ node. node.0 < length pool.now.trees) }
    ensures { IsTrue result ↔ (option_and_then (λ node. slice_get pool.now.trees node.0) first ≡
        option_and_then (λ node. slice_get pool.now.trees node.0) second) }
{
    match (first, second) {
        (Some(first), Some(second)) => pool.same(first, second),
        (Some(_), None) => false,
        (None, Some(_)) => false,
        (None, None) => true,
    }
}
