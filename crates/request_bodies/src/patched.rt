ghost use Rattle.std.specs.Prelude.{◌≡◌, Some, OnOk, IfOk, codes};
ghost use Rattle.std.specs.List.{list_any};
ghost use Rattle.base_types.specs.Meaning.{words};
ghost use Rattle.base_types.specs.Stored.{without};
ghost use Rattle.merge_patch.specs.Merging.{merged};
ghost use Rattle.setup_file.specs.Objects.{api_version_of};
ghost use Rattle.setup_file.specs.declared.setup.Tracked.{Tracked as Resource};
ghost use Rattle.request_bodies.specs.Patched.{IsOrdered, put_in, typed, untyped, is_managed, touches_managed};

use base_types::json::{Node, Pointer, Tree, copy};
use base_types::{OutOfMemory, Text};
use json_patch::{Op, Patch};
use merge_patch::merge;
use setup_file::Tracked;
use std::alloc::Global;

// Puts a value at a name of an object; another tree stays.
fn put_in(tree: &mut Tree, name: Text, value: Tree) -> Result<(), OutOfMemory>
    ensures { OnOk result (tree.new ≡ put_in name value tree.old) }
{
    if let Node::Members(list) = &mut tree.node {
        list.put(name, value)?;
    }
    Ok(())
}

// The `apiVersion` of a resource's objects.
fn api_version(alloc: Global, tracked: &Tracked) -> Result<Text, OutOfMemory>
    ensures { IfOk result (λ text. text ≡ api_version_of tracked.now.group tracked.now.version) }
{
    if tracked.group.is_empty() {
        return Ok(tracked.version.clone()?);
    }
    let group = tracked.group.as_str();
    let version = tracked.version.as_str();
    Ok(Text::from_string(format!(in alloc; "{group}/{version}")?))
}

fn words(text: Text) -> Tree
    ensures { result ≡ words text }
{
    Tree {
        node: Node::Words(text),
    }
}

fn put_version(alloc: Global, tracked: &Tracked, tree: &mut Tree) -> Result<(), OutOfMemory>
    ensures { OnOk result (tree.new ≡ put_in (codes "apiVersion")
        (words (api_version_of tracked.now.group tracked.now.version)) tree.old) }
{
    let name = Text::from_str(alloc, "apiVersion")?;
    let version = api_version(alloc, tracked)?;
    put_in(tree, name, words(version))
}

fn put_kind(alloc: Global, tracked: &Tracked, tree: &mut Tree) -> Result<(), OutOfMemory>
    ensures { OnOk result (tree.new ≡ put_in (codes "kind") (words tracked.now.kind) tree.old) }
{
    let name = Text::from_str(alloc, "kind")?;
    let kind = tracked.kind.clone()?;
    put_in(tree, name, words(kind))
}

// Puts the version and the kind of a resource into an object.
fn put_type(alloc: Global, tracked: &Tracked, tree: &mut Tree) -> Result<(), OutOfMemory>
    ensures { OnOk result (tree.new ≡ typed tracked.now tree.old) }
{
    put_version(alloc, tracked, tree)?;
    put_kind(alloc, tracked, tree)
}

/// A copy of an object, with the version and the kind of its resource.
pub fn typed(alloc: Global, tracked: &Tracked, object: &Tree) -> Result<Tree, OutOfMemory>
    ensures { IfOk result (λ made. made ≡ typed tracked.now object.now) }
{
    let mut made = copy(alloc, object)?;
    put_type(alloc, tracked, &mut made)?;
    Ok(made)
}

fn take_out(tree: &mut Tree, name: &str)
    ensures { tree.new ≡ without name.now tree.old }
{
    if let Node::Members(list) = &mut tree.node {
        list.take(name);
    }
}

/// The object without its version and kind.
pub fn untyped(object: Tree) -> Tree
    ensures { result ≡ untyped object }
{
    let mut object = object;
    take_out(&mut object, "apiVersion");
    take_out(&mut object, "kind");
    object
}

// The members of an object stand in the order of their names.
fn order_law(tree: &Tree)
    ensures { IsOrdered tree.now }
{
    if let Node::Members(list) = &tree.node {
        let _all = list.all.as_slice();
    }
}

/// The old object after a merge patch, without its version and kind. They needn't be put in before, since it doesn't
/// matter to other members what they are.
pub fn merged(alloc: Global, old: &Tree, body: &Tree) -> Result<Tree, OutOfMemory>
    ensures { IfOk result (λ made. (tracked : Resource)
        → made ≡ untyped (merged (Some (typed tracked old.now)) body.now)) }
{
    order_law(old);
    Ok(untyped(merge(alloc, Some(old), body)?))
}

fn is_managed(path: &Pointer) -> bool
    ensures { result ≡ is_managed path.now }
{
    match path.as_slice() {
        [first, second, ..] => first.as_str() == "metadata" && second.as_str() == "managedFields",
        _ => false,
    }
}

fn touches_managed(op: &Op) -> bool
    ensures { result ≡ touches_managed op.now }
{
    match op {
        Op::Add { path, .. } => is_managed(path),
        Op::Remove { path } => is_managed(path),
        Op::Replace { path, .. } => is_managed(path),
        Op::Move { from, path } => is_managed(from) || is_managed(path),
        Op::Copy { from, path } => is_managed(from) || is_managed(path),
        Op::Test { path, .. } => is_managed(path),
    }
}

/// Whether some operation works on the managed fields (Kubernetes "Field Management").
pub fn is_of_managed(patch: &Patch) -> bool
    ensures { result ≡ list_any touches_managed patch.now }
{
    patch.as_slice().iter().any(|op| touches_managed(op))
}
