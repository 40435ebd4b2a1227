ghost use Rattle.std.specs.Prelude.{◌≡◌, ◌++◌, IfOk, OnOk, map};
ghost use Rattle.std.specs.List.{flat_map};
ghost use Rattle.base_types.specs.Meaning.{items, kids_of};
ghost use Rattle.cluster_setup.specs.Making.{filled, whole_item, object_entry, objects_of};

use crate::building::{items, object, put, said, say};
use crate::sources::Sources;
use crate::words::{group_of, listed, word};
use base_types::OutOfMemory;
use base_types::json::{Node, Tree, copy};
use std::alloc::Global;

// Puts a text at a name, where the object has nothing there.
fn fill(alloc: Global, tree: &mut Tree, name: &str, text: &str) -> Result<(), OutOfMemory>
    ensures { OnOk result (tree.new ≡ filled name.now text.now tree.old) }
{
    if tree.member(name).is_some() {
        return Ok(());
    }
    if let Node::Members(list) = &mut tree.node {
        say(alloc, list, name, text)?;
    }
    Ok(())
}

// Puts the kind and the version into an item of a list, which leaves them out.
fn complete(alloc: Global, tree: &mut Tree, kind: &str, version: &str) -> Result<(), OutOfMemory>
    ensures { OnOk result (tree.new ≡ whole_item kind.now version.now tree.old) }
{
    fill(alloc, tree, "kind", kind)?;
    fill(alloc, tree, "apiVersion", version)
}

// The item of a list, with the kind and the version that the list leaves out.
fn whole_item(alloc: Global, kind: &str, version: &str, item: &Tree) -> Result<Tree, OutOfMemory>
    ensures { IfOk result (λ made. made ≡ whole_item kind.now version.now item.now) }
{
    let mut made = copy(alloc, item)?;
    let Ok(()) = complete(alloc, &mut made, kind, version) else {
        drop(made);
        return Err(OutOfMemory);
    };
    Ok(made)
}

fn object_entry(
    alloc: Global,
    group: &str,
    name: &str,
    kind: &str,
    version: &str,
    item: &Tree,
) -> Result<Tree, OutOfMemory>
    ensures { IfOk result (λ made.
        made ≡ object_entry group.now name.now kind.now version.now item.now) }
{
    let mut fields = said(alloc, &[("group", group), ("resource", name)])?;
    let whole = whole_item(alloc, kind, version, item)?;
    put(alloc, &mut fields, "object", whole)?;
    Ok(object(fields))
}

// Puts items of a list behind others, as objects of the snapshot.
fn add_items(
    alloc: Global,
    objects: &mut Vec<Tree>,
    group: &str,
    name: &str,
    kind: &str,
    version: &str,
    list: &[Tree],
) -> Result<(), OutOfMemory>
    ensures { OnOk result (objects.new.items ≡ objects.old.items
        ++ map (object_entry group.now name.now kind.now version.now) list.now) }
{
    for item in list {
        objects.push(object_entry(alloc, group, name, kind, version, item)?)?;
    }
    Ok(())
}

// Puts the objects of a file that is a list behind others.
fn add_objects<'a>(
    alloc: Global,
    objects: &mut Vec<Tree>,
    sources: &Sources<'a>,
    list: &'a Tree,
) -> Result<(), OutOfMemory>
    ensures { OnOk result (objects.new.items
        ≡ objects.old.items ++ objects_of sources.now list.now) }
{
    let Some(found) = sources.found_for(list) else {
        return Ok(());
    };
    let version = word(found.document.tree(), "groupVersion");
    let name = word(found.entry, "name");
    let kind = word(found.entry, "kind");
    add_items(
        alloc,
        objects,
        group_of(version),
        name,
        kind,
        version,
        listed(list, "items"),
    )
}

/// The objects of these files that are lists, of resources that all files tell.
pub fn objects_in<'a>(
    alloc: Global,
    sources: &Sources<'a>,
    shown: &'a [Tree],
) -> Result<Tree, OutOfMemory>
    ensures { IfOk result (λ objects.
        objects ≡ items (kids_of (flat_map (objects_of sources.now) shown.now))) }
{
    let mut objects = Vec::new(alloc);
    for list in shown {
        add_objects(alloc, &mut objects, sources, list)?;
    }
    Ok(items(objects))
}
