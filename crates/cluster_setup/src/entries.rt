ghost use Rattle.std.specs.Prelude.{◌≡◌, ◌++◌, IfOk, OnOk};
ghost use Rattle.std.specs.List.{flat_map};
ghost use Rattle.base_types.specs.Meaning.{fields_of, items, kids_of};
ghost use Rattle.cluster_setup.specs.Files.{word};
ghost use Rattle.cluster_setup.specs.Making.{shapes_of, status_shapes_of, same_subresource, idle_subresource};
ghost use Rattle.cluster_setup.specs.Making.{subresources_of};
ghost use Rattle.cluster_setup.specs.Making.{is_namespaced, entry_of, form_for, entries_of};
ghost use Rattle.cluster_setup.specs.Parts.{subresource, subresources_among, with_rules_of, with_subresource};
ghost use Rattle.cluster_setup.specs.Table.{patch_of};

use crate::building::{flag, items, object, put, said, say};
use crate::documents::Document;
use crate::finding::FoundResource;
use crate::shapes::{shape_list, shapes_of, status_shapes_of};
use crate::sources::Sources;
use crate::table::{Form, form_of, patch_of};
use crate::words::{group_of, version_of, word};
use base_types::OutOfMemory;
use base_types::json::{MemberList, Tree};
use std::alloc::Global;

/// The subresources whose effect is known; a write of another one hides its object.
const KNOWN: [&str; 7] = [
    "status",
    "log",
    "exec",
    "attach",
    "portforward",
    "proxy",
    "token",
];

// The subresource that writes its object's status.
fn status_subresource(alloc: Global, name: &str, form: Form) -> Result<Tree, OutOfMemory>
    ensures { IfOk result (λ tree. tree ≡ same_subresource name.now (status_shapes_of form)) }
{
    let mut fields = said(alloc, &[("name", name), ("effect", "same")])?;
    let shapes = shape_list(alloc, status_shapes_of(form))?;
    put(alloc, &mut fields, "shapes", shapes)?;
    Ok(object(fields))
}

// A subresource that writes nothing.
fn idle_subresource(alloc: Global, name: &str) -> Result<Tree, OutOfMemory>
    ensures { IfOk result (λ tree. tree ≡ idle_subresource name.now) }
{
    let fields = said(alloc, &[("name", name), ("effect", "none")])?;
    Ok(object(fields))
}

fn subresource(alloc: Global, name: &str, form: Form) -> Result<Tree, OutOfMemory>
    ensures { IfOk result (λ tree. tree ≡ subresource form name.now) }
{
    if name == "status" {
        return status_subresource(alloc, name, form);
    }
    idle_subresource(alloc, name)
}

fn add_subresource(
    alloc: Global,
    list: &mut Vec<Tree>,
    document: &Document<'_>,
    resource: &str,
    form: Form,
    name: &str,
) -> Result<(), OutOfMemory>
    ensures { OnOk result (list.new.items
        ≡ with_subresource document.now resource.now form list.old.items name.now) }
{
    if !document.is_served(alloc, resource, name)? {
        return Ok(());
    }
    list.push(subresource(alloc, name, form)?)?;
    Ok(())
}

// The subresources of these names that a resource has.
fn subresources_among(
    alloc: Global,
    document: &Document<'_>,
    resource: &str,
    form: Form,
    names: &[&str],
) -> Result<Vec<Tree>, OutOfMemory>
    ensures { IfOk result (λ list. list.items
        ≡ subresources_among document.now resource.now form names.now) }
{
    let mut list = Vec::new(alloc);
    for name in names {
        add_subresource(alloc, &mut list, document, resource, form, *name)?;
    }
    Ok(list)
}

// The subresources whose effect is known.
fn subresources_of(
    alloc: Global,
    document: &Document<'_>,
    resource: &str,
    form: Form,
) -> Result<Vec<Tree>, OutOfMemory>
    ensures { IfOk result (λ list. list.items ≡ subresources_of document.now resource.now form) }
{
    subresources_among(alloc, document, resource, form, &KNOWN)
}

fn is_namespaced(entry: &Tree) -> bool
    ensures { result ≡ is_namespaced entry.now }
{
    match entry.member("namespaced").and_then(Tree::as_flag) {
        Some(given) => given,
        None => false,
    }
}

// Says how a resource is judged.
fn add_rules(
    alloc: Global,
    fields: &mut MemberList,
    found: FoundResource<'_>,
    form: Form,
) -> Result<(), OutOfMemory>
    ensures { OnOk result (fields_of fields.new ≡ with_rules_of found.entry.document.now
        found.entry.entry.now form (fields_of fields.old)) }
{
    let FoundResource { document, entry } = found;
    put(alloc, fields, "namespaced", flag(is_namespaced(entry)))?;
    say(alloc, fields, "objectPatch", patch_of(form))?;
    let shapes = shape_list(alloc, shapes_of(form))?;
    put(alloc, fields, "shapes", shapes)?;
    let subresources = subresources_of(alloc, document, word(entry, "name"), form)?;
    put(alloc, fields, "subresources", items(subresources))
}

// The entry of a resource, whose lists have this kind.
fn entry_of(
    alloc: Global,
    found: FoundResource<'_>,
    list_kind: &str,
    form: Form,
) -> Result<Tree, OutOfMemory>
    ensures { IfOk result (λ tree. tree ≡ entry_of found.entry.document.now
        found.entry.entry.now list_kind.now form) }
{
    let FoundResource { document, entry } = found;
    let group_version = word(document.tree(), "groupVersion");
    let mut fields = said(
        alloc,
        &[
            ("group", group_of(group_version)),
            ("version", version_of(group_version)),
            ("resource", word(entry, "name")),
            ("kind", word(entry, "kind")),
            ("listKind", list_kind),
        ],
    )?;
    add_rules(alloc, &mut fields, found, form)?;
    Ok(object(fields))
}

fn form_for(found: FoundResource<'_>) -> Form
    ensures { result ≡ form_for found.entry.document.now found.entry.entry.now }
{
    form_of(
        group_of(word(found.document.tree(), "groupVersion")),
        word(found.entry, "name"),
    )
}

// Puts the entry of a file that is a list behind others.
fn add_entry<'a>(
    alloc: Global,
    entries: &mut Vec<Tree>,
    sources: &Sources<'a>,
    list: &'a Tree,
) -> Result<(), OutOfMemory>
    ensures { OnOk result (entries.new.items
        ≡ entries.old.items ++ entries_of sources.now list.now) }
{
    let Some(found) = sources.found_for(list) else {
        return Ok(());
    };
    let entry = entry_of(alloc, found, word(list, "kind"), form_for(found))?;
    entries.push(entry)?;
    Ok(())
}

/// The entries of these files that are lists, of resources that all files tell.
pub fn entries_in<'a>(
    alloc: Global,
    sources: &Sources<'a>,
    trees: &'a [Tree],
) -> Result<Tree, OutOfMemory>
    ensures { IfOk result (λ entries.
        entries ≡ items (kids_of (flat_map (entries_of sources.now) trees.now))) }
{
    let mut entries = Vec::new(alloc);
    for list in trees {
        add_entry(alloc, &mut entries, sources, list)?;
    }
    Ok(items(entries))
}
