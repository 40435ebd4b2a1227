ghost use Rattle.std.specs.Prelude.{◌≡◌, ◌+◌, ◌-◌, ◌^◌, min, Ok, Err, IfOk, IfErr};
ghost use Rattle.base_types.specs.Parts.{items_of};
ghost use Rattle.base_types.specs.Pointers.{pointer_of};
ghost use Rattle.base_types.specs.Meaning.{Meaning};
ghost use Rattle.path_shape.specs.Reading.{class_named, is_known, entry_of, entries_from, shape_entries};
ghost use Rattle.path_shape.specs.Reading.{IsEntriesCause, IsCause};
ghost use Rattle.std.specs.List.{list_all};

use crate::shape::{FieldClass, Shape, ShapeEntries, ShapeEntry, ShapeFault};
use base_types::json::{MemberList, Pointer, PointerFault, Tree, read_pointer};
use base_types::{OutOfMemory, Text};
use std::alloc::Global;

fn class_named(name: &str) -> Option<FieldClass>
    ensures { result ≡ class_named name.now }
{
    match name {
        "Asked" => Some(FieldClass::Asked),
        "Defaulted" => Some(FieldClass::Defaulted),
        "Owned" => Some(FieldClass::Owned),
        "Kept" => Some(FieldClass::Kept),
        _ => None,
    }
}

fn are_known(members: &MemberList) -> bool
    ensures { result ≡ list_all is_known members.now }
{
    for member in &members.all {
        if member.name.as_str() != "path" && member.name.as_str() != "class" {
            return false;
        }
    }
    true
}

fn pointer_in(alloc: Global, text: &Text) -> Result<Option<Pointer>, OutOfMemory>
    ensures { IfOk result (λ found. found ≡ pointer_of text.now) }
{
    match read_pointer(alloc, text.as_str()) {
        Ok(path) => Ok(Some(path)),
        Err(PointerFault::Form) => Ok(None),
        Err(PointerFault::OutOfMemory) => Err(OutOfMemory),
    }
}

fn read_entry(alloc: Global, tree: &Tree) -> Result<Option<ShapeEntry>, OutOfMemory>
    ensures { IfOk result (λ found. found ≡ entry_of tree.now) }
{
    let Some(members) = tree.as_members() else {
        return Ok(None);
    };
    let Some(text) = tree.text_at("path") else {
        return Ok(None);
    };
    let Some(path) = pointer_in(alloc, text)? else {
        return Ok(None);
    };
    let Some(name) = tree.text_at("class") else {
        return Ok(None);
    };
    let Some(class) = class_named(name.as_str()) else {
        return Ok(None);
    };
    if !are_known(members) {
        return Ok(None);
    }
    Ok(Some(ShapeEntry { path, class }))
}

fn number_of(index: usize) -> u32
    ensures { result ≡ min index (2 ^ 32 - 1) }
{
    u32::try_from(index).unwrap_or(u32::MAX)
}

fn read_entries(alloc: Global, trees: &[Tree]) -> Result<ShapeEntries, ShapeFault>
    ensures entries { IfOk result (λ entries. entries_from 0 trees.now ≡ Ok entries) }
    ensures cause { IfErr result (IsEntriesCause trees.now) }
{
    let mut entries = ShapeEntries::new(alloc);
    for (i, tree) in trees.iter().enumerate() {
        let Some(entry) = read_entry(alloc, tree)? else {
            return Err(ShapeFault::Entry {
                index: number_of(i),
            });
        };
        entries.push(entry)?;
    }
    Ok(entries)
}

impl Shape {
    /// Reads the entries of a setup: a list of objects `{"path": POINTER, "class": NAME}`, of which a path is a
    /// JSON Pointer (RFC 6901). A member of another name is refused.
    pub fn read(alloc: Global, list: &Tree, root: FieldClass) -> Result<Shape, ShapeFault>
        ensures entries { IfOk result (λ shape. shape_entries list.now ≡ Ok shape.entries) }
        ensures root { IfOk result (λ shape. shape.root ≡ root) }
        ensures cause { IfErr result (IsCause list.now) }
    {
        let Some(trees) = list.as_items() else {
            return Err(ShapeFault::NotList);
        };
        let entries = read_entries(alloc, trees.all.as_slice())?;
        Ok(Shape { root, entries })
    }
}
