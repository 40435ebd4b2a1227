ghost use Rattle.std.specs.Prelude.{◌≡◌, ℕ, List, None, Ok, IfOk, IfErr, bytes_eq, codes, if◌then◌else◌};
ghost use Rattle.json_patch.specs.Reading.{pointer_at, pair_of, with_value, with_from, op_of, patch_of, IsPatchFault};
ghost use Rattle.base_types.specs.Parts.{member_of};

use crate::fault::PatchFault;
use crate::op::{Op, Patch};
use base_types::OutOfMemory;
use base_types::json::{Pointer, PointerFault, Tree, copy, read_pointer};
use std::alloc::Global;

/// The most operations that a patch may have.
const MAX_OPERATIONS: usize = 10_000;

/// The patch that a JSON value is (RFC 6902 sections 3 and 4).
pub fn read_patch(alloc: Global, tree: &Tree) -> Result<Patch, PatchFault>
    ensures ok { IfOk result (λ patch. patch_of tree.now ≡ Ok patch) }
    ensures fault { IfErr result (IsPatchFault (patch_of tree.now)) }
{
    let Some(list) = tree.as_items() else {
        return Err(PatchFault::NotList);
    };
    if list.all.len() > MAX_OPERATIONS {
        return Err(PatchFault::TooMany);
    }
    let mut ops = Vec::with_capacity(alloc, list.all.len())?;
    for index in 0..list.all.len() {
        match read_op(alloc, &list.all[index])? {
            Some(op) => ops.push(op)?,
            None => {
                let index = index as u32;
                return Err(PatchFault::BadOperation { index });
            }
        }
    }
    Ok(Patch::new(ops))
}

fn read_op(alloc: Global, tree: &Tree) -> Result<Option<Op>, OutOfMemory>
    ensures { IfOk result (λ op. op ≡ op_of tree.now) }
{
    let Some(name) = tree.text_at("op") else {
        return Ok(None);
    };
    match name.as_str() {
        "add" => {
            Ok(read_path_and_value(alloc, tree)?.map(|(path, value)| Op::Add { path, value }))
        }
        "remove" => Ok(read_path(alloc, tree, "path")?.map(|path| Op::Remove { path })),
        "replace" => {
            Ok(read_path_and_value(alloc, tree)?.map(|(path, value)| Op::Replace { path, value }))
        }
        other => read_other_op(alloc, tree, other),
    }
}

// An operation that moves, copies or tests a value.
fn read_other_op(alloc: Global, tree: &Tree, name: &str) -> Result<Option<Op>, OutOfMemory>
    ensures { IfOk result (λ op. op ≡
        (if bytes_eq name.now (codes "move") then with_from Op.Move tree.now
        else (if bytes_eq name.now (codes "copy") then with_from Op.Copy tree.now
        else (if bytes_eq name.now (codes "test") then with_value Op.Test tree.now else None)))) }
{
    match name {
        "move" => {
            Ok(read_from_and_path(alloc, tree)?.map(|(from, path)| Op::Move { from, path }))
        }
        "copy" => {
            Ok(read_from_and_path(alloc, tree)?.map(|(from, path)| Op::Copy { from, path }))
        }
        "test" => {
            Ok(read_path_and_value(alloc, tree)?.map(|(path, value)| Op::Test { path, value }))
        }
        _ => Ok(None),
    }
}

fn read_path_and_value(alloc: Global, tree: &Tree) -> Result<Option<(Pointer, Tree)>, OutOfMemory>
    ensures { IfOk result (λ both. both ≡ pair_of (pointer_at (codes "path") tree.now)
        (member_of (codes "value") tree.now)) }
{
    let Some(path) = read_path(alloc, tree, "path")? else {
        return Ok(None);
    };
    match tree.member("value") {
        Some(value) => Ok(Some((path, copy(alloc, value)?))),
        None => Ok(None),
    }
}

fn read_from_and_path(alloc: Global, tree: &Tree) -> Result<Option<(Pointer, Pointer)>, OutOfMemory>
    ensures { IfOk result (λ both. both ≡ pair_of (pointer_at (codes "from") tree.now)
        (pointer_at (codes "path") tree.now)) }
{
    let Some(from) = read_path(alloc, tree, "from")? else {
        return Ok(None);
    };
    match read_path(alloc, tree, "path")? {
        Some(path) => Ok(Some((from, path))),
        None => Ok(None),
    }
}

fn read_path(alloc: Global, tree: &Tree, name: &str) -> Result<Option<Pointer>, OutOfMemory>
    ensures { IfOk result (λ path. path ≡ pointer_at name.now tree.now) }
{
    let Some(text) = tree.text_at(name) else {
        return Ok(None);
    };
    match read_pointer(alloc, text.as_str()) {
        Ok(path) => Ok(Some(path)),
        Err(PointerFault::Form) => Ok(None),
        Err(PointerFault::OutOfMemory) => Err(OutOfMemory),
    }
}
