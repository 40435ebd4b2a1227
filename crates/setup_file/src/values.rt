ghost use Rattle.std.specs.Prelude.{◌≡◌, IfOk, option_map};
ghost use Rattle.base_types.specs.Parts.{flag_of};
ghost use Rattle.base_types.specs.Texts.{items_or_none};

use base_types::OutOfMemory;
use packed_tree::{PackedItems, PackedRef, Shown};
use std::alloc::Global;

pub fn flag_of(value: &PackedRef<'_>) -> Option<bool>
    ensures { result ≡ flag_of value.now }
{
    match value.show() {
        Shown::Flag(flag) => Some(flag),
        _ => None,
    }
}

/// The values of a list, each to be read in place, so that a loop goes over a slice.
pub fn values_of<'a>(
    alloc: Global,
    list: PackedItems<'a>,
) -> Result<Vec<PackedRef<'a>>, OutOfMemory>
    ensures { IfOk result (λ values. values.items ≡ list.entry) }
{
    let mut values = Vec::new(alloc);
    let mut rest = list;
    'items: while let Some(value) = rest.next() {
        values.push(value)?;
    }
    Ok(values)
}

/// The values of a list that may be missing or null.
pub fn values_or_none<'a>(
    alloc: Global,
    member: Option<PackedRef<'a>>,
) -> Result<Option<Vec<PackedRef<'a>>>, OutOfMemory>
    ensures { IfOk result (λ found. option_map (λ values. values.items) found
        ≡ items_or_none member.entry) }
{
    let Some(value) = member else {
        return Ok(Some(Vec::new(alloc)));
    };
    if value.is_null() {
        return Ok(Some(Vec::new(alloc)));
    }
    match value.as_items() {
        Some(list) => Ok(Some(values_of(alloc, list)?)),
        None => Ok(None),
    }
}
