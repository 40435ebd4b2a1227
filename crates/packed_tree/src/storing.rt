ghost use Rattle.std.specs.Prelude.{◌≡◌, ◌++◌, OnOk, IfOk};
ghost use Rattle.base_types.specs.Meaning.{fields_of};
ghost use Rattle.base_types.specs.Stored.{stored, without, fields_without};
ghost use Rattle.packed_tree.specs.Encoding.{encode, encode_fields};
ghost use Rattle.packed_tree.specs.Frames.{framed};
ghost use Rattle.packed_tree.specs.StoredBytes.{member_bytes, other_bytes, stored_bytes, stored_fields};

use crate::framing::{close_frame, push_framed};
use crate::packed::{Packed, packed_of};
use crate::reading::{PackedMembers, PackedRef};
use base_types::OutOfMemory;
use std::alloc::Global;

impl<'a> PackedRef<'a> {
    /// The stored form of the value, packed by itself: made of the value's bytes, which are copied as they stand.
    pub fn stored(&self, alloc: Global) -> Result<Packed, OutOfMemory>
        ensures { IfOk result (λ packed. packed ≡ stored self.now) }
    {
        let most = self.as_bytes().len();
        let mut bytes = Vec::with_capacity(alloc, most)?;
        push_stored(&mut bytes, self)?;
        bytes.shrink_to_fit();
        Ok(packed_of(bytes))
    }
}

// Puts the bytes of a value's stored form behind others.
fn push_stored(out: &mut Vec<u8>, value: &PackedRef<'_>) -> Result<(), OutOfMemory>
    ensures { OnOk result (out.new.items ≡ out.old.items ++ encode (stored value.now)) }
{
    match value.as_members() {
        Some(list) => {
            out.push(7)?;
            push_stored_members(out, list)
        }
        None => push_bytes(out, value),
    }
}

// Puts the bytes of a value behind others.
fn push_bytes(out: &mut Vec<u8>, value: &PackedRef<'_>) -> Result<(), OutOfMemory>
    ensures { OnOk result (out.new.items ≡ out.old.items ++ encode value.now) }
{
    out.extend_from_slice(value.as_bytes())?;
    Ok(())
}

// Puts the members of an object's stored form behind others.
fn push_stored_members(out: &mut Vec<u8>, list: PackedMembers<'_>) -> Result<(), OutOfMemory>
    ensures { OnOk result (out.new.items
        ≡ out.old.items ++ encode_fields (stored_fields (fields_of list.entry))) }
{
    let mut rest = list;
    'members: while let Some((name, value)) = rest.next() {
        push_stored_member(out, name, &value)?;
    }
    Ok(())
}

// Puts a member of an object behind others as it stands in the stored form, or nothing where it has no place there.
fn push_stored_member(
    out: &mut Vec<u8>,
    name: &str,
    value: &PackedRef<'_>,
) -> Result<(), OutOfMemory>
    ensures { OnOk result (out.new.items ≡ out.old.items ++ stored_bytes name.now value.now) }
{
    if name == "apiVersion" {
        return Ok(());
    }
    if name == "kind" {
        return Ok(());
    }
    if name == "metadata" {
        return push_member_without(out, name, value, "managedFields");
    }
    push_member(out, name, value)
}

fn push_member(out: &mut Vec<u8>, name: &str, value: &PackedRef<'_>) -> Result<(), OutOfMemory>
    ensures { OnOk result (out.new.items ≡ out.old.items ++ member_bytes name.now value.now) }
{
    push_framed(out, name.as_bytes())?;
    push_framed(out, value.as_bytes())
}

// Puts a member behind others, and its value without an inner member.
fn push_member_without(
    out: &mut Vec<u8>,
    name: &str,
    value: &PackedRef<'_>,
    inner: &str,
) -> Result<(), OutOfMemory>
    ensures { OnOk result (out.new.items
        ≡ out.old.items ++ member_bytes name.now (without inner.now value.now)) }
{
    push_framed(out, name.as_bytes())?;
    push_value_without(out, value, inner)
}

// Puts a value with its length in front behind others, without an inner member.
fn push_value_without(
    out: &mut Vec<u8>,
    value: &PackedRef<'_>,
    inner: &str,
) -> Result<(), OutOfMemory>
    ensures { OnOk result (out.new.items
        ≡ out.old.items ++ framed (encode (without inner.now value.now))) }
{
    let at = out.len();
    out.push(0)?;
    push_without(out, value, inner)?;
    close_frame(out, at)?;
    Ok(())
}

// Puts the bytes of a value behind others, without an inner member.
fn push_without(out: &mut Vec<u8>, value: &PackedRef<'_>, inner: &str) -> Result<(), OutOfMemory>
    ensures { OnOk result (out.new.items ≡ out.old.items ++ encode (without inner.now value.now)) }
{
    match value.as_members() {
        Some(list) => {
            out.push(7)?;
            push_others(out, list, inner)
        }
        None => push_bytes(out, value),
    }
}

// Puts the members of an object behind others, but for those of a name.
fn push_others(out: &mut Vec<u8>, list: PackedMembers<'_>, inner: &str) -> Result<(), OutOfMemory>
    ensures { OnOk result (out.new.items
        ≡ out.old.items ++ encode_fields (fields_without inner.now (fields_of list.entry))) }
{
    let mut rest = list;
    'members: while let Some((name, value)) = rest.next() {
        push_other(out, name, &value, inner)?;
    }
    Ok(())
}

// Puts a member behind others, unless it has this name.
fn push_other(
    out: &mut Vec<u8>,
    name: &str,
    value: &PackedRef<'_>,
    inner: &str,
) -> Result<(), OutOfMemory>
    ensures { OnOk result (out.new.items ≡ out.old.items ++ other_bytes inner.now
        name.now value.now) }
{
    if name == inner {
        return Ok(());
    }
    push_member(out, name, value)
}
