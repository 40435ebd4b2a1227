ghost use Rattle.std.specs.Prelude.{◌≡◌, None, Err, OnOk, option_map};
ghost use Rattle.base_types.specs.Meaning.{items, members};
ghost use Rattle.base_types.specs.Values.{of_data, of_items, of_members};
ghost use Rattle.borrowed_json.specs.View.{view, items_view, members_view};
ghost use Rattle.packed_tree.specs.Encoding.{encode, framed_code};
ghost use Rattle.packed_tree.specs.Packs.{Packs, PacksKids, PacksFields};

use crate::framing::close_frame;
use crate::pushing::{push_flag, push_name, push_text, push_whole};
use base_types::json::{TreeFault, from_number};
use borrowed_json::{JsonValue, Map};

/// Puts the bytes of a JSON value that borrows its texts behind others.
#[cycle(push_borrowed)]
pub(crate) fn push_borrowed(out: &mut Vec<u8>, value: &JsonValue<'_>) -> Result<(), TreeFault>
    ensures ok { OnOk result (Packs encode (of_data (view value.now)) out.old.items out.new.items) }
    ensures fraction { result ≡ Err TreeFault.Fraction → of_data (view value.now) ≡ None }
{
    match value {
        JsonValue::Null => Ok(out.push(0)?),
        JsonValue::Bool(flag) => Ok(push_flag(out, *flag)?),
        JsonValue::Number(number) => push_whole(out, from_number(number)?),
        JsonValue::String(text) => Ok(push_text(out, text)?),
        JsonValue::Array(list) => push_array(out, list),
        JsonValue::Object(map) => push_object(out, map),
    }
}

#[cycle(push_borrowed)]
fn push_array(out: &mut Vec<u8>, list: &Vec<JsonValue<'_>>) -> Result<(), TreeFault>
    ensures ok { OnOk result (Packs encode (option_map items (of_items (items_view list.now.items)))
        out.old.items out.new.items) }
    ensures fraction { result ≡ Err TreeFault.Fraction → of_items
        (items_view list.now.items) ≡ None }
{
    out.push(6)?;
    push_items(out, list)
}

#[cycle(push_borrowed)]
fn push_object(out: &mut Vec<u8>, map: &Map<'_>) -> Result<(), TreeFault>
    ensures ok { OnOk result (Packs encode (option_map members
        (of_members (members_view map.now.entries))) out.old.items out.new.items) }
    ensures fraction { result ≡ Err TreeFault.Fraction → of_members
        (members_view map.now.entries) ≡ None }
{
    out.push(7)?;
    push_members(out, map)
}

// Puts the bytes of a JSON value, with their length in front, behind others.
#[cycle(push_borrowed)]
fn push_item(out: &mut Vec<u8>, value: &JsonValue<'_>) -> Result<(), TreeFault>
    ensures ok { OnOk result (Packs framed_code (of_data (view value.now)) out.old.items
        out.new.items) }
    ensures fraction { result ≡ Err TreeFault.Fraction → of_data (view value.now) ≡ None }
{
    let at = out.len();
    out.push(0)?;
    push_borrowed(out, value)?;
    close_frame(out, at)?;
    Ok(())
}

#[cycle(push_borrowed)]
fn push_items(out: &mut Vec<u8>, list: &Vec<JsonValue<'_>>) -> Result<(), TreeFault>
    ensures ok { OnOk result (PacksKids (of_items (items_view list.now.items)) out.old.items
        out.new.items) }
    ensures fraction { result ≡ Err TreeFault.Fraction → of_items
        (items_view list.now.items) ≡ None }
{
    for item in list {
        push_item(out, item)?;
    }
    Ok(())
}

#[cycle(push_borrowed)]
fn push_members(out: &mut Vec<u8>, map: &Map<'_>) -> Result<(), TreeFault>
    ensures ok { OnOk result (PacksFields (of_members (members_view map.now.entries)) out.old.items
        out.new.items) }
    ensures fraction { result ≡ Err TreeFault.Fraction → of_members
        (members_view map.now.entries) ≡ None }
{
    for (key, member) in map.iter() {
        push_name(out, key)?;
        push_item(out, member)?;
    }
    Ok(())
}
