ghost use Rattle.std.specs.Prelude.{◌≡◌, ◌<◌, ◌≤◌, length, Some, None, Err, IfOk, OnOk, IsUtf8};
ghost use Rattle.json.specs.Value.{value_view, items_view as read_items, members_view as read_members};
ghost use Rattle.serde_json.specs.Data.{depth as nesting, no_members};
ghost use Rattle.serde_json.specs.Read.{of_json, of_items, of_members, max_depth, read as read_text};
ghost use Rattle.borrowed_json.specs.View.{view, items_view, members_view};

use crate::fault::ReadFault;
use crate::number::number_of;
use crate::value::{JsonValue, Map};
use json::{Reader, Scratch, Value};
use simdutf8::compat::from_utf8;
use std::alloc::Global;

// Arrays and objects nest no deeper, as with `serde_json`.
const MAX_DEPTH: usize = 127;

impl<'a> JsonValue<'a> {
    /// The value of a JSON text, as `serde_json::Value::from_slice` reads it. Texts with escapes are
    /// kept in the scratch.
    pub fn read(
        alloc: Global,
        bytes: &'a [u8],
        scratch: &'a mut Scratch,
    ) -> Result<JsonValue<'a>, ReadFault>
        ensures ok { IfOk result
            (λ value. IsUtf8 bytes.entry.now × (read_text bytes.entry.now ≡ Some (view value))) }
        ensures nests { IfOk result (λ value. nesting (view value) ≤ max_depth) }
        ensures err { result ≡ Err ReadFault.NotJson → IsUtf8 bytes.entry.now
            → read_text bytes.entry.now ≡ None }
        ensures memory { result ≡ Err ReadFault.OutOfMemory → 0 < length bytes.entry.now }
    {
        match from_utf8(bytes) {
            Ok(text) => read_str(alloc, text, scratch),
            Err(_) => Err(ReadFault::NotJson),
        }
    }
}

fn read_str<'a>(
    alloc: Global,
    text: &'a str,
    scratch: &'a mut Scratch,
) -> Result<JsonValue<'a>, ReadFault>
    ensures ok { IfOk result (λ value. read_text text.entry.now ≡ Some (view value)) }
    ensures err { result ≡ Err ReadFault.NotJson → read_text text.entry.now ≡ None }
    ensures memory { result ≡ Err ReadFault.OutOfMemory → 0 < length text.entry.now }
{
    let value = read_tree(alloc, text, scratch)?;
    convert(alloc, value)
}

// Reads the whole text, with each number as its text.
fn read_tree<'a>(
    alloc: Global,
    text: &'a str,
    scratch: &'a mut Scratch,
) -> Result<Value<'a>, ReadFault>
    ensures ok { IfOk result (λ value. read_text text.entry.now ≡ of_json (value_view value)) }
    ensures some { OnOk result (0 < length text.entry.now) }
    ensures err { result ≡ Err ReadFault.NotJson → read_text text.entry.now ≡ None }
    ensures memory { result ≡ Err ReadFault.OutOfMemory → 0 < length text.entry.now }
{
    let Ok(mut reader) = Reader::new(text, scratch) else {
        return Err(ReadFault::OutOfMemory);
    };
    let value = match Value::read(alloc, &mut reader, MAX_DEPTH) {
        Ok(value) => value,
        Err(json::Error::OutOfMemory) => return Err(ReadFault::OutOfMemory),
        Err(_) => return Err(ReadFault::NotJson),
    };
    if reader.next().is_some() {
        return Err(ReadFault::NotJson);
    }
    Ok(value)
}

// The value with its numbers read and its members in order. No text moves.
#[cycle(convert)]
fn convert<'a>(alloc: Global, value: Value<'a>) -> Result<JsonValue<'a>, ReadFault>
    ensures ok { IfOk result (λ made. of_json (value_view value.entry) ≡ Some (view made)) }
    ensures err { result ≡ Err ReadFault.NotJson → of_json (value_view value.entry) ≡ None }
{
    match value {
        Value::Null => Ok(JsonValue::Null),
        Value::Bool(flag) => Ok(JsonValue::Bool(flag)),
        Value::Number(text) => match number_of(text) {
            Some(number) => Ok(JsonValue::Number(number)),
            None => Err(ReadFault::NotJson),
        },
        Value::String(text) => Ok(JsonValue::String(text)),
        Value::Array(list) => Ok(JsonValue::Array(convert_items(alloc, list)?)),
        Value::Object(list) => Ok(JsonValue::Object(convert_members(alloc, list)?)),
    }
}

#[cycle(convert)]
fn convert_items<'a>(alloc: Global, list: Vec<Value<'a>>) -> Result<Vec<JsonValue<'a>>, ReadFault>
    ensures ok { IfOk result
        (λ made. of_items (read_items list.entry.items) ≡ Some (items_view made.items)) }
    ensures err { result ≡ Err ReadFault.NotJson → of_items (read_items list.entry.items) ≡ None }
{
    let mut made = Vec::with_capacity(alloc, list.len())?;
    for item in list {
        made.push(convert(alloc, item)?)?;
    }
    Ok(made)
}

#[cycle(convert)]
fn convert_members<'a>(alloc: Global, list: Vec<(&'a str, Value<'a>)>) -> Result<Map<'a>, ReadFault>
    ensures ok { IfOk result (λ made. of_members (read_members list.entry.items) no_members
        ≡ Some (members_view made.entries)) }
    ensures err { result ≡ Err ReadFault.NotJson
        → of_members (read_members list.entry.items) no_members ≡ None }
{
    let mut made = Map::new(alloc);
    for (name, member) in list {
        let member = convert(alloc, member)?;
        drop(made.insert(name, member)?);
    }
    Ok(made)
}
