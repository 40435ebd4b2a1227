ghost use Rattle.std.specs.Prelude.{◌≡◌, ◌∷◌, [], IfOk, All, map, option_map};
ghost use Rattle.borrowed_json.specs.View.{view, items_view};
ghost use Rattle.audit_event.specs.Events.{IsSound};
ghost use Rattle.audit_event.specs.Headings.{is_event, is_item};
ghost use Rattle.batch_decode.specs.Lists.{list_items};
ghost use Rattle.batch_decode.specs.Batches.{DecodesValues, DecodesValue, IsDecodedLine, not_json};

use crate::decoded::{Decoded, ItemFault};
use audit_event::{Event, EventFault, Events, Malformed, is_of_kind, read_item, read_value};
use base_types::OutOfMemory;
use borrowed_json::{JsonValue, ReadFault, Scratch};
use line_reader::Line;
use std::alloc::Global;

// The items of an EventList.
fn list_items<'v, 'a>(value: &'v JsonValue<'a>) -> Option<&'v Vec<JsonValue<'a>>>
    ensures { option_map (λ list. items_view list.now.items) result ≡ list_items (view value.now) }
{
    if !is_of_kind(value, "EventList") {
        return None;
    }
    value.get("items").and_then(JsonValue::as_array)
}

// The events of a list's items, up to the first broken one.
fn decode_items(alloc: Global, list: &Vec<JsonValue<'_>>) -> Result<Decoded, OutOfMemory>
    ensures decodes { IfOk result (DecodesValues is_item (map view list.now.items)) }
    ensures sound { IfOk result (λ decoded. All IsSound decoded.events) }
{
    let taken = list.len().max(1) as u64;
    let mut events = Events::new(alloc);
    for (i, item) in list.iter().enumerate() {
        let index = i as u64;
        match read_item(alloc, item, index) {
            Ok(event) => events.push(event)?,
            Err(EventFault::Malformed(code)) => {
                return Ok(Decoded {
                    events,
                    taken,
                    fault: Some(ItemFault { index, code }),
                });
            }
            Err(EventFault::OutOfMemory) => return Err(OutOfMemory),
        }
    }
    Ok(Decoded {
        events,
        taken,
        fault: None,
    })
}

// A list of one event, without the room for several with which a list begins that grows.
fn list_of(alloc: Global, event: Event) -> Result<Events, OutOfMemory>
    ensures { IfOk result (λ events. events ≡ event ∷ []) }
{
    let Ok(mut events) = Vec::with_capacity(alloc, 1) else {
        drop(event);
        return Err(OutOfMemory);
    };
    events.push(event)?;
    Ok(Events::from_vec(events))
}

// The one event of a line that is no list.
fn decode_one(alloc: Global, value: &JsonValue<'_>) -> Result<Decoded, OutOfMemory>
    ensures decodes { IfOk result (DecodesValues is_event (view value.now ∷ [])) }
    ensures sound { IfOk result (λ decoded. All IsSound decoded.events) }
{
    match read_value(alloc, value, 0) {
        Ok(event) => Ok(Decoded {
            events: list_of(alloc, event)?,
            taken: 1,
            fault: None,
        }),
        Err(EventFault::Malformed(code)) => Ok(Decoded {
            events: Events::new(alloc),
            taken: 1,
            fault: Some(ItemFault { index: 0, code }),
        }),
        Err(EventFault::OutOfMemory) => Err(OutOfMemory),
    }
}

// The events of a line's value.
fn decode_value(alloc: Global, value: &JsonValue<'_>) -> Result<Decoded, OutOfMemory>
    ensures decodes { IfOk result (DecodesValue (view value.now)) }
    ensures sound { IfOk result (λ decoded. All IsSound decoded.events) }
{
    match list_items(value) {
        Some(list) => decode_items(alloc, list),
        None => decode_one(alloc, value),
    }
}

// What a line holds that is no JSON text.
fn not_json(alloc: Global) -> Decoded
    ensures { result ≡ not_json }
{
    Decoded {
        events: Events::new(alloc),
        taken: 1,
        fault: Some(ItemFault {
            index: 0,
            code: Malformed::M1,
        }),
    }
}

/// The events of a line up to its first broken one: those of its items where it is an EventList, and else
/// its own.
pub fn decode_line(alloc: Global, line: &Line) -> Result<Decoded, OutOfMemory>
    ensures { IfOk result (IsDecodedLine line.now) }
{
    let mut scratch = Scratch::new(alloc);
    decode_with(alloc, &mut scratch, line)
}

/// The same, with the memory for reading that other lines were read with.
pub(crate) fn decode_with(
    alloc: Global,
    scratch: &mut Scratch,
    line: &Line,
) -> Result<Decoded, OutOfMemory>
    ensures { IfOk result (IsDecodedLine line.now) }
{
    match JsonValue::read(alloc, line.bytes.as_slice(), scratch) {
        Ok(value) => decode_value(alloc, &value),
        Err(ReadFault::OutOfMemory) => Err(OutOfMemory),
        Err(ReadFault::NotJson) => Ok(not_json(alloc)),
    }
}
