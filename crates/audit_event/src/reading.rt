ghost use Rattle.std.specs.Prelude.{◌≡◌, ℕ, Some, IfOk, IfErr, OnOk};
ghost use Rattle.borrowed_json.specs.View.{view};
ghost use Rattle.request_attrs.specs.Attributes.{attributes};
ghost use Rattle.request_attrs.specs.Refusals.{IsReadable};
ghost use Rattle.audit_event.specs.Events.{HasFieldsOf, IsEventOf, IsEventOfLine, IsCauseFrom};
ghost use Rattle.audit_event.specs.Events.{IsCause, IsLineCause, IsUnreadable, IsSound, fault_for};
ghost use Rattle.audit_event.specs.Headings.{is_event, is_item};
ghost use Rattle.audit_event.specs.Recorded.{ArePartiesOf, IsExchangeOf, IsRecordingOf};
ghost use Rattle.audit_event.specs.Recorded.{IsRequestRead, IsToldBy};

use crate::bodies::read_body;
use crate::decision::decision_of;
use crate::event::{Body, Event, Status};
use crate::fault::{EventFault, Malformed};
use crate::heading::{is_event, is_item};
use crate::level::{level_of, stage_of};
use crate::members::{filled_at, present, text_at};
use crate::numbers::has_whole_numbers;
use crate::status::{read_status, status_code};
use crate::times::{Times, times_of};
use crate::user::read_users;
use base_types::{Level, OutOfMemory, RequestAttrs, Stage, Text, User};
use borrowed_json::{JsonValue, ReadFault, Scratch};
use line_reader::Line;
use request_attrs::{UriFault, attrs_of};
use std::alloc::Global;

// What is recorded of when and how much.
#[derive(Clone, Copy)]
struct Recording {
    level: Level,
    stage: Stage,
    times: Times,
}

// Reads what the rules from `M3` to `M6` are about.
fn read_recording(value: &JsonValue<'_>) -> Result<Recording, EventFault>
    ensures recording { IfOk result (IsRecordingOf (view value.now)) }
    ensures cause { IfErr result (IsCauseFrom 3 (view value.now)) }
{
    let Some(level) = level_of(value) else {
        return Err(EventFault::Malformed(Malformed::M3));
    };
    let Some(stage) = stage_of(value) else {
        return Err(EventFault::Malformed(Malformed::M4));
    };
    let Some(times) = times_of(value) else {
        return Err(EventFault::Malformed(Malformed::M5));
    };
    if !has_whole_numbers(value) {
        return Err(EventFault::Malformed(Malformed::M6));
    }
    Ok(Recording {
        level,
        stage,
        times,
    })
}

// A URI without attributes breaks `M9`.
fn fault_of(fault: UriFault) -> EventFault
    ensures { result ≡ fault_for fault }
{
    match fault {
        UriFault::NoSlash | UriFault::BadEscape | UriFault::NotText => {
            EventFault::Malformed(Malformed::M9)
        }
        UriFault::OutOfMemory => EventFault::OutOfMemory,
    }
}

// The attributes of a verb and a URI.
fn read_attrs(alloc: Global, verb: &str, uri: &str) -> Result<RequestAttrs, EventFault>
    ensures attributes { IfOk result (λ attrs. attrs ≡ attributes verb.now uri.now) }
    ensures readable { OnOk result (IsReadable uri.now) }
    ensures cause { IfErr result (IsUnreadable uri.now) }
{
    let verb = Text::from_str(alloc, verb)?;
    let uri = Text::from_str(alloc, uri)?;
    match attrs_of(alloc, &verb, &uri) {
        Ok(attrs) => Ok(attrs),
        Err(fault) => Err(fault_of(fault)),
    }
}

// Which request it was.
struct Request {
    audit_id: Text,
    attrs: RequestAttrs,
}

// Written out, so that a function which drops a request makes one call for it.
impl Drop for Request {
    fn drop(self) {
        let Request { audit_id: _, attrs } = self;
        drop(attrs);
    }
}

impl Request {
    fn into_parts(self) -> (Text, RequestAttrs)
        ensures { result ≡ (self.audit_id, self.attrs) }
    {
        let Request { audit_id, attrs } = self;
        (audit_id, attrs)
    }
}

// Reads what the rules from `M7` to `M9` are about.
fn read_request(alloc: Global, value: &JsonValue<'_>) -> Result<Request, EventFault>
    ensures request { IfOk result (IsRequestRead (view value.now)) }
    ensures cause { IfErr result (IsCauseFrom 7 (view value.now)) }
{
    let Some(audit_id) = filled_at(value, "auditID") else {
        return Err(EventFault::Malformed(Malformed::M7));
    };
    let Some(uri) = text_at(value, "requestURI") else {
        return Err(EventFault::Malformed(Malformed::M8));
    };
    let Some(verb) = filled_at(value, "verb") else {
        return Err(EventFault::Malformed(Malformed::M9));
    };
    let audit_id = Text::from_str(alloc, audit_id)?;
    let attrs = read_attrs(alloc, verb, uri)?;
    Ok(Request { audit_id, attrs })
}

// Who made the request, and how it was answered.
#[derive(Drop)]
struct Parties {
    user: User,
    impersonated: Option<User>,
    code: Option<u16>,
}

// Reads what the rules `M10` and `M11` are about.
fn read_parties(alloc: Global, value: &JsonValue<'_>) -> Result<Parties, EventFault>
    ensures parties { IfOk result (ArePartiesOf (view value.now)) }
    ensures cause { IfErr result (IsCauseFrom 10 (view value.now)) }
{
    let Some((user, impersonated)) = read_users(alloc, value)? else {
        return Err(EventFault::Malformed(Malformed::M10));
    };
    let Some(code) = status_code(value) else {
        return Err(EventFault::Malformed(Malformed::M11));
    };
    Ok(Parties {
        user,
        impersonated,
        code,
    })
}

// What was sent and answered.
#[derive(Drop)]
struct Exchange {
    status: Status,
    request: Body,
    response: Body,
}

// Reads what no rule is about.
fn read_exchange(
    alloc: Global,
    value: &JsonValue<'_>,
    stage: Stage,
    code: Option<u16>,
) -> Result<Exchange, OutOfMemory>
    ensures { IfOk result (IsExchangeOf (view value.now) stage code) }
{
    let request = read_body(alloc, present(value, "requestObject"))?;
    let response = read_body(alloc, present(value, "responseObject"))?;
    let status = read_status(alloc, value, stage, code, response.is_kept())?;
    Ok(Exchange {
        status,
        request,
        response,
    })
}

// What is told of a request besides what it is.
#[derive(Drop)]
struct Told {
    parties: Parties,
    exchange: Exchange,
}

// Reads what the rules from `M10` on are about, and what none is about.
fn read_told(alloc: Global, value: &JsonValue<'_>, stage: Stage) -> Result<Told, EventFault>
    ensures told { IfOk result (IsToldBy (view value.now) stage) }
    ensures cause { IfErr result (IsCauseFrom 10 (view value.now)) }
{
    let parties = read_parties(alloc, value)?;
    let exchange = read_exchange(alloc, value, stage, parties.code)?;
    Ok(Told { parties, exchange })
}

// The event of its parts.
fn assemble(
    value: &JsonValue<'_>,
    line: u64,
    recording: Recording,
    request: Request,
    told: Told,
) -> Event
    requires recording { IsRecordingOf (view value.now) recording }
    requires request { IsRequestRead (view value.now) request }
    requires told { IsToldBy (view value.now) recording.stage told }
    ensures fields { HasFieldsOf (view value.now) line result }
    ensures sound { IsSound result }
{
    let (audit_id, attrs) = request.into_parts();
    let Told { parties, exchange } = told;
    Event {
        line,
        level: recording.level,
        audit_id,
        stage: recording.stage,
        attrs,
        user: parties.user,
        impersonated: parties.impersonated,
        status: exchange.status,
        request: exchange.request,
        response: exchange.response,
        received: recording.times.received,
        staged: recording.times.staged,
        decision: decision_of(value),
    }
}

// The event of a value whose heading is right.
fn read_fields(alloc: Global, value: &JsonValue<'_>, line: u64) -> Result<Event, EventFault>
    ensures fields { IfOk result (HasFieldsOf (view value.now) line) }
    ensures sound { IfOk result IsSound }
    ensures cause { IfErr result (IsCauseFrom 3 (view value.now)) }
{
    let recording = read_recording(value)?;
    let request = read_request(alloc, value)?;
    let told = read_told(alloc, value, recording.stage)?;
    Ok(assemble(value, line, recording, request, told))
}

/// The event of a JSON value, or the first rule from `M2` on that it breaks. Unknown members are
/// ignored.
pub fn read_value(alloc: Global, value: &JsonValue<'_>, line: u64) -> Result<Event, EventFault>
    ensures event { IfOk result (IsEventOf is_event (view value.now) line) }
    ensures sound { IfOk result IsSound }
    ensures cause { IfErr result (IsCause is_event (view value.now)) }
{
    if !is_event(value) {
        return Err(EventFault::Malformed(Malformed::M2));
    }
    read_fields(alloc, value, line)
}

/// The event of an item of an EventList, or the first rule from `M2` on that it breaks. An item
/// without `kind` and `apiVersion` is taken for an event.
pub fn read_item(alloc: Global, value: &JsonValue<'_>, line: u64) -> Result<Event, EventFault>
    ensures event { IfOk result (IsEventOf is_item (view value.now) line) }
    ensures sound { IfOk result IsSound }
    ensures cause { IfErr result (IsCause is_item (view value.now)) }
{
    if !is_item(value) {
        return Err(EventFault::Malformed(Malformed::M2));
    }
    read_fields(alloc, value, line)
}

/// The event of a line, or the first rule that it breaks. An EventList breaks `M2`.
pub fn read_event(alloc: Global, line: &Line) -> Result<Event, EventFault>
    ensures event { IfOk result (IsEventOfLine line.now.bytes line.now.number) }
    ensures sound { IfOk result IsSound }
    ensures cause { IfErr result (IsLineCause line.now.bytes) }
{
    let mut scratch = Scratch::new(alloc);
    let value = match JsonValue::read(alloc, line.bytes.as_slice(), &mut scratch) {
        Ok(value) => value,
        Err(ReadFault::OutOfMemory) => return Err(EventFault::OutOfMemory),
        Err(ReadFault::NotJson) => return Err(EventFault::Malformed(Malformed::M1)),
    };
    read_value(alloc, &value, line.number)
}
