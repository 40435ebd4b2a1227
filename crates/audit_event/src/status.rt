ghost use Rattle.std.specs.Prelude.{◌≡◌, IfOk, option_map, codes};
ghost use Rattle.borrowed_json.specs.View.{view};
ghost use Rattle.audit_event.specs.Members.{present, text_or_empty};
ghost use Rattle.audit_event.specs.Statuses.{code_number, code_of, code_in, answered_code, source_of, details_of};
ghost use Rattle.audit_event.specs.Statuses.{succeeds, status_with};

use crate::event::Status;
use crate::members::{present, says, text_or_empty};
use base_types::{OutOfMemory, Stage};
use borrowed_json::JsonValue;
use std::alloc::Global;

fn code_number(member: Option<&JsonValue<'_>>) -> Option<Option<u16>>
    ensures { result ≡ code_number (option_map (λ value. view value.now) member.entry) }
{
    let Some(value) = member else {
        return Some(None);
    };
    let number = value.as_u64()?;
    if number > 999 {
        return None;
    }
    Some(Some(number as u16))
}

fn code_of(member: Option<&JsonValue<'_>>) -> Option<Option<u16>>
    ensures { result ≡ code_of (option_map (λ value. view value.now) member.entry) }
{
    let Some(status) = member else {
        return Some(None);
    };
    if !status.is_object() {
        return None;
    }
    code_number(status.get("code"))
}

/// The code of `responseStatus`, if it has one.
pub(crate) fn status_code(value: &JsonValue<'_>) -> Option<Option<u16>>
    ensures { result ≡ code_in (view value.now) }
{
    code_of(present(value, "responseStatus"))
}

fn answered_code(stage: Stage, code: Option<u16>) -> Option<u16>
    ensures { result ≡ answered_code stage code }
{
    match (stage, code) {
        (Stage::Panic, _) | (_, Some(0)) => None,
        (_, code) => code,
    }
}

// The object that tells how the request was answered.
fn source_of<'v, 'a>(
    is_kept: bool,
    response: Option<&'v JsonValue<'a>>,
    status: Option<&'v JsonValue<'a>>,
) -> Option<&'v JsonValue<'a>>
    ensures { option_map (λ value. view value.now) result ≡ source_of is_kept
        (option_map (λ value. view value.now) response.entry)
        (option_map (λ value. view value.now) status.entry) }
{
    match response {
        Some(response) if is_kept && says(response, "kind", "Status") => Some(response),
        _ => status,
    }
}

fn succeeds(source: Option<&JsonValue<'_>>) -> bool
    ensures { result ≡ succeeds (option_map (λ value. view value.now) source.entry) }
{
    match source {
        Some(source) => says(source, "status", "Success"),
        None => false,
    }
}

fn details_of<'v, 'a>(source: Option<&'v JsonValue<'a>>) -> Option<&'v JsonValue<'a>>
    ensures { option_map (λ value. view value.now) result ≡ details_of
        (option_map (λ value. view value.now) source.entry) }
{
    source?.get("details")
}

fn read_with(
    alloc: Global,
    code: Option<u16>,
    source: Option<&JsonValue<'_>>,
) -> Result<Status, OutOfMemory>
    ensures { IfOk result (λ status. status ≡ status_with code
        (option_map (λ value. view value.now) source.entry)) }
{
    let details = details_of(source);
    Ok(Status {
        code,
        reason: text_or_empty(alloc, source, "reason")?,
        success: succeeds(source),
        uid: text_or_empty(alloc, details, "uid")?,
        name: text_or_empty(alloc, details, "name")?,
        kind: text_or_empty(alloc, details, "kind")?,
    })
}

/// How the request was answered, with the code of `responseStatus`.
pub(crate) fn read_status(
    alloc: Global,
    value: &JsonValue<'_>,
    stage: Stage,
    code: Option<u16>,
    is_kept: bool,
) -> Result<Status, OutOfMemory>
    ensures { IfOk result (λ status. status ≡ status_with (answered_code stage code)
        (source_of is_kept (present (codes "responseObject") (view value.now))
        (present (codes "responseStatus") (view value.now)))) }
{
    let response = present(value, "responseObject");
    let status = present(value, "responseStatus");
    read_with(
        alloc,
        answered_code(stage, code),
        source_of(is_kept, response, status),
    )
}
