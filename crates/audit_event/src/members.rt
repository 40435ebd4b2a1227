ghost use Rattle.std.specs.Prelude.{◌≡◌, IfOk, option_map};
ghost use Rattle.borrowed_json.specs.View.{view};
ghost use Rattle.audit_event.specs.Members.{text_at, filled_at, says, present, text_or_empty};

use base_types::{OutOfMemory, Text};
use borrowed_json::JsonValue;
use std::alloc::Global;

/// A member that is a text.
pub(crate) fn text_at<'a>(value: &JsonValue<'a>, name: &str) -> Option<&'a str>
    ensures { option_map (λ text. text.now) result ≡ text_at name.now (view value.now) }
{
    value.get(name).and_then(JsonValue::as_str)
}

/// A member that is a text with at least one byte.
pub(crate) fn filled_at<'a>(value: &JsonValue<'a>, name: &str) -> Option<&'a str>
    ensures { option_map (λ text. text.now) result ≡ filled_at name.now (view value.now) }
{
    let text = text_at(value, name)?;
    if text.is_empty() { None } else { Some(text) }
}

/// Whether a member is this text.
pub(crate) fn says(value: &JsonValue<'_>, name: &str, text: &str) -> bool
    ensures { result ≡ says name.now text.now (view value.now) }
{
    match text_at(value, name) {
        Some(found) => found == text,
        None => false,
    }
}

/// A member that is there and not null.
pub(crate) fn present<'v, 'a>(value: &'v JsonValue<'a>, name: &str) -> Option<&'v JsonValue<'a>>
    ensures { option_map (λ found. view found.now) result ≡ present name.now (view value.now) }
{
    let found = value.get(name)?;
    if found.is_null() { None } else { Some(found) }
}

/// A text member of what may be missing, empty where it isn't there or no text.
pub(crate) fn text_or_empty(
    alloc: Global,
    value: Option<&JsonValue<'_>>,
    name: &str,
) -> Result<Text, OutOfMemory>
    ensures { IfOk result (λ text. text ≡ text_or_empty name.now
        (option_map (λ found. view found.now) value.entry)) }
{
    match value {
        Some(value) => match text_at(value, name) {
            Some(text) => Text::from_str(alloc, text),
            None => Ok(Text::new(alloc)),
        },
        None => Ok(Text::new(alloc)),
    }
}
