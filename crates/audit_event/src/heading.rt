ghost use Rattle.std.specs.Prelude.{◌≡◌};
ghost use Rattle.borrowed_json.specs.View.{view};
ghost use Rattle.audit_event.specs.Headings.{is_of_kind, is_event, is_unnamed, is_item};

use crate::members::says;
use borrowed_json::JsonValue;

/// Whether a value is an object of this kind of `audit.k8s.io/v1`.
pub fn is_of_kind(value: &JsonValue<'_>, kind: &str) -> bool
    ensures { result ≡ is_of_kind kind.now (view value.now) }
{
    says(value, "kind", kind) && says(value, "apiVersion", "audit.k8s.io/v1")
}

/// Whether a value says that it is an event.
pub(crate) fn is_event(value: &JsonValue<'_>) -> bool
    ensures { result ≡ is_event (view value.now) }
{
    is_of_kind(value, "Event")
}

// Whether a value is an object that doesn't say what it is.
fn is_unnamed(value: &JsonValue<'_>) -> bool
    ensures { result ≡ is_unnamed (view value.now) }
{
    value.is_object() && value.get("kind").is_none() && value.get("apiVersion").is_none()
}

/// Whether a value may be an event among the items of an EventList.
pub(crate) fn is_item(value: &JsonValue<'_>) -> bool
    ensures { result ≡ is_item (view value.now) }
{
    is_event(value) || is_unnamed(value)
}
