ghost use Rattle.std.specs.Prelude.{◌≡◌};
ghost use Rattle.borrowed_json.specs.View.{view};
ghost use Rattle.audit_event.specs.Decisions.{decision_named, decision_in};

use crate::members::text_at;
use base_types::Decision;
use borrowed_json::JsonValue;

fn decision_named(name: &str) -> Option<Decision>
    ensures { result ≡ decision_named name.now }
{
    match name {
        "allow" => Some(Decision::Allow),
        "forbid" => Some(Decision::Forbid),
        _ => None,
    }
}

/// What an authorizer decided, where the event records it.
pub(crate) fn decision_of(value: &JsonValue<'_>) -> Option<Decision>
    ensures { result ≡ decision_in (view value.now) }
{
    let annotations = value.get("annotations")?;
    decision_named(text_at(annotations, "authorization.k8s.io/decision")?)
}
