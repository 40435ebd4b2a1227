ghost use Rattle.std.specs.Prelude.{◌≡◌};
ghost use Rattle.borrowed_json.specs.View.{view};
ghost use Rattle.audit_event.specs.Levels.{level_named, level_in, stage_named, stage_in};

use crate::members::text_at;
use base_types::{Level, Stage};
use borrowed_json::JsonValue;

fn level_named(name: &str) -> Option<Level>
    ensures { result ≡ level_named name.now }
{
    match name {
        "Metadata" => Some(Level::Metadata),
        "Request" => Some(Level::Request),
        "RequestResponse" => Some(Level::RequestResponse),
        _ => None,
    }
}

pub(crate) fn level_of(value: &JsonValue<'_>) -> Option<Level>
    ensures { result ≡ level_in (view value.now) }
{
    level_named(text_at(value, "level")?)
}

fn stage_named(name: &str) -> Option<Stage>
    ensures { result ≡ stage_named name.now }
{
    match name {
        "RequestReceived" => Some(Stage::Received),
        "ResponseStarted" => Some(Stage::Started),
        "ResponseComplete" => Some(Stage::Complete),
        "Panic" => Some(Stage::Panic),
        _ => None,
    }
}

pub(crate) fn stage_of(value: &JsonValue<'_>) -> Option<Stage>
    ensures { result ≡ stage_in (view value.now) }
{
    stage_named(text_at(value, "stage")?)
}
