// What the tests are given: trees, events and setups of JSON texts.
use audit_event::{Event, read_item};
use base_types::json::{Tree, from_value};
use borrowed_json::{JsonValue, Scratch};
use hash_seed::Seed;
use serde_json::Value;
use setup_file::{Setup, read_setup};
use std::process::Abort;

pub(crate) fn tree(rt: &(impl Abort + AllocGlobal), text: &str) -> Tree {
    let value = Value::from_str(rt.alloc(), text).expect(rt, "JSON");
    let tree = from_value(rt.alloc(), &value).expect(rt, "a tree");
    drop(value);
    tree
}

fn event_of(rt: &(impl Abort + AllocGlobal), text: &str, line: u64) -> Event {
    let mut scratch = Scratch::new(rt.alloc());
    let value = JsonValue::read(rt.alloc(), text.as_bytes(), &mut scratch).expect(rt, "JSON");
    let event = read_item(rt.alloc(), &value, line);
    drop(value);
    event.expect(rt, "an event")
}

/// The event that a log has on this line: a request's verb, path and body, when on one day it was received and
/// answered, and code and body of the answer.
pub(crate) fn event(
    rt: &(impl Abort + AllocGlobal),
    line: u64,
    request: (&str, &str, &str),
    times: (&str, &str),
    answer: (u16, &str),
) -> Event {
    let (verb, uri, body) = request;
    let (received, staged) = times;
    let (code, answered) = answer;
    let text = format!(in rt.alloc();
        r#"{{"level":"RequestResponse","auditID":"a{line}","stage":"ResponseComplete","requestURI":"{uri}",
        "verb":"{verb}","user":{{"username":"u"}},"responseStatus":{{"code":{code}}},"requestObject":{body},
        "responseObject":{answered},"requestReceivedTimestamp":"2024-05-01T{received}Z",
        "stageTimestamp":"2024-05-01T{staged}Z"}}"#
    )
    .expect(rt, "memory");
    event_of(rt, text.as_str(), line)
}

pub(crate) fn setup_of(rt: &(impl Abort + AllocGlobal), text: &str) -> Setup {
    read_setup(rt.alloc(), text.as_bytes(), Seed::of(b"")).expect(rt, "a setup")
}

pub(crate) fn push(rt: &impl Abort, text: &mut String, more: &str) {
    text.push_str(more).expect(rt, "memory");
}

pub(crate) fn assert_text(rt: &impl Abort, found: &str, wanted: &str, row: &str) {
    assert_eq!(rt; found, wanted, "{row}");
}

/// Stops the test unless this holds of the row.
pub(crate) fn assert_so(rt: &impl Abort, holds: bool, row: &str) {
    assert!(rt; holds, "{row}");
}
