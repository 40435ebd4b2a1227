use crate::given::{assert_so, assert_text, line_of, push};
use audit_event::{Body, Event, EventFault, Malformed, Status, read_event, read_item, read_value};
use base_types::Decision;
use borrowed_json::{JsonValue, Scratch};
use std::process::Abort;

// The members of an event that breaks no rule, with their names.
static MEMBERS: [(&str, &str); 12] = [
    ("kind", r#""kind":"Event","#),
    ("apiVersion", r#""apiVersion":"audit.k8s.io/v1","#),
    ("level", r#""level":"RequestResponse","#),
    ("auditID", r#""auditID":"a1","#),
    ("stage", r#""stage":"ResponseComplete","#),
    (
        "requestURI",
        r#""requestURI":"/api/v1/namespaces/d/configmaps/a","#,
    ),
    ("verb", r#""verb":"delete","#),
    ("user", r#""user":{"username":"u","groups":["g","h"]},"#),
    (
        "responseStatus",
        r#""responseStatus":{"metadata":{},"code":200},"#,
    ),
    (
        "responseObject",
        r#""responseObject":{"kind":"Status","status":"Success","reason":"r","details":{"name":"a","kind":"configmaps","uid":"A"}},"#,
    ),
    (
        "requestReceivedTimestamp",
        r#""requestReceivedTimestamp":"2024-05-01T10:00:00.000000Z","#,
    ),
    (
        "stageTimestamp",
        r#""stageTimestamp":"2024-05-01T10:00:01.000000Z","#,
    ),
];

// Such an event without one member and with further ones, of which those that come twice take the place of
// the earlier ones.
fn event_text(rt: &(impl Abort + AllocGlobal), without: &str, more: &str) -> String {
    let mut text = String::new(rt.alloc());
    push(rt, &mut text, "{");
    for (name, member) in &MEMBERS {
        if *name != without {
            push(rt, &mut text, member);
        }
    }
    push(rt, &mut text, more);
    push(rt, &mut text, "\"x\":null}");
    text
}

fn read_bytes(rt: &(impl Abort + AllocGlobal), bytes: &[u8]) -> Result<Event, EventFault> {
    let line = line_of(rt, 7, bytes);
    read_event(rt.alloc(), &line)
}

// Reads an event without one member and with further ones.
fn read_with(
    rt: &(impl Abort + AllocGlobal),
    without: &str,
    more: &str,
) -> Result<Event, EventFault> {
    let text = event_text(rt, without, more);
    read_bytes(rt, text.as_str().as_bytes())
}

// The rule that is broken by what was read.
fn rule_of(rt: &impl Abort, read: Result<Event, EventFault>) -> Option<Malformed> {
    match read.err() {
        None => None,
        Some(EventFault::Malformed(code)) => Some(code),
        Some(EventFault::OutOfMemory) => panic!(rt; "memory"),
    }
}

fn assert_rule(
    rt: &impl Abort,
    read: Result<Event, EventFault>,
    wanted: Option<Malformed>,
    row: &str,
) {
    assert_so(rt, rule_of(rt, read) == wanted, row);
}

// A member left out, members put in, and the rule that is then broken.
static EVENTS: [(&str, &str, Option<Malformed>); 63] = [
    ("", "", None),
    ("kind", "", Some(Malformed::M2)),
    ("apiVersion", "", Some(Malformed::M2)),
    ("", r#""kind":"EventList","#, Some(Malformed::M2)),
    (
        "",
        r#""apiVersion":"audit.k8s.io/v1beta1","#,
        Some(Malformed::M2),
    ),
    ("", r#""kind":null,"level":1,"#, Some(Malformed::M2)),
    ("level", "", Some(Malformed::M3)),
    ("", r#""level":"None","#, Some(Malformed::M3)),
    ("", r#""level":null,"stage":"Gone","#, Some(Malformed::M3)),
    ("", r#""level":"Metadata","#, None),
    ("", r#""level":"Request","#, None),
    ("stage", "", Some(Malformed::M4)),
    (
        "",
        r#""stage":"responseComplete","stageTimestamp":"","#,
        Some(Malformed::M4),
    ),
    ("", r#""stage":"RequestReceived","#, None),
    ("", r#""stage":"ResponseStarted","#, None),
    ("", r#""stage":"Panic","#, None),
    ("stageTimestamp", "", Some(Malformed::M5)),
    ("requestReceivedTimestamp", "", Some(Malformed::M5)),
    ("", r#""stageTimestamp":1714557600,"#, Some(Malformed::M5)),
    (
        "",
        r#""stageTimestamp":"2024-05-01T09:59:59.999999Z","annotations":{"n":1.5},"#,
        Some(Malformed::M5),
    ),
    (
        "",
        r#""annotations":{"n":1.5},"auditID":"","#,
        Some(Malformed::M6),
    ),
    ("", r#""a":[[-0]],"#, Some(Malformed::M6)),
    ("", r#""a":1e2,"#, Some(Malformed::M6)),
    ("", r#""a":18446744073709551616,"#, Some(Malformed::M6)),
    (
        "",
        r#""a":18446744073709551615,"b":-9223372036854775808,"#,
        None,
    ),
    (
        "",
        r#""requestObject":[1.5],"responseObject":{"a":-0},"#,
        None,
    ),
    ("auditID", "", Some(Malformed::M7)),
    ("", r#""auditID":"","requestURI":7,"#, Some(Malformed::M7)),
    ("", r#""auditID":7,"#, Some(Malformed::M7)),
    ("requestURI", "", Some(Malformed::M8)),
    ("", r#""requestURI":null,"verb":"","#, Some(Malformed::M8)),
    ("verb", "", Some(Malformed::M9)),
    ("", r#""verb":"","user":null,"#, Some(Malformed::M9)),
    ("", r#""requestURI":"","user":null,"#, Some(Malformed::M9)),
    ("", r#""requestURI":"/%zz","#, Some(Malformed::M9)),
    ("", r#""requestURI":"/%ff","#, Some(Malformed::M9)),
    ("", r#""requestURI":"/?%zz","#, None),
    ("user", "", Some(Malformed::M10)),
    (
        "",
        r#""user":null,"responseStatus":[],"#,
        Some(Malformed::M10),
    ),
    ("", r#""user":[],"#, Some(Malformed::M10)),
    ("", r#""user":{},"#, None),
    ("", r#""user":{"username":null},"#, Some(Malformed::M10)),
    ("", r#""user":{"username":7},"#, Some(Malformed::M10)),
    ("", r#""user":{"groups":null},"#, None),
    ("", r#""user":{"groups":{}},"#, Some(Malformed::M10)),
    ("", r#""user":{"groups":["g",null]},"#, Some(Malformed::M10)),
    ("", r#""impersonatedUser":null,"#, None),
    ("", r#""impersonatedUser":{},"#, None),
    ("", r#""impersonatedUser":"v","#, Some(Malformed::M10)),
    (
        "",
        r#""impersonatedUser":{"username":null},"#,
        Some(Malformed::M10),
    ),
    (
        "",
        r#""impersonatedUser":{"groups":[1]},"#,
        Some(Malformed::M10),
    ),
    ("responseStatus", "", None),
    ("", r#""responseStatus":null,"#, None),
    ("", r#""responseStatus":[],"#, Some(Malformed::M11)),
    ("", r#""responseStatus":{},"#, None),
    (
        "",
        r#""responseStatus":{"code":null},"#,
        Some(Malformed::M11),
    ),
    ("", r#""responseStatus":{"code":999},"#, None),
    (
        "",
        r#""responseStatus":{"code":1000},"#,
        Some(Malformed::M11),
    ),
    ("", r#""responseStatus":{"code":-1},"#, Some(Malformed::M11)),
    (
        "",
        r#""responseStatus":{"code":"200"},"#,
        Some(Malformed::M11),
    ),
    (
        "",
        r#""verb":"","verb":"get","kind":7,"kind":"Event","#,
        None,
    ),
    ("", r#""a":1e400,"a":1,"#, Some(Malformed::M1)),
    ("", r#""a":"\ud800","#, Some(Malformed::M1)),
];

#[test]
fn first_broken_rules(rt: HostRuntime) {
    for (without, more, code) in &EVENTS {
        assert_rule(&rt, read_with(&rt, without, more), *code, more);
    }
}

// Lines that aren't built of members.
static LINES: [(&str, Malformed); 7] = [
    ("", Malformed::M1),
    ("{", Malformed::M1),
    ("{}{}", Malformed::M1),
    ("\u{FEFF}{}", Malformed::M1),
    ("null", Malformed::M2),
    ("[{}]", Malformed::M2),
    ("{}", Malformed::M2),
];

// The member of a request's body: so many lists, one inside another.
fn nested(rt: &(impl Abort + AllocGlobal), depth: usize) -> String {
    let mut text = String::new(rt.alloc());
    push(rt, &mut text, "\"requestObject\":");
    for _ in 0..depth {
        push(rt, &mut text, "[");
    }
    for _ in 0..depth {
        push(rt, &mut text, "]");
    }
    push(rt, &mut text, ",");
    text
}

fn read_nested(rt: &(impl Abort + AllocGlobal), depth: usize) -> Result<Event, EventFault> {
    let body = nested(rt, depth);
    read_with(rt, "", body.as_str())
}

#[test]
fn other_lines(rt: HostRuntime) {
    for (line, code) in &LINES {
        assert_rule(&rt, read_bytes(&rt, line.as_bytes()), Some(*code), line);
    }
    let refused = rule_of(&rt, read_bytes(&rt, b"\"\xFF\""));
    assert_so(&rt, refused.is_some(), "no UTF-8");
    assert_rule(&rt, read_nested(&rt, 126), None, "126 lists");
    assert_rule(&rt, read_nested(&rt, 127), Some(Malformed::M1), "127 lists");
}

// Receipt and stage, and their moments.
static TIMES: [(&str, &str, Option<(i128, i128)>); 11] = [
    (
        "2024-05-01T10:00:00Z",
        "2024-05-01T12:00:00+02:00",
        Some((1_714_557_600_000_000_000, 1_714_557_600_000_000_000)),
    ),
    (
        "2024-05-01T10:00:00.1Z",
        "2024-05-01T10:00:00.123456789Z",
        Some((1_714_557_600_100_000_000, 1_714_557_600_123_456_789)),
    ),
    (
        "2016-12-31T23:59:60Z",
        "2016-12-31T23:59:59Z",
        Some((1_483_228_799_000_000_000, 1_483_228_799_000_000_000)),
    ),
    (
        "1969-12-31T23:59:59.5Z",
        "1970-01-01T00:00:00Z",
        Some((-500_000_000, 0)),
    ),
    (
        "2024-05-01T10:00:00.000000001Z",
        "2024-05-01T10:00:00Z",
        None,
    ),
    ("2024-05-01T10:00:00", "2024-05-01T10:00:00Z", None),
    (
        "2024-05-01T10:00:00Z",
        "2024-05-01T10:00:00.0000000001Z",
        None,
    ),
    ("2024-02-30T10:00:00Z", "2024-05-01T10:00:00Z", None),
    ("2024-05-01T10:00:00Z", "2024-05-01T10:00:61Z", None),
    ("", "2024-05-01T10:00:00Z", None),
    ("2024-05-01T10:00:00Z", " 2024-05-01T10:00:00Z", None),
];

fn times_text(rt: &(impl Abort + AllocGlobal), received: &str, staged: &str) -> String {
    let mut text = String::new(rt.alloc());
    push(rt, &mut text, "\"requestReceivedTimestamp\":\"");
    push(rt, &mut text, received);
    push(rt, &mut text, "\",\"stageTimestamp\":\"");
    push(rt, &mut text, staged);
    push(rt, &mut text, "\",");
    text
}

// The moments of what was read, if it is an event.
fn moments_of(read: Result<Event, EventFault>) -> Option<(i128, i128)> {
    let event = read.ok()?;
    let moments = (event.received.0, event.staged.0);
    drop(event);
    Some(moments)
}

fn moments(rt: &(impl Abort + AllocGlobal), received: &str, staged: &str) -> Option<(i128, i128)> {
    let more = times_text(rt, received, staged);
    moments_of(read_with(rt, "", more.as_str()))
}

#[test]
fn times(rt: HostRuntime) {
    for (received, staged, read) in &TIMES {
        let found = moments(&rt, received, staged);
        assert_so(&rt, found == *read, received);
    }
}

fn event_with(rt: &(impl Abort + AllocGlobal), more: &str) -> Event {
    read_with(rt, "", more).expect(rt, "an event")
}

fn check_event(rt: &impl Abort, event: &Event) {
    assert_so(rt, event.line == 7, "line");
    assert_text(rt, &event.audit_id, "a1", "auditID");
    assert_text(rt, &event.attrs.name, "a", "name");
    assert_so(rt, event.user.groups.len() == 2, "groups");
    assert_so(rt, event.impersonated.is_some(), "impersonatedUser");
    assert_so(rt, matches!(event.request, Body::Absent), "requestObject");
    assert_so(
        rt,
        matches!(event.response, Body::Kept(_)),
        "responseObject",
    );
}

#[test]
fn fields(rt: HostRuntime) {
    let event = event_with(&rt, r#""impersonatedUser":{"username":"v"},"#);
    check_event(&rt, &event);
    drop(event);
}

// Members, and what is read of the status: its code, or 0, whether it is a success, and its reason, uid, name and kind.
static STATUSES: [(&str, u16, bool, [&str; 4]); 9] = [
    ("", 200, true, ["r", "A", "a", "configmaps"]),
    (
        r#""responseStatus":{"code":0},"#,
        0,
        true,
        ["r", "A", "a", "configmaps"],
    ),
    (
        r#""stage":"Panic","#,
        0,
        true,
        ["r", "A", "a", "configmaps"],
    ),
    (
        r#""responseObject":{"kind":"Status","code":404},"#,
        200,
        false,
        ["", "", "", ""],
    ),
    (
        r#""responseObject":{"kind":"Status","n":1.5},"responseStatus":{"code":404,"reason":"s","status":"Failure","details":{"uid":"B","name":7}},"#,
        404,
        false,
        ["s", "B", "", ""],
    ),
    (
        r#""responseObject":{"kind":"ConfigMap"},"responseStatus":{"code":201,"status":"Success"},"#,
        201,
        true,
        ["", "", "", ""],
    ),
    (
        r#""responseObject":null,"responseStatus":{"status":"success","details":[]},"#,
        0,
        false,
        ["", "", "", ""],
    ),
    (
        r#""responseObject":["Status"],"responseStatus":null,"#,
        0,
        false,
        ["", "", "", ""],
    ),
    (
        r#""responseObject":{"kind":"Status","details":{"name":"b"}},"responseStatus":{"reason":"s"},"#,
        0,
        false,
        ["", "", "b", ""],
    ),
];

fn check_texts(rt: &impl Abort, status: &Status, wanted: &[&str; 4], row: &str) {
    let [reason, uid, name, kind] = wanted;
    assert_text(rt, &status.reason, reason, row);
    assert_text(rt, &status.uid, uid, row);
    assert_text(rt, &status.name, name, row);
    assert_text(rt, &status.kind, kind, row);
}

fn check_status(rt: &impl Abort, status: &Status, code: u16, success: bool, row: &str) {
    assert_so(rt, status.code.unwrap_or(0) == code, row);
    assert_so(rt, status.success == success, row);
}

#[test]
fn statuses(rt: HostRuntime) {
    for (more, code, success, texts) in &STATUSES {
        let event = event_with(&rt, more);
        check_status(&rt, &event.status, *code, *success, more);
        check_texts(&rt, &event.status, texts, more);
        drop(event);
    }
}

// Annotations, and the decision that they record.
static DECISIONS: [(&str, Option<Decision>); 5] = [
    (
        r#""annotations":{"authorization.k8s.io/decision":"allow"},"#,
        Some(Decision::Allow),
    ),
    (
        r#""annotations":{"authorization.k8s.io/decision":"forbid"},"#,
        Some(Decision::Forbid),
    ),
    (
        r#""annotations":{"authorization.k8s.io/decision":"Allow"},"#,
        None,
    ),
    (
        r#""annotations":{"authorization.k8s.io/decision":["allow"]},"#,
        None,
    ),
    (r#""annotations":"allow","#, None),
];

fn decision_with(rt: &(impl Abort + AllocGlobal), more: &str) -> Option<Decision> {
    let event = event_with(rt, more);
    let decision = event.decision;
    drop(event);
    decision
}

#[test]
fn decisions(rt: HostRuntime) {
    for (more, decision) in &DECISIONS {
        assert_so(&rt, decision_with(&rt, more) == *decision, more);
    }
}

// Items, and whether they are taken for events in a list, and by themselves.
static ITEMS: [(&str, bool, bool); 4] = [
    (
        r#"{"level":"Metadata","auditID":"a","stage":"Panic","requestURI":"/","verb":"get","user":{},"requestReceivedTimestamp":"2024-05-01T10:00:00Z","stageTimestamp":"2024-05-01T10:00:00Z"}"#,
        true,
        false,
    ),
    (
        r#"{"kind":"Event","apiVersion":"audit.k8s.io/v1","level":"Metadata","auditID":"a","stage":"Panic","requestURI":"/","verb":"get","user":{},"requestReceivedTimestamp":"2024-05-01T10:00:00Z","stageTimestamp":"2024-05-01T10:00:00Z"}"#,
        true,
        true,
    ),
    (
        r#"{"kind":"Event","level":"Metadata","auditID":"a","stage":"Panic","requestURI":"/","verb":"get","user":{},"requestReceivedTimestamp":"2024-05-01T10:00:00Z","stageTimestamp":"2024-05-01T10:00:00Z"}"#,
        false,
        false,
    ),
    ("null", false, false),
];

// Whether a value is taken for an event in a list, and by itself.
fn taken(rt: &(impl Abort + AllocGlobal), text: &str) -> (bool, bool) {
    let mut scratch = Scratch::new(rt.alloc());
    let value = JsonValue::read(rt.alloc(), text.as_bytes(), &mut scratch).expect(rt, "JSON");
    let in_list = rule_of(rt, read_item(rt.alloc(), &value, 0)).is_none();
    let by_itself = rule_of(rt, read_value(rt.alloc(), &value, 0)).is_none();
    drop(value);
    (in_list, by_itself)
}

#[test]
fn items(rt: HostRuntime) {
    for (text, is_item, is_event) in &ITEMS {
        assert_so(&rt, taken(&rt, text) == (*is_item, *is_event), text);
    }
}
