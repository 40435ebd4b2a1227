use crate::given::{assert_so, bytes_of, push};
use audit_event::Malformed;
use batch_decode::{Decoded, ItemFault, decode_line};
use line_reader::Line;
use std::process::Abort;

const ITEM: &str =
    r#"{"level":"Metadata","auditID":"a","stage":"ResponseComplete","requestURI":"/","verb":"get","user":{},"requestReceivedTimestamp":"2024-05-01T10:00:00Z","stageTimestamp":"2024-05-01T10:00:00Z""#;

const LIST: &str = r#"{"kind":"EventList","apiVersion":"audit.k8s.io/v1","items":["#;

const NAMED: &str = r#","kind":"Event","apiVersion":"audit.k8s.io/v1""#;

const HALF_NAMED: &str = r#","kind":"Event""#;

const NO_VERB: &str = r#","verb":"""#;

const LISTED: &str = r#","kind":"EventList","apiVersion":"audit.k8s.io/v1","items":[]"#;

fn push_item(rt: &impl Abort, text: &mut String, more: &str) {
    push(rt, text, ITEM);
    push(rt, text, more);
    push(rt, text, "}");
}

// An EventList of items with these further members.
fn list_text(rt: &(impl Abort + AllocGlobal), items: &[&str]) -> String {
    let mut text = String::new(rt.alloc());
    push(rt, &mut text, LIST);
    let mut is_first = true;
    for more in items {
        if !is_first {
            push(rt, &mut text, ",");
        }
        is_first = false;
        push_item(rt, &mut text, more);
    }
    push(rt, &mut text, "]}");
    text
}

fn event_text(rt: &(impl Abort + AllocGlobal)) -> String {
    let mut text = String::new(rt.alloc());
    push_item(rt, &mut text, NAMED);
    text
}

fn decode(rt: &(impl Abort + AllocGlobal), text: &str) -> Decoded {
    let line = Line {
        number: 9,
        bytes: bytes_of(rt, text),
    };
    decode_line(rt.alloc(), &line).expect(rt, "memory")
}

/// How many numbers a line takes, how many events come of it, and at which item they end.
type Outcome = (u64, usize, Option<ItemFault>);

fn outcome(rt: &(impl Abort + AllocGlobal), text: &str) -> Outcome {
    let decoded = decode(rt, text);
    let outcome = (decoded.taken, decoded.events.len(), decoded.fault);
    drop(decoded);
    outcome
}

fn check(rt: &(impl Abort + AllocGlobal), text: &str, wanted: Outcome) {
    assert_so(rt, outcome(rt, text) == wanted, text);
}

// The items of an EventList by their further members, and what comes of it.
static LISTS: [(&[&str], Outcome); 5] = [
    (&[], (1, 0, None)),
    (&["", NAMED], (2, 2, None)),
    (
        &["", NO_VERB, ""],
        (
            3,
            1,
            Some(ItemFault {
                index: 1,
                code: Malformed::M9,
            }),
        ),
    ),
    (
        &["", "", LISTED],
        (
            3,
            2,
            Some(ItemFault {
                index: 2,
                code: Malformed::M2,
            }),
        ),
    ),
    (
        &[HALF_NAMED],
        (
            1,
            0,
            Some(ItemFault {
                index: 0,
                code: Malformed::M2,
            }),
        ),
    ),
];

fn check_list(rt: &(impl Abort + AllocGlobal), items: &[&str], wanted: Outcome) {
    let text = list_text(rt, items);
    check(rt, text.as_str(), wanted);
}

#[test]
fn lists(rt: HostRuntime) {
    for (items, wanted) in &LISTS {
        check_list(&rt, *items, *wanted);
    }
}

// Lines of which no event comes, and the rule that they break.
static OTHERS: [(&str, Malformed); 6] = [
    ("x", Malformed::M1),
    ("[]", Malformed::M2),
    (
        r#"{"kind":"EventList","apiVersion":"audit.k8s.io/v1"}"#,
        Malformed::M2,
    ),
    (
        r#"{"kind":"EventList","apiVersion":"audit.k8s.io/v1","items":{}}"#,
        Malformed::M2,
    ),
    (
        r#"{"kind":"EventList","apiVersion":"v1","items":[]}"#,
        Malformed::M2,
    ),
    (
        r#"{"kind":"Event","apiVersion":"audit.k8s.io/v1"}"#,
        Malformed::M3,
    ),
];

#[test]
fn other_lines(rt: HostRuntime) {
    for (text, code) in &OTHERS {
        let fault = ItemFault {
            index: 0,
            code: *code,
        };
        check(&rt, text, (1, 0, Some(fault)));
    }
    let event = event_text(&rt);
    check(&rt, event.as_str(), (1, 1, None));
}
