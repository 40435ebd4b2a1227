// What the tests are given: texts, and logs of them.
use base_types::Bytes;
use std::process::Abort;

const HEAD: &str = r#"{"kind":"Event","apiVersion":"audit.k8s.io/v1","#;

const LIST: &str = r#"{"kind":"EventList","apiVersion":"audit.k8s.io/v1","items":["#;

// An event behind its ID.
const REST: &str =
    r#""level":"Metadata","stage":"ResponseComplete","requestURI":"/","user":{},"requestReceivedTimestamp":"2024-05-01T10:00:00Z","stageTimestamp":"2024-05-01T10:00:00Z","verb":"get"}"#;

// The same without its last brace.
const OPEN: &str =
    r#""level":"Metadata","stage":"ResponseComplete","requestURI":"/","user":{},"requestReceivedTimestamp":"2024-05-01T10:00:00Z","stageTimestamp":"2024-05-01T10:00:00Z","verb":"get""#;

const NO_VERB: &str =
    r#""level":"Metadata","stage":"ResponseComplete","requestURI":"/","user":{},"requestReceivedTimestamp":"2024-05-01T10:00:00Z","stageTimestamp":"2024-05-01T10:00:00Z","verb":""}"#;

// What stands for what in the logs of the tables.
static WORDS: [(&str, &str); 7] = [
    ("BLANK", " \t\r"),
    ("RETURN", "\r"),
    ("HEAD", HEAD),
    ("LIST", LIST),
    ("NO_VERB", NO_VERB),
    ("REST", REST),
    ("OPEN", OPEN),
];

/// A log of a table in full.
pub(crate) fn spelled(rt: &(impl Abort + AllocGlobal), log: &str) -> String {
    let mut text = String::from_str(rt.alloc(), log).expect(rt, "memory");
    for (word, meaning) in &WORDS {
        text = text
            .as_str()
            .replace(rt.alloc(), word, meaning)
            .expect(rt, "memory");
    }
    text
}

pub(crate) fn push(rt: &impl Abort, text: &mut String, more: &str) {
    text.push_str(more).expect(rt, "memory");
}

pub(crate) fn bytes_of(rt: &(impl Abort + AllocGlobal), text: &str) -> Bytes {
    Bytes::from_vec(text.as_bytes().to_vec(rt.alloc()).expect(rt, "memory"))
}

pub(crate) fn assert_text(rt: &impl Abort, found: &str, wanted: &str) {
    assert_eq!(rt; found, wanted);
}

/// Stops the test unless this holds of the row.
pub(crate) fn assert_so(rt: &impl Abort, holds: bool, row: &str) {
    assert!(rt; holds, "{row}");
}
