use crate::given::{assert_so, assert_text, event, push, setup_of};
use audit_event::Events;
use hash_seed::Seed;
use page_chains::chains;
use setup_file::{Checkpoint, Checkpoints};
use std::process::Abort;

const SETUP: &str =
    r#"{"kind":"PastSetup","version":1,"start":{"revision":"10","time":"2024-05-01T10:00:00Z"},
    "policy":{"apiVersion":"audit.k8s.io/v1","kind":"Policy","rules":[]},"snapshot":[],"resources":[
    {"group":"","version":"v1","resource":"configmaps","kind":"ConfigMap","listKind":"ConfigMapList","namespaced":true}]}"#;

// Lists of configmaps in namespace d.
const FIRST: &str = "/api/v1/namespaces/d/configmaps?limit=1";

const NEXT: &str = "/api/v1/namespaces/d/configmaps?limit=1&continue=t1";

const THIRD: &str = "/api/v1/namespaces/d/configmaps?limit=1&continue=t2";

// Pages: their objects, and the tokens of the pages that follow.
const A_THEN_T1: &str =
    r#"{"kind":"ConfigMapList","metadata":{"resourceVersion":"10","continue":"t1"},"items":[
    {"metadata":{"name":"a","namespace":"d","uid":"A","resourceVersion":"9"}}]}"#;

const B: &str =
    r#"{"kind":"ConfigMapList","metadata":{"resourceVersion":"10","continue":""},"items":[
    {"metadata":{"name":"b","namespace":"d","uid":"B","resourceVersion":"8"}}]}"#;

const B_THEN_T1: &str =
    r#"{"kind":"ConfigMapList","metadata":{"resourceVersion":"10","continue":"t1"},"items":[
    {"metadata":{"name":"b","namespace":"d","uid":"B","resourceVersion":"8"}}]}"#;

const B_THEN_T2: &str =
    r#"{"kind":"ConfigMapList","metadata":{"resourceVersion":"10","continue":"t2"},"items":[
    {"metadata":{"name":"b","namespace":"d","uid":"B","resourceVersion":"8"}}]}"#;

const EMPTY: &str = r#"{"kind":"ConfigMapList","metadata":{"resourceVersion":"10"},"items":[]}"#;

const EMPTY_LATER: &str =
    r#"{"kind":"ConfigMapList","metadata":{"resourceVersion":"11"},"items":[]}"#;

// The chains that lists make, each with its name and the names of its objects; and the lists, each with its URI, when
// it was answered, and the answer.
static LOGS: [(&str, &[(&str, &str, &str)]); 15] = [
    (
        "pages:1=ab ",
        &[(FIRST, "10:00:02", A_THEN_T1), (NEXT, "10:00:04", B)],
    ),
    (
        "pages:2=ab ",
        &[(NEXT, "10:00:04", B), (FIRST, "10:00:02", A_THEN_T1)],
    ),
    (
        "pages:1=ab ",
        &[
            (FIRST, "10:00:02", A_THEN_T1),
            (NEXT, "10:00:04", B_THEN_T2),
            (THIRD, "10:00:06", EMPTY),
        ],
    ),
    // a page in two chains
    (
        "pages:1=ab pages:2=ab ",
        &[
            (FIRST, "10:00:02", A_THEN_T1),
            (FIRST, "10:00:03", A_THEN_T1),
            (NEXT, "10:00:04", B),
        ],
    ),
    // of two pages that were asked for by one token the one that was answered first
    (
        "pages:1=ab ",
        &[
            (FIRST, "10:00:02", A_THEN_T1),
            (NEXT, "10:00:09", EMPTY),
            (NEXT, "10:00:04", B),
        ],
    ),
    (
        "pages:1=a ",
        &[
            (FIRST, "10:00:02", A_THEN_T1),
            (NEXT, "10:00:04", EMPTY),
            (NEXT, "10:00:04", B),
        ],
    ),
    // a page is missing
    ("", &[(FIRST, "10:00:02", A_THEN_T1)]),
    (
        "",
        &[(FIRST, "10:00:02", A_THEN_T1), (THIRD, "10:00:04", B)],
    ),
    (
        "",
        &[(NEXT, "10:00:02", B_THEN_T2), (THIRD, "10:00:04", EMPTY)],
    ),
    // at another revision, and of another scope
    (
        "",
        &[
            (FIRST, "10:00:02", A_THEN_T1),
            (NEXT, "10:00:04", EMPTY_LATER),
        ],
    ),
    (
        "",
        &[
            (FIRST, "10:00:02", A_THEN_T1),
            ("/api/v1/configmaps?continue=t1", "10:00:04", EMPTY),
        ],
    ),
    // a page would come twice
    (
        "",
        &[
            (FIRST, "10:00:02", A_THEN_T1),
            (NEXT, "10:00:04", B_THEN_T1),
        ],
    ),
    // selectors, and tokens
    (
        "",
        &[
            (
                "/api/v1/namespaces/d/configmaps?labelSelector=app",
                "10:00:02",
                A_THEN_T1,
            ),
            (NEXT, "10:00:04", B),
        ],
    ),
    (
        "",
        &[
            (FIRST, "10:00:02", A_THEN_T1),
            (
                "/api/v1/namespaces/d/configmaps?continue=t1&continue=t2",
                "10:00:04",
                B,
            ),
        ],
    ),
    (
        "pages:1=ab ",
        &[
            (FIRST, "10:00:02", A_THEN_T1),
            (
                "/api/v1/namespaces/d/configmaps?continue=&continue=t1&fieldSelector=",
                "10:00:04",
                B,
            ),
        ],
    ),
];

fn write_chain(rt: &impl Abort, text: &mut String, chain: &Checkpoint) {
    push(rt, text, chain.name.as_str());
    push(rt, text, "=");
    for item in &chain.items {
        push(rt, text, item.key.name.as_str());
    }
    push(rt, text, " ");
}

// The lists as the events of a log, of which the first has this line, with so many lines between two.
fn log_of(
    rt: &(impl Abort + AllocGlobal),
    lists: &[(&str, &str, &str)],
    first: u64,
    apart: u64,
) -> Events {
    let mut events = Events::new(rt.alloc());
    let mut line = first;
    for (uri, staged, answer) in lists {
        let request = ("list", *uri, "null");
        let event = event(rt, line, request, ("10:00:01", staged), (200, answer));
        events.push(event).expect(rt, "memory");
        line = line.saturating_add(apart);
    }
    events
}

// The chains that the lists make.
fn chains_of(
    rt: &(impl Abort + AllocGlobal),
    lists: &[(&str, &str, &str)],
    first: u64,
    apart: u64,
) -> Checkpoints {
    let events = log_of(rt, lists, first, apart);
    let setup = setup_of(rt, SETUP);
    let found = chains(rt.alloc(), &setup, &events, Seed::of(b""));
    drop(setup);
    drop(events);
    found.expect(rt, "memory")
}

fn told(rt: &(impl Abort + AllocGlobal), found: &Checkpoints) -> String {
    let mut text = String::new(rt.alloc());
    for chain in found {
        write_chain(rt, &mut text, chain);
    }
    text
}

fn check_told(rt: &(impl Abort + AllocGlobal), lists: &[(&str, &str, &str)], wanted: &str) {
    let found = chains_of(rt, lists, 1, 1);
    let text = told(rt, &found);
    drop(found);
    assert_text(rt, text.as_str(), wanted, "the lists");
}

#[test]
fn pages_make_chains(rt: HostRuntime) {
    for (wanted, lists) in &LOGS {
        check_told(&rt, *lists, wanted);
    }
}

fn check_chain(rt: &impl Abort, chain: &Checkpoint) {
    assert_text(rt, chain.name.as_str(), "pages:3", "the name");
    assert_text(rt, chain.resource.as_str(), "configmaps", "the resource");
    assert_text(rt, chain.namespace.as_str(), "d", "the namespace");
    assert_so(rt, chain.revision.get() == 10, "the revision");
}

fn check_chains(rt: &impl Abort, found: &Checkpoints) {
    assert_so(rt, found.len() == 1, "one chain");
    for chain in found {
        check_chain(rt, chain);
    }
}

#[test]
fn a_chain_is_a_list_of_its_scope(rt: HostRuntime) {
    let lists = [(FIRST, "10:00:02", A_THEN_T1), (NEXT, "10:00:04", B)];
    let found = chains_of(&rt, &lists, 3, 2);
    check_chains(&rt, &found);
    drop(found);
}
