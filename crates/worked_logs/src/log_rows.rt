//! One request as an event of a log: where in the history its answer may be, whether its decision is judged, and the
//! number of its object.

ghost use Rattle.std.specs.Prelude.{◌≡◌, length, All};
ghost use Rattle.audit_event.specs.Events.{IsSound};

use crate::reading::{assert_text, check, event_of, push, setup_of};
use audit_event::{Event, Events};
use hash_seed::Seed;
use log_context::log_of;
use node_pool::Interner;
use std::marker::Sync;
use std::mem::forget;
use std::process::Abort;
use std::thread::Threads;
use write_groups::{LogEvent, Reading, Shown};

// The log is from 10:00 to 11:00; clocks may be off by a second, and an authorizer's caches may be a second behind.
const SETUP: &str =
    r#"{"kind":"PastSetup","version":1,"start":{"revision":"10","time":"2024-05-01T10:00:00Z"},
    "until":"2024-05-01T11:00:00Z","slackNanos":1000000000,"lagNanos":1000000000,"authorize":true,"skipGroups":["nodes"],
    "policy":{"apiVersion":"audit.k8s.io/v1","kind":"Policy","rules":[{"level":"RequestResponse"}]},
    "snapshot":[{"group":"","resource":"configmaps","object":{"metadata":{"name":"a","namespace":"d","uid":"A","resourceVersion":"9"}}}],
    "resources":[
    {"group":"","version":"v1","resource":"configmaps","kind":"ConfigMap","listKind":"ConfigMapList","namespaced":true},
    {"group":"rbac.authorization.k8s.io","version":"v1","resource":"roles","kind":"Role","listKind":"RoleList","namespaced":true},
    {"group":"rbac.authorization.k8s.io","version":"v1","resource":"clusterroles","kind":"ClusterRole","listKind":"ClusterRoleList","namespaced":false},
    {"group":"rbac.authorization.k8s.io","version":"v1","resource":"rolebindings","kind":"RoleBinding","listKind":"RoleBindingList","namespaced":true},
    {"group":"rbac.authorization.k8s.io","version":"v1","resource":"clusterrolebindings","kind":"ClusterRoleBinding","listKind":"ClusterRoleBindingList","namespaced":false}]}"#;

const OBJECT: &str = r#"{"metadata":{"name":"a","namespace":"d","uid":"A","resourceVersion":"9"}}"#;

const USER: &str = r#""user":{"username":"u"}"#;

const NODE: &str = r#""user":{"username":"n","groups":["nodes"]}"#;

const AS_NODE: &str =
    r#""user":{"username":"u"},"impersonatedUser":{"username":"n","groups":["nodes"]}"#;

const FROM_NODE: &str =
    r#""user":{"username":"n","groups":["nodes"]},"impersonatedUser":{"username":"u"}"#;

// A request of configmaps with its verb and query, by these users, answered in a stage, received and answered at these
// times of one day.
#[derive(Clone, Copy)]
struct Request {
    of: (&'static str, &'static str),
    users: &'static str,
    stage: &'static str,
    times: (&'static str, &'static str),
}

// Who asks within the log.
fn usual(of: (&'static str, &'static str)) -> Request {
    Request {
        of,
        users: USER,
        stage: "ResponseComplete",
        times: WITHIN,
    }
}

// The event of a request.
fn event(rt: &(impl Abort + AllocGlobal), request: &Request) -> Event
    ensures { IsSound result }
{
    let (verb, query) = request.of;
    let (received, staged) = request.times;
    let (users, stage) = (request.users, request.stage);
    let text = format!(in rt.alloc();
        r#"{{"level":"RequestResponse","auditID":"a","stage":"{stage}","verb":"{verb}",
        "requestURI":"/api/v1/namespaces/d/configmaps{query}",{users},"responseStatus":{{"code":200}},
        "annotations":{{"authorization.k8s.io/decision":"allow"}},"responseObject":{OBJECT},
        "requestReceivedTimestamp":"2024-05-01T{received}Z","stageTimestamp":"2024-05-01T{staged}Z"}}"#
    )
    .expect(rt, "memory");
    event_of(rt, text.as_str(), 1)
}

fn word(reading: Reading) -> &'static str {
    match reading {
        Reading::MostRecent => "most recent",
        Reading::AnyVersion => "any",
        Reading::NotOlderThan(_) => "not older",
        Reading::Exactly(_) => "exactly",
        Reading::Checkpoint(_) => "checkpoint",
    }
}

const WITHIN: (&str, &str) = ("10:00:02", "10:00:03");

// A verb and a query, and where in the history the answer may be.
static READINGS: [((&str, &str), &str); 12] = [
    (("get", "/a"), "most recent"),
    (("get", "/a?resourceVersion=0"), "any"),
    (("get", "/a?resourceVersion=12"), "not older"),
    (("get", "/a?resourceVersion=012"), "most recent"),
    (
        ("get", "/a?resourceVersion=12&resourceVersion=0"),
        "not older",
    ),
    (
        ("get", "/a?resourceVersion=12&resourceVersionMatch=Exact"),
        "not older",
    ),
    (("get", "/a?resourceVersion=12&continue=t"), "not older"),
    (
        ("list", "?resourceVersion=12&resourceVersionMatch=Exact"),
        "exactly",
    ),
    (
        (
            "list",
            "?resourceVersion=12&resourceVersionMatch=NotOlderThan",
        ),
        "not older",
    ),
    (
        ("list", "?resourceVersion=0&resourceVersionMatch=Exact"),
        "any",
    ),
    (
        (
            "list",
            "?resourceVersion=12&resourceVersionMatch=Exact&continue=t",
        ),
        "any",
    ),
    (("watch", "?resourceVersion=12"), "most recent"),
];

// Who asks, the stage and its times, and whether the decision is judged: each beside what just misses it.
static DECISIONS: [(&str, &str, (&str, &str), bool); 9] = [
    (USER, "ResponseComplete", WITHIN, true),
    (USER, "Panic", WITHIN, true),
    (USER, "ResponseStarted", WITHIN, false),
    (NODE, "ResponseComplete", WITHIN, false),
    (AS_NODE, "ResponseComplete", WITHIN, false),
    (FROM_NODE, "ResponseComplete", WITHIN, true),
    (USER, "ResponseComplete", ("10:00:01", "10:00:03"), false),
    (USER, "ResponseComplete", ("10:00:02", "10:59:59"), true),
    (
        USER,
        "ResponseComplete",
        ("10:00:02", "10:59:59.000000001"),
        false,
    ),
];

// A log of one request of the object that was there at the start.
fn log_with(rt: &(impl Abort + AllocGlobal), request: &Request) -> Events
    ensures sound { All IsSound result }
    ensures one { length result ≡ 1 }
{
    let read = event(rt, request);
    let mut events = Events::new(rt.alloc());
    push(rt, &mut events, read);
    events
}

// What is told of an event, and how many distinct values the objects of its log have.
#[derive(Clone, Copy)]
struct Told {
    reading: &'static str,
    is_judged: bool,
    node: Option<u32>,
    values: u32,
}

// The number of the object that a read was answered with.
fn seen_node(event: &LogEvent) -> Option<u32> {
    match &event.answer {
        Shown::Saw { item } => Some(item.node.0),
        _ => None,
    }
}

fn told_of(event: &LogEvent, values: u32) -> Told {
    Told {
        reading: word(event.reading),
        is_judged: event.decision.is_some(),
        node: seen_node(event),
        values,
    }
}

// What is told of the event of such a log.
fn tell<R: Abort + AllocGlobal + Sync + Threads>(rt: &R, request: &Request) -> Told {
    let setup = setup_of(rt, SETUP, Seed::of(b""));
    let events = log_with(rt, request);
    let mut interner = Interner::new(rt.alloc(), 100, Seed::of(b"")).expect(rt, "memory");
    let log = log_of(rt, rt.alloc(), &mut interner, &setup, &events).expect(rt, "a log");
    let first = log.events.as_slice().first().expect(rt, "an event");
    let told = told_of(first, interner.len());
    forget(log);
    forget(interner);
    forget(events);
    forget(setup);
    told
}

#[test]
fn each_reading_is_told(rt: HostRuntime) {
    for (of, reading) in &READINGS {
        let told = tell(&rt, &usual(*of));
        assert_text(&rt, told.reading, reading, of.1);
    }
}

#[test]
fn judged_decisions_are_told(rt: HostRuntime) {
    for (users, stage, times, is_judged) in &DECISIONS {
        let request = Request {
            of: ("get", "/a"),
            users,
            stage,
            times: *times,
        };
        let told = tell(&rt, &request);
        check(&rt, told.is_judged == *is_judged, users);
    }
}

/// An object that is read as it was at the start has one number in the pool.
#[test]
fn equal_trees_have_one_number(rt: HostRuntime) {
    let told = tell(&rt, &usual(("get", "/a")));
    check(&rt, told.node == Some(5), "the number");
    check(&rt, told.values == 6, "how many");
}
