use crate::given::{assert_so, assert_text, push, setup_of};
use SetupRule::{S1, S2, S3, S4, S5, S6, S7, S8, S9, S10, S11, S12, S13, S14, S15};
use hash_seed::Seed;
use setup_file::{Setup, SetupFault, SetupRule, read_setup};
use std::process::Abort;

// A setup's members, as they usually are.
static USUAL: [(&str, &str); 6] = [
    ("kind", r#""PastSetup""#),
    ("version", "1"),
    (
        "start",
        r#"{"revision":"10","time":"2024-05-01T10:00:00Z"}"#,
    ),
    (
        "policy",
        r#"{"apiVersion":"audit.k8s.io/v1","kind":"Policy","rules":[{"level":"RequestResponse"}]}"#,
    ),
    (
        "resources",
        r#"[{"group":"","version":"v1","resource":"configmaps","kind":"ConfigMap","listKind":"ConfigMapList","namespaced":true}]"#,
    ),
    ("snapshot", "[]"),
];

// One member of a setup with its value, which is missing where that is empty, and the first rule that is broken then.
static CASES: [(&str, &str, Option<SetupRule>); 47] = [
    ("x", "", None),
    ("version", "1.0", Some(S1)),
    ("kind", r#""Setup""#, Some(S2)),
    ("start", "", Some(S2)),
    ("x", "1", Some(S2)),
    ("checkpoints", "[]", Some(S2)),
    ("version", "", Some(S3)),
    ("version", "3", Some(S3)),
    ("version", r#"null,"until":null"#, Some(S3)),
    ("version", "2", None),
    (
        "start",
        r#"{"revision":"010","time":"2024-05-01T10:00:00Z"}"#,
        Some(S4),
    ),
    (
        "start",
        r#"{"revision":"10","time":"10:00"},"slackNanos":-1"#,
        Some(S4),
    ),
    (
        "start",
        r#"{"revision":"10","time":"2024-05-01T10:00:00Z","zone":0}"#,
        Some(S4),
    ),
    ("until", r#""2024-05-01T09:59:59.999999999Z""#, Some(S5)),
    ("until", r#"null,"lagNanos":-1"#, Some(S5)),
    ("until", r#""2024-05-01T10:00:00Z""#, None),
    ("slackNanos", "-1", Some(S6)),
    ("slackNanos", "1000000000000000001", Some(S6)),
    ("slackNanos", "1000000000000000000", None),
    ("lagNanos", "null", Some(S6)),
    ("policy", r#"{},"authorize":1"#, Some(S7)),
    ("resources", "null", Some(S8)),
    (
        "resources",
        r#"[{"group":"","version":"","resource":"a","kind":"A","listKind":"L","namespaced":true}]"#,
        Some(S8),
    ),
    (
        "resources",
        r#"[{"group":"","version":"v1","resource":"a","kind":"A","listKind":"L","namespaced":true,"shape":[]}]"#,
        Some(S8),
    ),
    (
        "resources",
        r#"[{"group":"","version":"v1","resource":"a","kind":"A","listKind":"L","namespaced":true,"shapes":0},{"group":"","version":"v1","resource":"b","kind":"A","listKind":"M","namespaced":true}]"#,
        Some(S9),
    ),
    (
        "resources",
        r#"[{"group":"","version":"v1","resource":"a","kind":"A","listKind":"L","namespaced":true,"subresources":0},{"group":"g","version":"v1","resource":"a","kind":"A","listKind":"L","namespaced":true,"shapes":[{"path":"/a"}]}]"#,
        Some(S10),
    ),
    (
        "resources",
        r#"[{"group":"","version":"v1","resource":"a","kind":"A","listKind":"L","namespaced":true,"subresources":[{"name":"s","effect":"same"},{"name":"s","effect":"none"}]}]"#,
        Some(S11),
    ),
    (
        "resources",
        r#"[{"group":"","version":"v1","resource":"a","kind":"A","listKind":"L","namespaced":true,"subresources":[{"name":"","effect":"some"}]}]"#,
        Some(S11),
    ),
    (
        "resources",
        r#"[{"group":"","version":"v1","resource":"a","kind":"A","listKind":"L","namespaced":true,"objectPatch":"merge","shapes":[{"path":"/spec","class":"Defaulted"}],"subresources":[{"name":"","effect":"none","shapes":[]}]}]"#,
        None,
    ),
    (
        "resources",
        r#"[{"group":"y","version":"v1","resource":"bs","kind":"B","listKind":"BList","namespaced":true},{"group":"x","version":"v1","resource":"cs","kind":"C","listKind":"CList","namespaced":false},{"group":"x","version":"v1","resource":"bs","kind":"B","listKind":"BList","namespaced":false}],"snapshot":[{"group":"x","resource":"bs","object":{"metadata":{"name":"a","uid":"A","resourceVersion":"9"}}},{"group":"y","resource":"bs","object":{"metadata":{"name":"a","namespace":"d","uid":"B","resourceVersion":"8"}}},{"group":"x","resource":"cs","object":{"metadata":{"name":"a","uid":"C","resourceVersion":"7"}}}]"#,
        None,
    ),
    (
        "resources",
        r#"[{"group":"y","version":"v1","resource":"bs","kind":"B","listKind":"BList","namespaced":true},{"group":"x","version":"v1","resource":"cs","kind":"C","listKind":"CList","namespaced":false},{"group":"x","version":"v1","resource":"bs","kind":"B","listKind":"BList","namespaced":false}],"snapshot":[{"group":"y","resource":"cs","object":{"metadata":{"name":"a","uid":"A","resourceVersion":"9"}}}]"#,
        Some(S12),
    ),
    ("snapshot", "{}", Some(S12)),
    (
        "snapshot",
        r#"[{"group":"","resource":"pods","object":{"metadata":{"name":"a","namespace":"d","uid":"A","resourceVersion":"9"}}}]"#,
        Some(S12),
    ),
    (
        "snapshot",
        r#"[{"group":"","resource":"configmaps","object":{"metadata":{"name":"a","namespace":"","uid":"A","resourceVersion":"11"}}}]"#,
        Some(S12),
    ),
    (
        "snapshot",
        r#"[{"group":"","resource":"configmaps","object":{"metadata":{"name":"a","namespace":"d","uid":"A","resourceVersion":"11"}}}]"#,
        Some(S13),
    ),
    (
        "snapshot",
        r#"[{"group":"","resource":"configmaps","object":{"metadata":{"name":"a","namespace":"d","uid":"A","resourceVersion":"9"}}},{"group":"","resource":"configmaps","object":{"metadata":{"name":"b","namespace":"d","uid":"A","resourceVersion":"8"}}}]"#,
        Some(S13),
    ),
    (
        "snapshot",
        r#"[{"group":"","resource":"configmaps","object":{"kind":"ConfigMap","metadata":{"name":"a","namespace":"d","uid":"A","resourceVersion":"9"}}},{"group":"","resource":"configmaps","object":{"metadata":{"name":"a","namespace":"e","uid":"B","resourceVersion":"10"}}}]"#,
        None,
    ),
    ("authorize", "1", Some(S14)),
    ("authorize", "true", Some(S14)),
    ("bypassGroups", "null", Some(S14)),
    ("skipGroups", "[1]", Some(S14)),
    ("version", r#"2,"checkpoints":{}"#, Some(S15)),
    (
        "version",
        r#"2,"checkpoints":[{"group":"","resource":"configmaps","namespace":"","list":{"kind":"ConfigMapList","metadata":{"resourceVersion":"9"}}}]"#,
        Some(S15),
    ),
    (
        "version",
        r#"2,"checkpoints":[{"group":"","resource":"configmaps","namespace":"","list":{"kind":"ConfigMapList","metadata":{"resourceVersion":"16","continue":"t"}}}]"#,
        Some(S15),
    ),
    (
        "version",
        r#"2,"checkpoints":[{"group":"","resource":"configmaps","namespace":"e","list":{"kind":"ConfigMapList","metadata":{"resourceVersion":"16"},"items":[{"metadata":{"name":"a","namespace":"d","uid":"A","resourceVersion":"14"}}]}}]"#,
        Some(S15),
    ),
    (
        "version",
        r#"2,"checkpoints":[{"group":"","resource":"configmaps","namespace":"d","list":{"kind":"ConfigMapList","metadata":{"resourceVersion":"16"},"items":[{"metadata":{"name":"a","namespace":"d","uid":"A","resourceVersion":"14"}}]}}]"#,
        None,
    ),
    (
        "version",
        r#"2,"checkpoints":[{"group":"","resource":"configmaps","namespace":"","list":{"kind":"ConfigMapList","metadata":{"resourceVersion":"10","continue":null},"items":null}}]"#,
        None,
    ),
];

fn write_member(rt: &(impl Abort + AllocGlobal), text: &mut String, name: &str, value: &str) {
    let member = format!(in rt.alloc(); "\"{name}\":{value},").expect(rt, "memory");
    push(rt, text, member.as_str());
}

fn text_with(rt: &(impl Abort + AllocGlobal), member: &str, value: &str) -> String {
    let mut text = String::new(rt.alloc());
    push(rt, &mut text, "{");
    for (name, usual) in &USUAL {
        if *name != member {
            write_member(rt, &mut text, name, usual);
        }
    }
    if !value.is_empty() {
        write_member(rt, &mut text, member, value);
    }
    let _comma = text.pop();
    push(rt, &mut text, "}");
    text
}

// The rule that a setup breaks.
fn broken_rule(rt: &(impl Abort + AllocGlobal), text: &str) -> Option<SetupRule> {
    match read_setup(rt.alloc(), text.as_bytes(), Seed::of(b"")).err() {
        None => None,
        Some(SetupFault::Rule(rule)) => Some(rule),
        Some(SetupFault::OutOfMemory) => panic!(rt; "memory"),
    }
}

fn check_rule(rt: &(impl Abort + AllocGlobal), text: &str, wanted: Option<SetupRule>) {
    assert_so(rt, broken_rule(rt, text) == wanted, text);
}

fn check_member(
    rt: &(impl Abort + AllocGlobal),
    member: &str,
    value: &str,
    wanted: Option<SetupRule>,
) {
    let text = text_with(rt, member, value);
    check_rule(rt, text.as_str(), wanted);
}

#[test]
fn first_broken_rules(rt: HostRuntime) {
    for (member, value, rule) in &CASES {
        check_member(&rt, member, value, *rule);
    }
    check_rule(&rt, "{\"kind\":", Some(S1));
}

fn check_times(rt: &impl Abort, setup: &Setup) {
    assert_so(rt, setup.start.get() == 10, "start");
    let time = setup.start_time.0;
    assert_so(rt, time == 1_714_557_600_000_000_000, "its time");
    assert_so(rt, setup.slack == 0, "slackNanos");
    assert_so(rt, setup.lag == 0, "lagNanos");
}

fn check_groups(rt: &impl Abort, setup: &Setup) {
    assert_so(rt, setup.until.is_none(), "until");
    assert_so(rt, !setup.authorize, "authorize");
    assert_so(rt, setup.bypass.len() == 1, "bypassGroups");
    assert_so(rt, setup.skip.len() == 1, "skipGroups");
    let group = setup.skip.iter().next().expect(rt, "a group");
    assert_text(rt, group.as_str(), "system:nodes", "skipGroups");
    assert_so(rt, setup.checkpoints.len() == 0, "checkpoints");
}

#[test]
fn usual_members(rt: HostRuntime) {
    let text = text_with(&rt, "", "");
    let setup = setup_of(&rt, text.as_str());
    check_times(&rt, &setup);
    check_groups(&rt, &setup);
    drop(setup);
}
