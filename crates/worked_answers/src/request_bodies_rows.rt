use crate::given::{assert_so, event, setup_of, tree};
use audit_event::Event;
use base_types::json::Tree;
use request_bodies::is_body_right;
use setup_file::Setup;
use std::process::Abort;

// Configmaps, whose patches that are objects are merge patches and of which each field is asked; and pods, whose data
// the server may fill in, whose log is its own, and of whose status a subresource writes the phase.
const SETUP: &str =
    r#"{"kind":"PastSetup","version":1,"start":{"revision":"10","time":"2024-05-01T10:00:00Z"},
    "policy":{"apiVersion":"audit.k8s.io/v1","kind":"Policy","rules":[]},"snapshot":[],"resources":[
    {"group":"","version":"v1","resource":"configmaps","kind":"ConfigMap","listKind":"ConfigMapList",
        "namespaced":true,"objectPatch":"merge"},
    {"group":"","version":"v1","resource":"pods","kind":"Pod","listKind":"PodList","namespaced":true,
        "shapes":[{"path":"/data","class":"Defaulted"},{"path":"/log","class":"Owned"}],
        "subresources":[{"name":"status","effect":"same","shapes":[{"path":"/phase","class":"Asked"}]}]}]}"#;

const MAP: &str = "/api/v1/namespaces/d/configmaps/a";

const POD: &str = "/api/v1/namespaces/d/pods/a";

const STATUS: &str = "/api/v1/namespaces/d/pods/a/status";

const APPLY: &str = "/api/v1/namespaces/d/configmaps/a?fieldManager=m";

const NOTHING: &str = "null";

const ONE: &str = r#"{"data":{"k":"1"}}"#;

const TWO: &str = r#"{"data":{"k":"2"}}"#;

const BOTH: &str = r#"{"data":{"k":"1","l":"2"}}"#;

const LOGGED: &str = r#"{"data":{"k":"1"},"log":"x"}"#;

const OTHER_KIND: &str = r#"{"kind":"Scale","data":{"k":"2"}}"#;

const OTHER_VERSION: &str = r#"{"apiVersion":"v2","kind":"ConfigMap","data":{"k":"2"}}"#;

const TYPED: &str = r#"{"apiVersion":"v1","kind":"ConfigMap","data":{"k":"2"}}"#;

const SET_TWO: &str = r#"[{"op":"test","path":"/kind","value":"ConfigMap"},
    {"op":"replace","path":"/data/k","value":"2"}]"#;

const REFUSED: &str = r#"[{"op":"remove","path":"/data/z"}]"#;

const UNREAD: &str = r#"[{"op":"drop","path":"/metadata/managedFields"}]"#;

const MANAGED: &str = r#"[{"op":"copy","from":"/metadata/managedFields/0","path":"/data/k"}]"#;

const DELETED: &str =
    r#"{"metadata":{"deletionTimestamp":"2024-05-01T10:00:03Z","finalizers":["x/y"]},"data":{"k":"1"}}"#;

const PHASE: &str = r#"{"phase":"Ready","data":{"k":"2"}}"#;

const PHASED: &str = r#"{"phase":"Ready","data":{"k":"1"}}"#;

// The verb, the path and the body of a request, its code, the object before it and the one that is answered, and
// whether that is what was asked.
static BODIES: [((&str, &str, &str), u16, &str, &str, bool); 27] = [
    (("create", MAP, ONE), 201, NOTHING, ONE, true),
    (("create", MAP, ONE), 201, NOTHING, TWO, false),
    (("update", MAP, ONE), 200, TWO, ONE, true),
    (("update", MAP, ONE), 200, TWO, BOTH, false),
    (("update", POD, ONE), 200, TWO, BOTH, true),
    (("update", POD, ONE), 200, TWO, LOGGED, true),
    (("update", MAP, ONE), 200, TWO, LOGGED, false),
    (("update", STATUS, PHASE), 200, ONE, PHASED, true),
    (("update", STATUS, PHASE), 200, ONE, PHASE, false),
    (("update", MAP, OTHER_KIND), 200, ONE, ONE, true),
    (("update", MAP, OTHER_VERSION), 200, ONE, ONE, true),
    (("update", MAP, TYPED), 200, ONE, ONE, false),
    (("update", MAP, TYPED), 200, ONE, TWO, true),
    (("update", MAP, "1.5"), 200, ONE, TWO, true),
    (("patch", MAP, SET_TWO), 200, ONE, TWO, true),
    (("patch", MAP, SET_TWO), 200, ONE, ONE, false),
    (("patch", MAP, REFUSED), 200, ONE, ONE, false),
    (("patch", MAP, UNREAD), 200, ONE, ONE, false),
    (("patch", MAP, MANAGED), 200, ONE, ONE, true),
    (("patch", MAP, REFUSED), 201, ONE, ONE, true),
    (("patch", MAP, TWO), 200, LOGGED, TWO, false),
    (("patch", MAP, TWO), 200, ONE, TWO, true),
    (("patch", POD, TWO), 200, ONE, ONE, true),
    (("patch", APPLY, TYPED), 200, ONE, ONE, true),
    (("delete", MAP, "{}"), 200, ONE, DELETED, true),
    (("delete", MAP, "{}"), 200, TWO, DELETED, false),
    (("delete", MAP, NOTHING), 200, TWO, DELETED, true),
];

fn is_right(
    rt: &(impl Abort + AllocGlobal),
    setup: &Setup,
    event: &Event,
    before: &Tree,
    answered: &Tree,
) -> bool {
    let old = if before.is_null() { None } else { Some(before) };
    is_body_right(rt.alloc(), setup, event, answered, old).expect(rt, "memory")
}

// Whether the answer to a request is what was asked of the object before.
fn judged(
    rt: &(impl Abort + AllocGlobal),
    setup: &Setup,
    event: &Event,
    before: &str,
    answered: &str,
) -> bool {
    let before = tree(rt, before);
    let answered = tree(rt, answered);
    let right = is_right(rt, setup, event, &before, &answered);
    drop(answered);
    drop(before);
    right
}

fn judged_request(
    rt: &(impl Abort + AllocGlobal),
    setup: &Setup,
    asked: ((&str, &str, &str), u16),
    before: &str,
    answered: &str,
) -> bool {
    let (request, code) = asked;
    let event = event(rt, 1, request, ("10:00:01", "10:00:02"), (code, "null"));
    let right = judged(rt, setup, &event, before, answered);
    drop(event);
    right
}

#[test]
fn bodies_are_judged(rt: HostRuntime) {
    let setup = setup_of(&rt, SETUP);
    for (request, code, before, answered, right) in &BODIES {
        let asked = (*request, *code);
        let found = judged_request(&rt, &setup, asked, before, answered);
        assert_so(&rt, found == *right, before);
    }
    drop(setup);
}
