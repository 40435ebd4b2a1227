use crate::given::{assert_so, assert_text, event, setup_of, tree};
use answer_class::{Answer, class_of, conditions_of, listable};
use audit_event::Event;
use setup_file::Setup;
use std::process::Abort;

// Configmaps, whose patches that are objects are merge patches, and pods with two subresources. The log begins behind
// revision 10 at 10:00, and ends at 11:00.
const SETUP: &str =
    r#"{"kind":"PastSetup","version":1,"start":{"revision":"10","time":"2024-05-01T10:00:00Z"},
    "until":"2024-05-01T11:00:00Z","policy":{"apiVersion":"audit.k8s.io/v1","kind":"Policy","rules":[]},
    "snapshot":[],"resources":[
    {"group":"","version":"v1","resource":"configmaps","kind":"ConfigMap","listKind":"ConfigMapList",
        "namespaced":true,"objectPatch":"merge"},
    {"group":"","version":"v1","resource":"pods","kind":"Pod","listKind":"PodList","namespaced":true,
        "subresources":[{"name":"status","effect":"same"},{"name":"log","effect":"none"}]}]}"#;

const MAPS: &str = "/api/v1/namespaces/d/configmaps";

const MAP: &str = "/api/v1/namespaces/d/configmaps/a";

const POD: &str = "/api/v1/namespaces/d/pods/a";

const SECRET: &str = "/api/v1/namespaces/d/secrets/a";

const DRY: &str = "/api/v1/namespaces/d/configmaps?dryRun=All";

const WET: &str = "/api/v1/namespaces/d/configmaps?dryRun=";

const LOG: &str = "/api/v1/namespaces/d/pods/p/log";

const EXEC: &str = "/api/v1/namespaces/d/pods/p/exec";

const ELSEWHERE: &str = "/api/v2/namespaces/d/configmaps";

const ODD: &str = "/api/v1/namespaces/d/configmaps/a?resourceVersion=x";

const EXACT: &str = "/api/v1/namespaces/d/configmaps?resourceVersion=9";

const PAGE: &str = "/api/v1/namespaces/d/configmaps?continue=t";

const FIELD: &str = "/api/v1/namespaces/d/configmaps?fieldSelector=x%3D1";

const LABEL: &str = "/api/v1/namespaces/d/configmaps?labelSelector=app%3Dw";

const LABELS: &str = "/api/v1/namespaces/d/configmaps?labelSelector=app&labelSelector=web";

const NOTHING: &str = "null";

const ALL_DRY: &str = r#"{"dryRun":["All"]}"#;

const NONE_DRY: &str = r#"{"dryRun":[]}"#;

const OBJECT: &str =
    r#"{"metadata":{"name":"a","namespace":"d","uid":"A","resourceVersion":"11"}}"#;

const OLD: &str = r#"{"metadata":{"name":"a","namespace":"d","uid":"A","resourceVersion":"10"}}"#;

const ENDED: &str = r#"{"metadata":{"name":"a","namespace":"d","uid":"A","resourceVersion":"11",
    "deletionTimestamp":"2024-05-01T10:00:03Z","deletionGracePeriodSeconds":0}}"#;

const FINALIZING: &str =
    r#"{"metadata":{"name":"a","namespace":"d","uid":"A","resourceVersion":"11",
    "deletionTimestamp":"2024-05-01T10:00:03Z","finalizers":["x/y"]}}"#;

const SUCCESS: &str = r#"{"kind":"Status","status":"Success","details":{"name":"a","uid":"A"}}"#;

const NO_UID: &str = r#"{"kind":"Status","status":"Success","details":{"name":"a"}}"#;

const NOT_FOUND: &str =
    r#"{"kind":"Status","reason":"NotFound","details":{"name":"a","kind":"configmaps"}}"#;

const OTHER_KIND: &str =
    r#"{"kind":"Status","reason":"NotFound","details":{"name":"a","kind":"secrets"}}"#;

const EXISTS: &str = r#"{"kind":"Status","reason":"AlreadyExists","details":{"name":"a"}}"#;

const CONFLICT: &str = r#"{"kind":"Status","reason":"Conflict","details":{"name":"a"}}"#;

const PUT: &str = r#"{"metadata":{"name":"a","resourceVersion":"11"}}"#;

const NEW: &str = r#"{"metadata":{"name":"a"}}"#;

const OTHER: &str = r#"{"metadata":{"name":"b"}}"#;

const ODD_PUT: &str = r#"{"metadata":{"resourceVersion":"011","uid":""}}"#;

const OPTIONS: &str = r#"{"preconditions":{"resourceVersion":"11","uid":"A"}}"#;

const LIST: &str = r#"{"kind":"ConfigMapList","metadata":{"resourceVersion":"12"},"items":[]}"#;

const OLD_LIST: &str = r#"{"kind":"ConfigMapList","metadata":{"resourceVersion":"9"},"items":[]}"#;

const TABLE: &str = r#"{"kind":"Table","metadata":{"resourceVersion":"12"},"rows":[]}"#;

fn word(answer: &Answer) -> &'static str {
    match answer {
        Answer::Made { created: true, .. } => "created",
        Answer::Made { created: false, .. } => "made",
        Answer::Removed { .. } => "removed",
        Answer::Opaque { .. } => "opaque",
        Answer::Saw { .. } => "saw",
        Answer::SawNone { .. } => "none",
        Answer::SawSome { .. } => "some",
        Answer::SawOther { .. } => "other",
        Answer::Listed { whole: true, .. } => "whole",
        Answer::Listed { whole: false, .. } => "listed",
        Answer::Free => "free",
        Answer::Aside => "aside",
    }
}

const WITHIN: (&str, &str) = ("10:00:01", "10:00:02");

const EARLY: (&str, &str) = ("09:59:59", "10:00:02");

const BEFORE: (&str, &str) = ("09:59:58", "09:59:59");

const LATE: (&str, &str) = ("10:59:59", "11:00:01");

// The verb, the path and the body of a request, when it was received and answered, with which code and body, and the
// class of that: each class beside what just misses it.
static CLASSES: [((&str, &str, &str), (&str, &str), u16, &str, &str); 50] = [
    (("get", SECRET, NOTHING), WITHIN, 200, OBJECT, "aside"),
    (("create", DRY, NEW), WITHIN, 201, OBJECT, "free"),
    (("create", WET, NEW), WITHIN, 201, OBJECT, "created"),
    (("delete", MAP, ALL_DRY), WITHIN, 200, SUCCESS, "free"),
    (("delete", MAP, NONE_DRY), WITHIN, 200, SUCCESS, "removed"),
    (("watch", MAPS, NOTHING), WITHIN, 200, LIST, "free"),
    (("get", LOG, NOTHING), WITHIN, 200, NOTHING, "free"),
    (("get", EXEC, NOTHING), WITHIN, 200, NOTHING, "aside"),
    (("create", MAPS, NEW), BEFORE, 500, NOTHING, "aside"),
    (("create", MAPS, NEW), EARLY, 500, NOTHING, "opaque"),
    (("create", MAPS, NEW), WITHIN, 499, NOTHING, "free"),
    (("create", MAPS, NEW), LATE, 201, OBJECT, "opaque"),
    (("create", ELSEWHERE, NEW), WITHIN, 201, OBJECT, "opaque"),
    (
        ("deletecollection", MAPS, NOTHING),
        WITHIN,
        200,
        LIST,
        "opaque",
    ),
    (("patch", EXEC, NOTHING), WITHIN, 200, NOTHING, "opaque"),
    (("create", MAPS, NEW), WITHIN, 202, OBJECT, "made"),
    (("create", MAPS, NEW), EARLY, 201, OBJECT, "created"),
    (("create", MAPS, NEW), EARLY, 201, OLD, "aside"),
    (("create", MAPS, NEW), WITHIN, 203, OBJECT, "opaque"),
    (("update", MAP, PUT), WITHIN, 200, FINALIZING, "made"),
    (("update", MAP, PUT), WITHIN, 200, ENDED, "removed"),
    (("update", MAP, PUT), EARLY, 200, ENDED, "opaque"),
    (("delete", MAP, NOTHING), WITHIN, 200, FINALIZING, "made"),
    (("delete", MAP, NOTHING), WITHIN, 200, ENDED, "removed"),
    (("delete", MAP, NOTHING), WITHIN, 200, SUCCESS, "removed"),
    (("delete", MAP, NOTHING), EARLY, 200, SUCCESS, "opaque"),
    (("delete", MAP, NOTHING), WITHIN, 200, NO_UID, "opaque"),
    (("get", MAP, NOTHING), EARLY, 200, OBJECT, "aside"),
    (("get", MAP, NOTHING), LATE, 404, NOT_FOUND, "aside"),
    (("get", ODD, NOTHING), WITHIN, 200, OBJECT, "aside"),
    (("list", EXACT, NOTHING), WITHIN, 200, OLD_LIST, "aside"),
    (("list", PAGE, NOTHING), WITHIN, 200, OLD_LIST, "aside"),
    (("list", MAPS, NOTHING), WITHIN, 200, OLD_LIST, "whole"),
    (("get", MAP, NOTHING), WITHIN, 404, NOT_FOUND, "none"),
    (("get", MAP, NOTHING), WITHIN, 404, OTHER_KIND, "free"),
    (("create", MAPS, NEW), WITHIN, 409, EXISTS, "some"),
    (("create", MAPS, OTHER), WITHIN, 409, EXISTS, "free"),
    (("update", MAP, PUT), WITHIN, 409, CONFLICT, "other"),
    (("patch", MAP, PUT), WITHIN, 409, CONFLICT, "other"),
    (("patch", POD, PUT), WITHIN, 409, CONFLICT, "free"),
    (("update", MAP, NEW), WITHIN, 409, CONFLICT, "free"),
    (("get", MAP, NOTHING), WITHIN, 200, OBJECT, "saw"),
    (("get", MAP, NOTHING), WITHIN, 200, TABLE, "aside"),
    (("list", MAPS, NOTHING), WITHIN, 200, LIST, "whole"),
    (("list", LABEL, NOTHING), WITHIN, 200, LIST, "whole"),
    (("list", LABELS, NOTHING), WITHIN, 200, LIST, "listed"),
    (("list", FIELD, NOTHING), WITHIN, 200, LIST, "listed"),
    (("list", PAGE, NOTHING), WITHIN, 200, LIST, "listed"),
    (("list", MAPS, NOTHING), WITHIN, 200, TABLE, "aside"),
    (("list", MAPS, NOTHING), WITHIN, 403, NOTHING, "free"),
];

fn class_word(rt: &(impl Abort + AllocGlobal), setup: &Setup, event: &Event) -> &'static str {
    let answer = class_of(rt.alloc(), setup, event).expect(rt, "memory");
    let told = word(&answer);
    drop(answer);
    told
}

fn told(
    rt: &(impl Abort + AllocGlobal),
    setup: &Setup,
    request: (&str, &str, &str),
    times: (&str, &str),
    answer: (u16, &str),
) -> &'static str {
    let event = event(rt, 1, request, times, answer);
    let told = class_word(rt, setup, &event);
    drop(event);
    told
}

#[test]
fn each_class_is_told(rt: HostRuntime) {
    let setup = setup_of(&rt, SETUP);
    for (request, times, code, answer, class) in &CLASSES {
        let found = told(&rt, &setup, *request, *times, (*code, answer));
        assert_text(&rt, found, class, answer);
    }
    drop(setup);
}

// A request, the revision that it asks for, and whether it asks for a uid.
static CONDITIONS: [((&str, &str, &str), Option<u64>, bool); 7] = [
    (("update", MAP, PUT), Some(11), false),
    (("patch", MAP, PUT), Some(11), false),
    (("patch", POD, PUT), None, false),
    (("create", MAP, PUT), None, false),
    (("update", MAP, ODD_PUT), None, false),
    (("delete", MAP, OPTIONS), Some(11), true),
    (("update", MAP, OPTIONS), None, false),
];

// The revision that an event's request asks for, and whether it asks for a uid.
fn asked(rt: &(impl Abort + AllocGlobal), setup: &Setup, event: &Event) -> (Option<u64>, bool) {
    let found = conditions_of(rt.alloc(), setup, event).expect(rt, "memory");
    let revision = found.revision.map(|revision| revision.get());
    let has_uid = found.uid.is_some();
    drop(found);
    (revision, has_uid)
}

fn asked_by(
    rt: &(impl Abort + AllocGlobal),
    setup: &Setup,
    request: (&str, &str, &str),
) -> (Option<u64>, bool) {
    let event = event(rt, 1, request, WITHIN, (200, NOTHING));
    let asked = asked(rt, setup, &event);
    drop(event);
    asked
}

/// The conditions of an update, of a merge patch and of a delete, and of no other request.
#[test]
fn conditions_are_read(rt: HostRuntime) {
    let setup = setup_of(&rt, SETUP);
    for (request, revision, has_uid) in &CONDITIONS {
        let found = asked_by(&rt, &setup, *request);
        assert_so(&rt, found == (*revision, *has_uid), request.1);
    }
    drop(setup);
}

// An object, and whether it has the label `app=w`.
static LABELLED: [(&str, bool); 3] = [
    (r#"{"metadata":{"labels":{"app":"w"}}}"#, true),
    (r#"{"metadata":{"labels":{"app":"v"}}}"#, false),
    (r#"{"metadata":{"annotations":{"app":"w"}}}"#, false),
];

// The answer to a list with the selector `app=w`.
fn selected_list(rt: &(impl Abort + AllocGlobal)) -> Answer {
    let event = event(rt, 1, ("list", LABEL, NOTHING), WITHIN, (200, LIST));
    let setup = setup_of(rt, SETUP);
    let answer = class_of(rt.alloc(), &setup, &event);
    drop(setup);
    drop(event);
    answer.expect(rt, "memory")
}

fn is_selected(rt: &(impl Abort + AllocGlobal), answer: &Answer, text: &str) -> bool {
    let tree = tree(rt, text);
    let is_listed = listable(answer, &tree);
    drop(tree);
    is_listed
}

/// The objects of a list with a selector.
#[test]
fn labels_are_selected(rt: HostRuntime) {
    let answer = selected_list(&rt);
    for (text, is_listed) in &LABELLED {
        assert_so(&rt, is_selected(&rt, &answer, text) == *is_listed, text);
    }
    drop(answer);
}
