//! Logs, and what is found of them.

use crate::setups::{CHECKED, EMPTY};

/// A setup, the events of a log with a line each, and what is found of them, as `found` tells it. A line has the
/// seconds of the receipt and of the answer, and further members of the event.
pub struct Row {
    pub name: &'static str,
    pub setup: &'static str,
    pub log: &'static str,
    pub found: &'static str,
}

const TWO_OBJECTS: &str =
    r#"{"kind":"PastSetup","version":1,"start":{"revision":"10","time":"2024-05-01T10:00:00Z"},"until":"2024-05-01T11:00:00Z",
    "policy":{"apiVersion":"audit.k8s.io/v1","kind":"Policy","rules":[{"level":"RequestResponse"}]},
    "resources":[{"group":"","version":"v1","resource":"configmaps","kind":"ConfigMap","listKind":"ConfigMapList","namespaced":true,
    "objectPatch":"merge"}],"snapshot":[
    {"group":"","resource":"configmaps","object":{"metadata":{"name":"a","namespace":"d","uid":"A","resourceVersion":"9"},"data":{"k":"x"}}},
    {"group":"","resource":"configmaps","object":{"metadata":{"name":"b","namespace":"d","uid":"B","resourceVersion":"8"},"data":{"k":"y"}}}]}"#;

const POD: &str =
    r#"{"kind":"PastSetup","version":1,"start":{"revision":"10","time":"2024-05-01T10:00:00Z"},"until":"2024-05-01T11:00:00Z",
    "policy":{"apiVersion":"audit.k8s.io/v1","kind":"Policy","rules":[{"level":"RequestResponse"}]},
    "resources":[{"group":"","version":"v1","resource":"pods","kind":"Pod","listKind":"PodList","namespaced":true,
    "subresources":[{"name":"status","effect":"same","shapes":[{"path":"/status","class":"Asked"}]}]}],"snapshot":[
    {"group":"","resource":"pods","object":{"metadata":{"name":"p","namespace":"d","uid":"P","resourceVersion":"9"},"status":{"phase":"new"}}}]}"#;

// A server may fill in what a pod's specification leaves open, and owns its status.
const FILLED: &str =
    r#"{"kind":"PastSetup","version":1,"start":{"revision":"10","time":"2024-05-01T10:00:00Z"},"until":"2024-05-01T11:00:00Z",
    "policy":{"apiVersion":"audit.k8s.io/v1","kind":"Policy","rules":[{"level":"RequestResponse"}]},
    "resources":[{"group":"","version":"v1","resource":"pods","kind":"Pod","listKind":"PodList","namespaced":true,
    "shapes":[{"path":"/spec","class":"Defaulted"},{"path":"/status","class":"Owned"}]}],"snapshot":[]}"#;

/// A removal that is seen before its answer.
pub const SEEN_EARLY: &str = r#"
01 02 "verb":"create","requestURI":"/api/v1/namespaces/d/configmaps","responseStatus":{"code":201},"requestObject":{"kind":"ConfigMap","apiVersion":"v1","metadata":{"name":"a","namespace":"d"},"data":{"k":"x"}},"responseObject":{"metadata":{"name":"a","namespace":"d","uid":"A","resourceVersion":"14"},"data":{"k":"x"}}
03 08 "verb":"delete","requestURI":"/api/v1/namespaces/d/configmaps/a","responseStatus":{"code":200},"responseObject":{"kind":"Status","apiVersion":"v1","status":"Success","details":{"name":"a","kind":"configmaps","uid":"A"}}
04 06 "verb":"get","requestURI":"/api/v1/namespaces/d/configmaps/a","responseStatus":{"code":200},"responseObject":{"metadata":{"name":"a","namespace":"d","uid":"A","resourceVersion":"14"},"data":{"k":"x"}}
05 07 "verb":"get","requestURI":"/api/v1/namespaces/d/configmaps/a","responseStatus":{"code":404},"responseObject":{"kind":"Status","apiVersion":"v1","status":"Failure","reason":"NotFound"}"#;

pub static ROWS: [Row; 14] = [
    Row {
        name: "two writers of one revision",
        setup: TWO_OBJECTS,
        log: r#"
01 02 "verb":"update","requestURI":"/api/v1/namespaces/d/configmaps/b","responseStatus":{"code":200},"requestObject":{"metadata":{"name":"b","namespace":"d","resourceVersion":"8"},"data":{"k":"z"}},"responseObject":{"metadata":{"name":"b","namespace":"d","uid":"B","resourceVersion":"12"},"data":{"k":"z"}}
03 04 "verb":"update","requestURI":"/api/v1/namespaces/d/configmaps/a","responseStatus":{"code":200},"requestObject":{"metadata":{"name":"a","namespace":"d","resourceVersion":"9"},"data":{"k":"w"}},"responseObject":{"metadata":{"name":"a","namespace":"d","uid":"A","resourceVersion":"12"},"data":{"k":"w"}}"#,
        found: "8 Snapshot []; 9 Snapshot []; 12 Event(0) [0]; event 0 at 10.. None; event 1 at 12.. Some(U3); ",
    },
    Row {
        name: "an update that changes nothing",
        setup: TWO_OBJECTS,
        log: r#"
01 02 "verb":"update","requestURI":"/api/v1/namespaces/d/configmaps/a","responseStatus":{"code":200},"requestObject":{"metadata":{"name":"a","namespace":"d"},"data":{"k":"y"}},"responseObject":{"metadata":{"name":"a","namespace":"d","uid":"A","resourceVersion":"14"},"data":{"k":"y"}}
01 03 "verb":"update","requestURI":"/api/v1/namespaces/d/configmaps/a","responseStatus":{"code":200},"requestObject":{"metadata":{"name":"a","namespace":"d"},"data":{"k":"y"}},"responseObject":{"metadata":{"name":"a","namespace":"d","uid":"A","resourceVersion":"14"},"data":{"k":"y"}}"#,
        found: "8 Snapshot []; 9 Snapshot []; 14 Event(0) [0, 1]; event 0 at 10.. None; event 1 at 10.. None; ",
    },
    Row {
        name: "an update of another revision",
        setup: TWO_OBJECTS,
        log: r#"
01 02 "verb":"update","requestURI":"/api/v1/namespaces/d/configmaps/a","responseStatus":{"code":200},"requestObject":{"metadata":{"name":"a","namespace":"d","resourceVersion":"9"},"data":{"k":"y"}},"responseObject":{"metadata":{"name":"a","namespace":"d","uid":"A","resourceVersion":"14"},"data":{"k":"y"}}
01 03 "verb":"update","requestURI":"/api/v1/namespaces/d/configmaps/a","responseStatus":{"code":200},"requestObject":{"metadata":{"name":"a","namespace":"d","resourceVersion":"9"},"data":{"k":"y"}},"responseObject":{"metadata":{"name":"a","namespace":"d","uid":"A","resourceVersion":"14"},"data":{"k":"y"}}"#,
        found: "8 Snapshot []; 9 Snapshot []; 14 Event(0) [0, 1]; event 0 at 10.. None; event 1 at 10.. Some(U7); ",
    },
    Row {
        name: "one removal for all readers",
        setup: EMPTY,
        log: r#"
01 02 "verb":"create","requestURI":"/api/v1/namespaces/d/configmaps","responseStatus":{"code":201},"requestObject":{"metadata":{"name":"a","namespace":"d"},"data":{"k":"x"}},"responseObject":{"metadata":{"name":"a","namespace":"d","uid":"A","resourceVersion":"14"},"data":{"k":"x"}}
03 20 "verb":"delete","requestURI":"/api/v1/namespaces/d/configmaps/a","responseStatus":{"code":200},"responseObject":{"kind":"Status","apiVersion":"v1","status":"Success","details":{"name":"a","kind":"configmaps","uid":"A"}}
05 06 "verb":"get","requestURI":"/api/v1/namespaces/d/configmaps/a","responseStatus":{"code":404},"responseObject":{"kind":"Status","apiVersion":"v1","status":"Failure","reason":"NotFound"}
07 08 "verb":"create","requestURI":"/api/v1/namespaces/d/configmaps","responseStatus":{"code":201},"requestObject":{"metadata":{"name":"b","namespace":"d"},"data":{"k":"x"}},"responseObject":{"metadata":{"name":"b","namespace":"d","uid":"B","resourceVersion":"16"},"data":{"k":"x"}}
09 10 "verb":"list","requestURI":"/api/v1/namespaces/d/configmaps","responseStatus":{"code":200},"responseObject":{"kind":"ConfigMapList","apiVersion":"v1","metadata":{"resourceVersion":"16"},"items":[]}"#,
        found: "14 Event(0) [0]; 16 Event(3) [3]; removal 1 at 15..; event 0 at 10..15 None; event 1 at 14.. None; \
            event 2 at 14..15 None; event 3 at 14.. None; event 4 at 16.. None; ",
    },
    Row {
        name: "a removal before the next object",
        setup: EMPTY,
        log: r#"
01 02 "verb":"create","requestURI":"/api/v1/namespaces/d/configmaps","responseStatus":{"code":201},"requestObject":{"metadata":{"name":"a","namespace":"d"},"data":{"k":"x"}},"responseObject":{"metadata":{"name":"a","namespace":"d","uid":"A","resourceVersion":"14"},"data":{"k":"x"}}
03 08 "verb":"delete","requestURI":"/api/v1/namespaces/d/configmaps/a","responseStatus":{"code":200},"responseObject":{"kind":"Status","apiVersion":"v1","status":"Success","details":{"name":"a","kind":"configmaps","uid":"A"}}
07 10 "verb":"create","requestURI":"/api/v1/namespaces/d/configmaps","responseStatus":{"code":201},"requestObject":{"metadata":{"name":"a","namespace":"d"},"data":{"k":"x"}},"responseObject":{"metadata":{"name":"a","namespace":"d","uid":"E","resourceVersion":"17"},"data":{"k":"x"}}"#,
        found: "14 Event(0) [0]; 17 Event(2) [2]; removal 1 at 15..16; event 0 at 10..16 None; event 1 at 14.. None; event 2 at 14.. None; ",
    },
    Row {
        name: "a removal without a place",
        setup: EMPTY,
        log: r#"
01 02 "verb":"create","requestURI":"/api/v1/namespaces/d/configmaps","responseStatus":{"code":201},"requestObject":{"metadata":{"name":"a","namespace":"d"},"data":{"k":"x"}},"responseObject":{"metadata":{"name":"a","namespace":"d","uid":"A","resourceVersion":"20"},"data":{"k":"x"}}
03 04 "verb":"delete","requestURI":"/api/v1/namespaces/d/configmaps/a","responseStatus":{"code":200},"responseObject":{"kind":"Status","apiVersion":"v1","status":"Success","details":{"name":"a","kind":"configmaps","uid":"A"}}
05 06 "verb":"create","requestURI":"/api/v1/namespaces/d/configmaps","responseStatus":{"code":201},"requestObject":{"metadata":{"name":"a","namespace":"d"},"data":{"k":"x"}},"responseObject":{"metadata":{"name":"a","namespace":"d","uid":"E","resourceVersion":"21"},"data":{"k":"x"}}"#,
        found: "20 Event(0) [0]; 21 Event(2) [2]; event 0 at 10..20 None; event 1 at 20..20 None; event 2 at 20.. Some(U4); ",
    },
    Row {
        name: "reads in each mode",
        setup: EMPTY,
        log: r#"
01 02 "verb":"create","requestURI":"/api/v1/namespaces/d/configmaps","responseStatus":{"code":201},"requestObject":{"metadata":{"name":"a","namespace":"d"},"data":{"k":"x"}},"responseObject":{"metadata":{"name":"a","namespace":"d","uid":"A","resourceVersion":"11"},"data":{"k":"x"}}
03 04 "verb":"create","requestURI":"/api/v1/namespaces/d/configmaps","responseStatus":{"code":201},"requestObject":{"metadata":{"name":"b","namespace":"d"},"data":{"k":"x"}},"responseObject":{"metadata":{"name":"b","namespace":"d","uid":"B","resourceVersion":"13"},"data":{"k":"x"}}
05 06 "verb":"get","requestURI":"/api/v1/namespaces/d/configmaps/c?resourceVersion=0","responseStatus":{"code":404},"responseObject":{"kind":"Status","apiVersion":"v1","status":"Failure","reason":"NotFound"}
05 06 "verb":"get","requestURI":"/api/v1/namespaces/d/configmaps/c?resourceVersion=12","responseStatus":{"code":404},"responseObject":{"kind":"Status","apiVersion":"v1","status":"Failure","reason":"NotFound"}
05 06 "verb":"list","requestURI":"/api/v1/namespaces/d/configmaps?resourceVersion=11&resourceVersionMatch=Exact","responseStatus":{"code":200},"responseObject":{"kind":"ConfigMapList","apiVersion":"v1","metadata":{"resourceVersion":"11"},"items":[]}
05 06 "verb":"list","requestURI":"/api/v1/namespaces/d/configmaps?resourceVersion=9&resourceVersionMatch=Exact","responseStatus":{"code":200},"responseObject":{"kind":"ConfigMapList","apiVersion":"v1","metadata":{"resourceVersion":"9"},"items":[]}
05 06 "verb":"list","requestURI":"/api/v1/namespaces/d/configmaps?resourceVersion=15&resourceVersionMatch=Exact","responseStatus":{"code":200},"responseObject":{"kind":"ConfigMapList","apiVersion":"v1","metadata":{"resourceVersion":"15"},"items":[]}
07 08 "verb":"create","requestURI":"/api/v1/namespaces/d/configmaps","responseStatus":{"code":201},"requestObject":{"metadata":{"name":"c","namespace":"d"},"data":{"k":"x"}},"responseObject":{"metadata":{"name":"c","namespace":"d","uid":"C","resourceVersion":"14"},"data":{"k":"x"}}"#,
        found: "11 Event(0) [0]; 13 Event(1) [1]; 14 Event(7) [7]; event 0 at 10..12 None; event 1 at 11..13 None; event 2 at 10..13 None; \
            event 3 at 12..13 None; event 4 at 11..11 None; event 5 at 1..0 None; event 6 at 1..0 None; event 7 at 13.. None; ",
    },
    Row {
        name: "a binding hides a write",
        setup: POD,
        log: r#"
01 02 "verb":"create","requestURI":"/api/v1/namespaces/d/pods/p/binding","responseStatus":{"code":201},"requestObject":{"metadata":{"name":"p","namespace":"d"},"target":{"kind":"Node","name":"n"}},"responseObject":{"kind":"Status","apiVersion":"v1","status":"Success"}
03 04 "verb":"get","requestURI":"/api/v1/namespaces/d/pods/p","responseStatus":{"code":200},"responseObject":{"metadata":{"name":"p","namespace":"d","uid":"P","resourceVersion":"12"},"status":{"phase":"odd"}}
05 06 "verb":"update","requestURI":"/api/v1/namespaces/d/pods/p/status","responseStatus":{"code":200},"requestObject":{"metadata":{"name":"p","namespace":"d","uid":"P","resourceVersion":"12"},"status":{"phase":"run"}},"responseObject":{"metadata":{"name":"p","namespace":"d","uid":"P","resourceVersion":"15"},"status":{"phase":"run"}}"#,
        found: "9 Snapshot []; 15 Event(2) [2]; event 0 at 10..14 None; event 1 at 10..14 None; event 2 at 10.. None; ",
    },
    Row {
        name: "JSON Patches, one with a test that fails",
        setup: EMPTY,
        log: r#"
01 02 "verb":"create","requestURI":"/api/v1/namespaces/d/configmaps","responseStatus":{"code":201},"requestObject":{"metadata":{"name":"a","namespace":"d"},"data":{"k":"x"}},"responseObject":{"metadata":{"name":"a","namespace":"d","uid":"A","resourceVersion":"11"},"data":{"k":"x"}}
03 04 "verb":"patch","requestURI":"/api/v1/namespaces/d/configmaps/a","responseStatus":{"code":200},"requestObject":[{"op":"test","path":"/data/k","value":"x"},{"op":"replace","path":"/data/k","value":"y"}],"responseObject":{"metadata":{"name":"a","namespace":"d","uid":"A","resourceVersion":"12"},"data":{"k":"y"}}
05 06 "verb":"patch","requestURI":"/api/v1/namespaces/d/configmaps/a","responseStatus":{"code":200},"requestObject":[{"op":"test","path":"/data/k","value":"x"},{"op":"replace","path":"/data/k","value":"z"}],"responseObject":{"metadata":{"name":"a","namespace":"d","uid":"A","resourceVersion":"13"},"data":{"k":"z"}}"#,
        found: "11 Event(0) [0]; 12 Event(1) [1]; 13 Event(2) [2]; event 0 at 10..11 None; event 1 at 11..12 None; event 2 at 12.. Some(U8); ",
    },
    Row {
        name: "merge patches, one of which kept what it drops",
        setup: TWO_OBJECTS,
        log: r#"
01 02 "verb":"patch","requestURI":"/api/v1/namespaces/d/configmaps/a","responseStatus":{"code":200},"requestObject":{"data":{"k":null,"j":"y"}},"responseObject":{"metadata":{"name":"a","namespace":"d","uid":"A","resourceVersion":"12"},"data":{"j":"y"}}
03 04 "verb":"patch","requestURI":"/api/v1/namespaces/d/configmaps/b","responseStatus":{"code":200},"requestObject":{"data":{"k":null,"j":"y"}},"responseObject":{"metadata":{"name":"b","namespace":"d","uid":"B","resourceVersion":"13"},"data":{"k":"y","j":"y"}}"#,
        found: "8 Snapshot []; 9 Snapshot []; 12 Event(0) [0]; 13 Event(1) [1]; event 0 at 10..12 None; event 1 at 12.. Some(U8); ",
    },
    Row {
        name: "finalizers",
        setup: EMPTY,
        log: r#"
01 02 "verb":"create","requestURI":"/api/v1/namespaces/d/configmaps","responseStatus":{"code":201},"requestObject":{"metadata":{"name":"f","namespace":"d","finalizers":["x/y"]},"data":{"k":"x"}},"responseObject":{"metadata":{"name":"f","namespace":"d","uid":"F","resourceVersion":"33","finalizers":["x/y"]},"data":{"k":"x"}}
03 04 "verb":"delete","requestURI":"/api/v1/namespaces/d/configmaps/f","responseStatus":{"code":200},"responseObject":{"metadata":{"name":"f","namespace":"d","uid":"F","resourceVersion":"34","finalizers":["x/y"],"deletionTimestamp":"2024-05-01T10:00:03Z","deletionGracePeriodSeconds":0},"data":{"k":"x"}}
05 06 "verb":"update","requestURI":"/api/v1/namespaces/d/configmaps/f","responseStatus":{"code":200},"requestObject":{"metadata":{"name":"f","namespace":"d","uid":"F","resourceVersion":"34","deletionTimestamp":"2024-05-01T10:00:03Z","deletionGracePeriodSeconds":0},"data":{"k":"x"}},"responseObject":{"metadata":{"name":"f","namespace":"d","uid":"F","resourceVersion":"34","deletionTimestamp":"2024-05-01T10:00:03Z","deletionGracePeriodSeconds":0},"data":{"k":"x"}}"#,
        found: "33 Event(0) [0]; 34 Event(1) [1]; removal 2 at 35..; event 0 at 10..33 None; event 1 at 33.. None; event 2 at 34.. None; ",
    },
    Row {
        name: "fields that a server fills in, and one that it changes",
        setup: FILLED,
        log: r#"
01 02 "verb":"create","requestURI":"/api/v1/namespaces/d/pods","responseStatus":{"code":201},"requestObject":{"metadata":{"name":"q","namespace":"d"},"spec":{"containers":[{"name":"c","image":"i"}]}},"responseObject":{"metadata":{"name":"q","namespace":"d","uid":"Q","resourceVersion":"12"},"spec":{"containers":[{"name":"c","image":"i","imagePullPolicy":"Always"}],"restartPolicy":"Always"},"status":{"phase":"Pending"}}
03 04 "verb":"create","requestURI":"/api/v1/namespaces/d/pods","responseStatus":{"code":201},"requestObject":{"metadata":{"name":"r","namespace":"d"},"spec":{"containers":[{"name":"c","image":"i"}]}},"responseObject":{"metadata":{"name":"r","namespace":"d","uid":"R","resourceVersion":"13"},"spec":{"containers":[{"name":"c","image":"j"}]},"status":{"phase":"Pending"}}"#,
        found: "12 Event(0) [0]; 13 Event(1) [1]; event 0 at 10..12 None; event 1 at 12.. Some(U8); ",
    },
    Row {
        name: "a revision that an unseen write made",
        setup: TWO_OBJECTS,
        log: r#"
01 02 "verb":"update","requestURI":"/api/v1/namespaces/d/configmaps/a","responseStatus":{"code":200},"requestObject":{"metadata":{"name":"a","namespace":"d"},"data":{"k":"y"}},"responseObject":{"metadata":{"name":"a","namespace":"d","uid":"A","resourceVersion":"12"},"data":{"k":"y"}}
03 08 "verb":"patch","requestURI":"/api/v1/namespaces/d/configmaps/a","responseStatus":{"code":504},"requestObject":{"data":{"k":"z"}}
04 07 "verb":"update","requestURI":"/api/v1/namespaces/d/configmaps/a","responseStatus":{"code":200},"requestObject":{"metadata":{"name":"a","namespace":"d"},"data":{"k":"z"}},"responseObject":{"metadata":{"name":"a","namespace":"d","uid":"E","resourceVersion":"13"},"data":{"k":"z"}}"#,
        found: "8 Snapshot []; 9 Snapshot []; 12 Event(0) [0]; 13 Unknown [2]; event 0 at 10..12 None; event 1 at 12.. None; \
            event 2 at 12.. None; ",
    },
    Row {
        name: "checkpoints",
        setup: CHECKED,
        log: SEEN_EARLY,
        found: "14 Event(0) [0]; removal 1 at 15..; event 0 at 10.. None; event 1 at 14.. None; event 2 at 14.. None; event 3 at 14.. None; \
            event 4 at 16..16 None; event 5 at 20..20 None; ",
    },
];
