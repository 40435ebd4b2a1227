//! Logs, and what each of their events asks of the removals' places.

use crate::setups::{CHECKED, EMPTY};

/// A setup, the events of a log with a line each, and what is found of them, as `found` tells it. A line has the
/// seconds of the receipt and of the answer, and further members of the event.
pub struct Row {
    pub name: &'static str,
    pub setup: &'static str,
    pub log: &'static str,
    /// Where the one removal takes place, if there is one.
    pub place: u64,
    pub found: &'static str,
}

const ONE_OBJECT: &str =
    r#"{"kind":"PastSetup","version":1,"start":{"revision":"10","time":"2024-05-01T10:00:00Z"},"until":"2024-05-01T11:00:00Z",
    "policy":{"apiVersion":"audit.k8s.io/v1","kind":"Policy","rules":[{"level":"RequestResponse"}]},
    "resources":[{"group":"","version":"v1","resource":"configmaps","kind":"ConfigMap","listKind":"ConfigMapList","namespaced":true}],
    "snapshot":[
    {"group":"","resource":"configmaps","object":{"metadata":{"name":"a","namespace":"d","uid":"A","resourceVersion":"9"},"data":{"k":"x"}}}]}"#;

// Nobody may do anything, as there are no roles.
const AUTHORIZED: &str =
    r#"{"kind":"PastSetup","version":1,"start":{"revision":"10","time":"2024-05-01T10:00:00Z"},"until":"2024-05-01T11:00:00Z",
    "authorize":true,"lagNanos":5000000000,
    "policy":{"apiVersion":"audit.k8s.io/v1","kind":"Policy","rules":[{"level":"RequestResponse"}]},
    "resources":[{"group":"","version":"v1","resource":"configmaps","kind":"ConfigMap","listKind":"ConfigMapList","namespaced":true},
    {"group":"rbac.authorization.k8s.io","version":"v1","resource":"roles","kind":"Role","listKind":"RoleList","namespaced":true},
    {"group":"rbac.authorization.k8s.io","version":"v1","resource":"rolebindings","kind":"RoleBinding","listKind":"RoleBindingList","namespaced":true},
    {"group":"rbac.authorization.k8s.io","version":"v1","resource":"clusterroles","kind":"ClusterRole","listKind":"ClusterRoleList","namespaced":false},
    {"group":"rbac.authorization.k8s.io","version":"v1","resource":"clusterrolebindings","kind":"ClusterRoleBinding","listKind":"ClusterRoleBindingList","namespaced":false}],
    "snapshot":[]}"#;

pub static ROWS: [Row; 8] = [
    Row {
        name: "one removal for all readers",
        setup: EMPTY,
        log: r#"
01 02 "verb":"create","requestURI":"/api/v1/namespaces/d/configmaps","responseStatus":{"code":201},"requestObject":{"metadata":{"name":"a","namespace":"d"},"data":{"k":"x"}},"responseObject":{"metadata":{"name":"a","namespace":"d","uid":"A","resourceVersion":"14"},"data":{"k":"x"}}
03 20 "verb":"delete","requestURI":"/api/v1/namespaces/d/configmaps/a","responseStatus":{"code":200},"responseObject":{"kind":"Status","apiVersion":"v1","status":"Success","details":{"name":"a","kind":"configmaps","uid":"A"}}
05 06 "verb":"get","requestURI":"/api/v1/namespaces/d/configmaps/a","responseStatus":{"code":404},"responseObject":{"kind":"Status","apiVersion":"v1","status":"Failure","reason":"NotFound","details":{"name":"a","kind":"configmaps"},"code":404}
07 08 "verb":"create","requestURI":"/api/v1/namespaces/d/configmaps","responseStatus":{"code":201},"requestObject":{"metadata":{"name":"b","namespace":"d"},"data":{"k":"x"}},"responseObject":{"metadata":{"name":"b","namespace":"d","uid":"B","resourceVersion":"16"},"data":{"k":"x"}}
09 10 "verb":"get","requestURI":"/api/v1/namespaces/d/configmaps/a","responseStatus":{"code":200},"responseObject":{"metadata":{"name":"a","namespace":"d","uid":"A","resourceVersion":"14"},"data":{"k":"x"}}"#,
        place: 15,
        found: "None Some(Made(14)); None Some(Removed(15)); None 0 from 15 to 15 Some(At(15)); None Some(Made(16)); None 0 from 17 to 18446744073709551615 None; ",
    },
    Row {
        name: "a read from a cache, and one that may not be",
        setup: ONE_OBJECT,
        log: r#"
01 02 "verb":"update","requestURI":"/api/v1/namespaces/d/configmaps/a","responseStatus":{"code":200},"requestObject":{"metadata":{"name":"a","namespace":"d"},"data":{"k":"y"}},"responseObject":{"metadata":{"name":"a","namespace":"d","uid":"A","resourceVersion":"12"},"data":{"k":"y"}}
50 51 "verb":"get","requestURI":"/api/v1/namespaces/d/configmaps/a?resourceVersion=0","responseStatus":{"code":200},"responseObject":{"metadata":{"name":"a","namespace":"d","uid":"A","resourceVersion":"9"},"data":{"k":"x"}}
52 53 "verb":"get","requestURI":"/api/v1/namespaces/d/configmaps/a","responseStatus":{"code":200},"responseObject":{"metadata":{"name":"a","namespace":"d","uid":"A","resourceVersion":"9"},"data":{"k":"x"}}"#,
        place: 0,
        found: "None Some(Made(12)); None Some(At(10)); Some(U10) None; ",
    },
    Row {
        name: "conflicts before another write, and around it",
        setup: ONE_OBJECT,
        log: r#"
03 04 "verb":"update","requestURI":"/api/v1/namespaces/d/configmaps/a","responseStatus":{"code":409},"requestObject":{"metadata":{"name":"a","namespace":"d","resourceVersion":"9"},"data":{"k":"z"}},"responseObject":{"kind":"Status","apiVersion":"v1","status":"Failure","reason":"Conflict","details":{"name":"a","kind":"configmaps"},"code":409}
05 06 "verb":"update","requestURI":"/api/v1/namespaces/d/configmaps/a","responseStatus":{"code":200},"requestObject":{"metadata":{"name":"a","namespace":"d"},"data":{"k":"y"}},"responseObject":{"metadata":{"name":"a","namespace":"d","uid":"A","resourceVersion":"12"},"data":{"k":"y"}}
04 07 "verb":"update","requestURI":"/api/v1/namespaces/d/configmaps/a","responseStatus":{"code":409},"requestObject":{"metadata":{"name":"a","namespace":"d","resourceVersion":"9"},"data":{"k":"z"}},"responseObject":{"kind":"Status","apiVersion":"v1","status":"Failure","reason":"Conflict","details":{"name":"a","kind":"configmaps"},"code":409}"#,
        place: 0,
        found: "Some(U12) None; None Some(Made(12)); None Some(At(12)); ",
    },
    Row {
        name: "absence between two objects of one name",
        setup: EMPTY,
        log: r#"
01 02 "verb":"create","requestURI":"/api/v1/namespaces/d/configmaps","responseStatus":{"code":201},"requestObject":{"metadata":{"name":"a","namespace":"d"},"data":{"k":"x"}},"responseObject":{"metadata":{"name":"a","namespace":"d","uid":"A","resourceVersion":"14"},"data":{"k":"x"}}
03 08 "verb":"delete","requestURI":"/api/v1/namespaces/d/configmaps/a","responseStatus":{"code":200},"responseObject":{"kind":"Status","apiVersion":"v1","status":"Success","details":{"name":"a","kind":"configmaps","uid":"A"}}
09 10 "verb":"create","requestURI":"/api/v1/namespaces/d/configmaps","responseStatus":{"code":201},"requestObject":{"metadata":{"name":"a","namespace":"d"},"data":{"k":"x"}},"responseObject":{"metadata":{"name":"a","namespace":"d","uid":"E","resourceVersion":"20"},"data":{"k":"x"}}
04 12 "verb":"get","requestURI":"/api/v1/namespaces/d/configmaps/a","responseStatus":{"code":404},"responseObject":{"kind":"Status","apiVersion":"v1","status":"Failure","reason":"NotFound","details":{"name":"a","kind":"configmaps"},"code":404}
11 12 "verb":"get","requestURI":"/api/v1/namespaces/d/configmaps/a","responseStatus":{"code":404},"responseObject":{"kind":"Status","apiVersion":"v1","status":"Failure","reason":"NotFound","details":{"name":"a","kind":"configmaps"},"code":404}"#,
        place: 17,
        found: "None Some(Made(14)); None Some(Removed(17)); None Some(Made(20)); None Some(At(17)); Some(U11) None; ",
    },
    Row {
        name: "whole lists",
        setup: EMPTY,
        log: r#"
01 02 "verb":"create","requestURI":"/api/v1/namespaces/d/configmaps","responseStatus":{"code":201},"requestObject":{"metadata":{"name":"a","namespace":"d"},"data":{"k":"x"}},"responseObject":{"metadata":{"name":"a","namespace":"d","uid":"A","resourceVersion":"14"},"data":{"k":"x"}}
03 20 "verb":"delete","requestURI":"/api/v1/namespaces/d/configmaps/a","responseStatus":{"code":200},"responseObject":{"kind":"Status","apiVersion":"v1","status":"Success","details":{"name":"a","kind":"configmaps","uid":"A"}}
04 05 "verb":"list","requestURI":"/api/v1/namespaces/d/configmaps","responseStatus":{"code":200},"responseObject":{"kind":"ConfigMapList","apiVersion":"v1","metadata":{"resourceVersion":"16"},"items":[]}
06 07 "verb":"list","requestURI":"/api/v1/namespaces/d/configmaps","responseStatus":{"code":200},"responseObject":{"kind":"ConfigMapList","apiVersion":"v1","metadata":{"resourceVersion":"17"},"items":[{"metadata":{"name":"a","namespace":"d","uid":"A","resourceVersion":"14"},"data":{"k":"x"}}]}"#,
        place: 18,
        found: "None Some(Made(14)); None Some(Removed(18)); None 0 from 15 to 16 None; None 0 from 18 to 18446744073709551615 Some(At(17)); ",
    },
    Row {
        name: "checkpoints",
        setup: CHECKED,
        log: r#"
01 02 "verb":"create","requestURI":"/api/v1/namespaces/d/configmaps","responseStatus":{"code":201},"requestObject":{"metadata":{"name":"a","namespace":"d"},"data":{"k":"x"}},"responseObject":{"metadata":{"name":"a","namespace":"d","uid":"A","resourceVersion":"14"},"data":{"k":"x"}}
03 20 "verb":"delete","requestURI":"/api/v1/namespaces/d/configmaps/a","responseStatus":{"code":200},"responseObject":{"kind":"Status","apiVersion":"v1","status":"Success","details":{"name":"a","kind":"configmaps","uid":"A"}}"#,
        place: 21,
        found: "None Some(Made(14)); None Some(Removed(21)); None 0 from 15 to 16 None; None 0 from 21 to 18446744073709551615 Some(At(20)); ",
    },
    Row {
        name: "writes whose lines stand in the other order",
        setup: ONE_OBJECT,
        log: r#"
01 05 "verb":"patch","requestURI":"/api/v1/namespaces/d/configmaps/a","responseStatus":{"code":200},"requestObject":[{"op":"test","path":"/data/k","value":"y"},{"op":"replace","path":"/data/k","value":"z"}],"responseObject":{"metadata":{"name":"a","namespace":"d","uid":"A","resourceVersion":"14"},"data":{"k":"z"}}
02 06 "verb":"update","requestURI":"/api/v1/namespaces/d/configmaps/a","responseStatus":{"code":200},"requestObject":{"metadata":{"name":"a","namespace":"d"},"data":{"k":"y"}},"responseObject":{"metadata":{"name":"a","namespace":"d","uid":"A","resourceVersion":"12"},"data":{"k":"y"}}"#,
        place: 0,
        found: "None Some(Made(14)); None Some(Made(12)); ",
    },
    Row {
        name: "decisions",
        setup: AUTHORIZED,
        log: r#"
07 08 "verb":"get","requestURI":"/api/v1/namespaces/d/configmaps/a","responseStatus":{"code":404},"responseObject":{"kind":"Status","apiVersion":"v1","status":"Failure","reason":"NotFound","details":{"name":"a","kind":"configmaps"},"code":404},"annotations":{"authorization.k8s.io/decision":"allow"}
09 10 "verb":"get","requestURI":"/api/v1/namespaces/d/configmaps/a","responseStatus":{"code":403},"responseObject":{"kind":"Status","apiVersion":"v1","status":"Failure","reason":"Forbidden","details":{"name":"a","kind":"configmaps"},"code":403},"annotations":{"authorization.k8s.io/decision":"forbid"}"#,
        place: 0,
        found: "Some(U14) None; None Some(Nowhere); ",
    },
];
