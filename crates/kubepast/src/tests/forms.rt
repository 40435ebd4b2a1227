use crate::tests::texts::{halves, put};
use std::process::Abort;

// Each line has a name and its form: bodies, members of an event, and resources. A word's fields stand in the places of
// the digits.
const FORMS: &str =
    r#"new {"kind":"ConfigMap","apiVersion":"v1","metadata":{"name":"①","namespace":"d"③},"data":{"k":"②"}}
put {"kind":"ConfigMap","apiVersion":"v1","metadata":{"name":"①","namespace":"d","resourceVersion":"②"},"data":{"k":"③"}}
cm {"kind":"ConfigMap","apiVersion":"v1","metadata":{"name":"①","namespace":"d","uid":"②","resourceVersion":"③"⑤},"data":{"k":"④"}}
list {"kind":"ConfigMapList","apiVersion":"v1","metadata":{"resourceVersion":"①"②},"items":[
ok {"kind":"Status","apiVersion":"v1","status":"Success","details":{"name":"①","kind":"configmaps","uid":"②"}}
no {"kind":"Status","apiVersion":"v1","status":"Failure","reason":"②","details":{"name":"①","kind":"configmaps"},"code":③}
pod {"kind":"Pod","apiVersion":"v1","metadata":{"name":"p","namespace":"d","uid":"P","resourceVersion":"①"},"status":{"phase":"②"}}
allow "annotations":{"authorization.k8s.io/decision":"allow"}
forbid "annotations":{"authorization.k8s.io/decision":"forbid"}
admin "user":{"username":"admin","groups":["system:masters"]}
kubelet "user":{"username":"system:node:n","groups":["system:nodes"]}
pods {"group":"","version":"v1","resource":"pods","kind":"Pod","listKind":"PodList","namespaced":true,"subresources":[{"name":"status","effect":"same","shapes":[{"path":"/status","class":"Asked"}]}]}
filled-pods {"group":"","version":"v1","resource":"pods","kind":"Pod","listKind":"PodList","namespaced":true,"shapes":[{"path":"/spec","class":"Defaulted"},{"path":"/status","class":"Owned"}]}
rules {"group":"rbac.authorization.k8s.io","version":"v1","resource":"①","kind":"②","listKind":"②List","namespaced":③}
role {"kind":"Role","apiVersion":"rbac.authorization.k8s.io/v1","metadata":{"name":"r","namespace":"d","uid":"RR","resourceVersion":"3"},"rules":[{"apiGroups":[""],"resources":["configmaps"],"verbs":["get"]}]}
binding {"kind":"RoleBinding","apiVersion":"rbac.authorization.k8s.io/v1","metadata":{"name":"①","namespace":"d"②},"subjects":[{"kind":"User","name":"③"}],"roleRef":{"kind":"Role","name":"r"}}"#;

fn forms() -> &'static str {
    FORMS
}

// Each is spelled by three bytes.
const DIGITS: &str = "①②③④⑤";

// An unknown name has a form that is no JSON, and so is no text that it stands in.
fn form_of(name: &str) -> &'static str {
    for line in forms().lines() {
        let (word, form) = halves(line, ' ');
        if word == name {
            return form;
        }
    }
    "?"
}

// A form with its fields: `NAME|FIELD|FIELD`. A field that isn't given is empty.
fn put_form(rt: &impl Abort, out: &mut String, word: &str) {
    let (name, fields) = halves(word, '|');
    for letter in form_of(name).chars() {
        match DIGITS.find(letter) {
            Some(at) => put(rt, out, fields.split('|').nth(at / 3).unwrap_or("")),
            None => out.push(letter).expect(rt, "memory"),
        }
    }
}

/// Puts a comma behind an earlier item.
pub fn put_comma(rt: &impl Abort, out: &mut String) {
    if !out.as_str().ends_with('[') {
        put(rt, out, ",");
    }
}

// A list with its items: `list|REVISION+ITEM+ITEM`.
fn put_list(rt: &impl Abort, out: &mut String, head: &str, items: &str) {
    put_form(rt, out, head);
    for item in items.split('+') {
        if !item.is_empty() {
            put_comma(rt, out);
            put_form(rt, out, item);
        }
    }
    put(rt, out, "]}");
}

/// Puts a word of a row in full. JSON stands for itself.
pub fn put_spelled(rt: &impl Abort, out: &mut String, word: &str) {
    if word.starts_with('{') || word.starts_with('[') || word.starts_with('"') {
        put(rt, out, word);
        return;
    }
    match word.split_once('+') {
        Some((head, items)) => put_list(rt, out, head, items),
        None => put_form(rt, out, word),
    }
}

// What stands before and behind each word of an event.
static WORDS: [(&str, &str); 8] = [
    (
        r#""level":"RequestResponse","stage":"ResponseComplete","user":{"username":"u"},"auditID":""#,
        "\"",
    ),
    (",\"verb\":\"", "\""),
    (",\"requestURI\":\"", "\""),
    (",\"requestReceivedTimestamp\":\"2024-05-01T10:00:", "Z\""),
    (",\"stageTimestamp\":\"2024-05-01T10:00:", "Z\""),
    (",\"responseStatus\":{\"metadata\":{},\"code\":", "}"),
    (",\"requestObject\":", ""),
    (",\"responseObject\":", ""),
];

// The first six words stand for themselves; the third is a path behind that of the namespace, or a whole one.
fn put_word(rt: &impl Abort, out: &mut String, at: usize, word: &str) {
    if at > 5 {
        put_spelled(rt, out, word);
        return;
    }
    if at == 2 && !word.starts_with('/') {
        put(rt, out, "/api/v1/namespaces/d/");
    }
    put(rt, out, word);
}

/// Puts the members of an event: `AUDITID VERB PATH FROM UNTIL CODE REQUEST ANSWER`, of which `-` is none, and further
/// members, which come last and count in place of earlier ones of their names.
pub fn put_event(rt: &impl Abort, out: &mut String, line: &str) {
    for (at, word) in line.split(' ').enumerate() {
        if word != "-" {
            let (before, behind) = match WORDS.get(at) {
                Some(both) => *both,
                None => (",", ""),
            };
            put(rt, out, before);
            put_word(rt, out, at, word);
            put(rt, out, behind);
        }
    }
}

/// Puts an object of the snapshot: `GROUP/RESOURCE OBJECT`.
pub fn put_held(rt: &impl Abort, out: &mut String, line: &str) {
    let (resource, object) = halves(line, ' ');
    let (group, name) = halves(resource, '/');
    put(rt, out, "{\"group\":\"");
    put(rt, out, group);
    put(rt, out, "\",\"resource\":\"");
    put(rt, out, name);
    put(rt, out, "\",\"object\":");
    put_spelled(rt, out, object);
    put(rt, out, "}");
}
