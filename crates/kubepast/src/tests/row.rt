// A row is told in lines, each a word and its rest: `row` and a name; what the setup has (`rbac`, `tracks` a resource,
// `holds` an object, `checks` a list, `sets` members that count in place of earlier ones); the log (`event`, `line`,
// and, between `lists` and `listed`, each `item` of one line); a placement that it `places` line by line; the `words`
// of the command where they aren't `judge s l`; and what is wanted: `tells` a line, and the `status`.

use crate::tests::forms::{put_comma, put_event, put_held, put_spelled};
use crate::tests::texts::{halves, put, text_of};
use std::process::Abort;

const SETUP: &str =
    r#"{"kind":"PastSetup","version":1,"start":{"revision":"10","time":"2024-05-01T10:00:00Z"},"until":"2024-05-01T11:00:00Z","policy":{"apiVersion":"audit.k8s.io/v1","kind":"Policy","rules":[{"level":"RequestResponse"}]},"resources":[{"group":"","version":"v1","resource":"configmaps","kind":"ConfigMap","listKind":"ConfigMapList","namespaced":true}"#;

const CHECKPOINT: &str = r#"{"group":"","resource":"configmaps","namespace":"d","list":"#;

const EVENT: &str = r#"{"kind":"Event","apiVersion":"audit.k8s.io/v1","#;

const EVENTS: &str = r#"{"kind":"EventList","apiVersion":"audit.k8s.io/v1","items":["#;

// What `rbac` stands for: roles and bindings, of which there is one of each, and a configmap that they are about.
const RULES: &str = r#"tracks rules|roles|Role|true
tracks rules|rolebindings|RoleBinding|true
tracks rules|clusterroles|ClusterRole|false
tracks rules|clusterrolebindings|ClusterRoleBinding|false
holds /configmaps cm|a|A|9|x
holds rbac.authorization.k8s.io/roles role
holds rbac.authorization.k8s.io/rolebindings binding|b|,"uid":"RB","resourceVersion":"4"|u
sets "authorize":true,"lagNanos":5000000000"#;

/// The rest of the row's first line with this word, or another text where it has none.
pub fn told<'a>(row: &'a str, wanted: &str, otherwise: &'a str) -> &'a str {
    for line in row.lines() {
        let (word, rest) = halves(line, ' ');
        if word == wanted {
            return rest;
        }
    }
    otherwise
}

/// Puts the rests of the row's lines with this word, each with a newline.
pub fn put_told(rt: &impl Abort, out: &mut String, row: &str, wanted: &str) {
    for line in row.lines() {
        let (word, rest) = halves(line, ' ');
        if word == wanted {
            put(rt, out, rest);
            put(rt, out, "\n");
        }
    }
}

fn put_part(rt: &impl Abort, setup: &mut String, word: &str, rest: &str) {
    match word {
        "tracks" => put_spelled(rt, setup, rest),
        "holds" => put_held(rt, setup, rest),
        "checks" => {
            put(rt, setup, CHECKPOINT);
            put_spelled(rt, setup, rest);
            put(rt, setup, "}");
        }
        _ => put(rt, setup, rest),
    }
}

// What the lines with this word have.
fn put_parts_of(rt: &impl Abort, setup: &mut String, lines: &str, wanted: &str) {
    for line in lines.lines() {
        let (word, rest) = halves(line, ' ');
        if word == wanted {
            put_comma(rt, setup);
            put_part(rt, setup, word, rest);
        }
    }
}

fn put_parts(rt: &impl Abort, setup: &mut String, row: &str, wanted: &str) {
    if row.contains("\nrbac\n") {
        put_parts_of(rt, setup, RULES, wanted);
    }
    put_parts_of(rt, setup, row, wanted);
}

/// The setup of a row.
pub fn setup_of(rt: &(impl Abort + AllocGlobal), row: &str) -> String {
    let mut setup = text_of(rt, SETUP);
    put_parts(rt, &mut setup, row, "tracks");
    put(rt, &mut setup, "],\"snapshot\":[");
    put_parts(rt, &mut setup, row, "holds");
    put(rt, &mut setup, "]");
    put_parts(rt, &mut setup, row, "sets");
    if row.contains("\nchecks ") {
        put(rt, &mut setup, ",\"version\":2,\"checkpoints\":[");
        put_parts(rt, &mut setup, row, "checks");
        put(rt, &mut setup, "]");
    }
    put(rt, &mut setup, "}");
    setup
}

fn put_log_line(rt: &impl Abort, log: &mut String, word: &str, rest: &str) {
    match word {
        "event" => {
            put(rt, log, EVENT);
            put_event(rt, log, rest);
            put(rt, log, "}\n");
        }
        "line" => {
            put(rt, log, rest);
            put(rt, log, "\n");
        }
        "lists" => put(rt, log, EVENTS),
        "item" => {
            put_comma(rt, log);
            put(rt, log, "{");
            put_event(rt, log, rest);
            put(rt, log, "}");
        }
        "listed" => put(rt, log, "]}\n"),
        _ => {}
    }
}

/// The log of a row.
pub fn log_of(rt: &(impl Abort + AllocGlobal), row: &str) -> String {
    let mut log = String::new(rt.alloc());
    for line in row.lines() {
        let (word, rest) = halves(line, ' ');
        put_log_line(rt, &mut log, word, rest);
    }
    log
}

/// What the program must answer to a row: its status, a space, and what it writes.
pub fn wanted_of(rt: &(impl Abort + AllocGlobal), row: &str) -> String {
    let mut wanted = text_of(rt, told(row, "status", "0"));
    put(rt, &mut wanted, " ");
    put_told(rt, &mut wanted, row, "tells");
    wanted
}
