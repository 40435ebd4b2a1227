use crate::given::{check, text};
use base_types::{ObjectKey, escape, key_text, read_key};
use std::process::Abort;

// Group, resource, namespace and name, and the key's text.
static KEYS: [([&str; 4], &str); 6] = [
    (["", "configmaps", "d", "a"], "/configmaps/d/a"),
    (
        ["apps", "deployments", "", "web-1.x_y~z"],
        "apps/deployments//web-1.x_y~z",
    ),
    (
        [
            "rbac.authorization.k8s.io",
            "clusterroles",
            "",
            "system:node",
        ],
        "rbac.authorization.k8s.io/clusterroles//system:node",
    ),
    (["", "a/b", "%", "n m"], "/a%2Fb/%25/n%20m"),
    (["", "r", "", "\u{e4}\u{20ac}"], "/r//%C3%A4%E2%82%AC"),
    (["+", "r", "\n", "\u{7f}*"], "%2B/r/%0A/%7F%2A"),
];

static NO_KEYS: [&str; 18] = [
    "",
    "/",
    "//",
    "a/b/c",
    "/configmaps/d/",
    "//d/a",
    "g//d/a",
    "/configmaps/d/a/b",
    "/configmaps/d/%61",
    "/configmaps/d/%2f",
    "/configmaps/d/%",
    "/configmaps/d/%2",
    "/configmaps/d/%zz",
    "/configmaps/d/%FF",
    "/configmaps/d/a b",
    "/configmaps/d/a%2",
    "/configmaps/d/\u{e4}",
    "/configmaps/d/a*",
];

fn key(rt: &(impl Abort + AllocGlobal), parts: &[&str; 4]) -> ObjectKey {
    let [group, resource, namespace, name] = parts;
    ObjectKey {
        group: text(rt, group),
        resource: text(rt, resource),
        namespace: text(rt, namespace),
        name: text(rt, name),
    }
}

fn prints(rt: &(impl Abort + AllocGlobal), key: &ObjectKey, text: &str) -> bool {
    let printed = key_text(rt.alloc(), key).expect(rt, "memory");
    printed.as_str() == text
}

// Whether the text is read as this key, or as none.
fn reads(rt: &(impl Abort + AllocGlobal), text: &str, key: Option<&ObjectKey>) -> bool {
    let read = read_key(rt.alloc(), text).expect(rt, "memory");
    read.as_ref() == key
}

fn is_text_of(rt: &(impl Abort + AllocGlobal), text: &str, parts: &[&str; 4]) -> bool {
    let key = key(rt, parts);
    prints(rt, &key, text) && reads(rt, text, Some(&key))
}

fn is_escaped(rt: &(impl Abort + AllocGlobal), plain: &str, wanted: &str) -> bool {
    let plain = text(rt, plain);
    let escaped = escape(rt.alloc(), &plain).expect(rt, "memory");
    escaped.as_str() == wanted
}

#[test]
fn keys_and_their_texts(rt: HostRuntime) {
    for (parts, text) in &KEYS {
        check(&rt, is_text_of(&rt, text, parts), text);
    }
    for text in &NO_KEYS {
        check(&rt, reads(&rt, text, None), text);
    }
    let escaped = "pages:12%20%2F%C3%A4";
    check(&rt, is_escaped(&rt, "pages:12 /\u{e4}", escaped), escaped);
}
