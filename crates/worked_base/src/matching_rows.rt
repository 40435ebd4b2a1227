use crate::given::{check, text};
use base_types::{Texts, has_text, is_combined, path_matches};
use std::process::Abort;

// An entry of `nonResourceURLs`, a path, and whether it takes the path.
static ENTRIES: [(&str, &str, bool); 10] = [
    ("/healthz", "/healthz", true),
    ("/healthz", "/healthz/", false),
    ("/healthz*", "/healthz", true),
    ("/healthz*", "/healthz/ping", true),
    ("/healthz/*", "/healthz", false),
    ("*", "/x", true),
    ("*", "", true),
    ("/a**", "/a*b", true),
    ("/a**", "/ab", false),
    ("", "/", false),
];

// A text, a resource, a subresource, and whether the text is the two.
static COMBINED: [(&str, &str, &str, bool); 4] = [
    ("pods/log", "pods", "log", true),
    ("/", "", "", true),
    ("pods", "pods", "", false),
    ("pods.log", "pods", "log", false),
];

fn takes(rt: &(impl Abort + AllocGlobal), entry: &str, path: &str) -> bool {
    let entry = text(rt, entry);
    let path = text(rt, path);
    path_matches(&entry, &path)
}

#[test]
fn entries_take_paths(rt: HostRuntime) {
    for (entry, path, taken) in &ENTRIES {
        check(&rt, takes(&rt, entry, path) == *taken, path);
    }
}

// A text, and whether it is one of the list `a`, `b`.
static LISTED: [(&str, bool); 2] = [("b", true), ("ab", false)];

fn a_and_b(rt: &(impl Abort + AllocGlobal)) -> Texts {
    let mut texts = Texts::new(rt.alloc());
    texts.push(text(rt, "a")).expect(rt, "memory");
    texts.push(text(rt, "b")).expect(rt, "memory");
    texts
}

fn is_listed(rt: &(impl Abort + AllocGlobal), wanted: &str) -> bool {
    let texts = a_and_b(rt);
    let wanted = text(rt, wanted);
    has_text(&texts, &wanted)
}

#[test]
fn texts_of_two(rt: HostRuntime) {
    for (text, resource, subresource, combined) in &COMBINED {
        let found = is_combined(text, resource, subresource);
        check(&rt, found == *combined, text);
    }
    for (text, listed) in &LISTED {
        check(&rt, is_listed(&rt, text) == *listed, text);
    }
}
