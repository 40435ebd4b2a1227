use crate::patching::makes;
use crate::reading::{check, read};
use std::process::Abort;

/// Document, patch and what comes of it: RFC 6902 appendix A, the empty pointer, a member without a name,
/// escapes, a copy into itself, and moves within one list.
static APPLIED: [(&str, &str, &str); 24] = [
    (
        r#"{"foo": "bar"}"#,
        r#"[{"op": "add", "path": "/baz", "value": "qux"}]"#,
        r#"{"baz": "qux", "foo": "bar"}"#,
    ),
    (
        r#"{"foo": ["bar", "baz"]}"#,
        r#"[{"op": "add", "path": "/foo/1", "value": "qux"}]"#,
        r#"{"foo": ["bar", "qux", "baz"]}"#,
    ),
    (
        r#"{"baz": "qux", "foo": "bar"}"#,
        r#"[{"op": "remove", "path": "/baz"}]"#,
        r#"{"foo": "bar"}"#,
    ),
    (
        r#"{"foo": ["bar", "qux", "baz"]}"#,
        r#"[{"op": "remove", "path": "/foo/1"}]"#,
        r#"{"foo": ["bar", "baz"]}"#,
    ),
    (
        r#"{"baz": "qux", "foo": "bar"}"#,
        r#"[{"op": "replace", "path": "/baz", "value": "boo"}]"#,
        r#"{"baz": "boo", "foo": "bar"}"#,
    ),
    (
        r#"{"foo": {"bar": "baz", "waldo": "fred"}, "qux": {"corge": "grault"}}"#,
        r#"[{"op": "move", "from": "/foo/waldo", "path": "/qux/thud"}]"#,
        r#"{"foo": {"bar": "baz"}, "qux": {"corge": "grault", "thud": "fred"}}"#,
    ),
    (
        r#"{"foo": ["all", "grass", "cows", "eat"]}"#,
        r#"[{"op": "move", "from": "/foo/1", "path": "/foo/3"}]"#,
        r#"{"foo": ["all", "cows", "eat", "grass"]}"#,
    ),
    (
        r#"{"baz": "qux", "foo": ["a", 2, "c"]}"#,
        r#"[{"op": "test", "path": "/baz", "value": "qux"}, {"op": "test", "path": "/foo/1", "value": 2}]"#,
        r#"{"baz": "qux", "foo": ["a", 2, "c"]}"#,
    ),
    (
        r#"{"foo": "bar"}"#,
        r#"[{"op": "add", "path": "/child", "value": {"grandchild": {}}}]"#,
        r#"{"foo": "bar", "child": {"grandchild": {}}}"#,
    ),
    (
        r#"{"foo": "bar"}"#,
        r#"[{"op": "add", "path": "/baz", "value": "qux", "xyz": 123}]"#,
        r#"{"foo": "bar", "baz": "qux"}"#,
    ),
    (
        r#"{"/": 9, "~1": 10}"#,
        r#"[{"op": "test", "path": "/~01", "value": 10}]"#,
        r#"{"/": 9, "~1": 10}"#,
    ),
    (
        r#"{"foo": ["bar"]}"#,
        r#"[{"op": "add", "path": "/foo/-", "value": ["abc", "def"]}]"#,
        r#"{"foo": ["bar", ["abc", "def"]]}"#,
    ),
    (
        r#"{"a": 1}"#,
        r#"[{"op": "add", "path": "", "value": [2]}, {"op": "replace", "path": "", "value": 3}]"#,
        "3",
    ),
    (
        r#"{"a": 1}"#,
        r#"[{"op": "move", "from": "", "path": ""}, {"op": "test", "path": "", "value": {"a": 1}}]"#,
        r#"{"a": 1}"#,
    ),
    (
        r#"{"a": {"b": 1}}"#,
        r#"[{"op": "move", "from": "/a/b", "path": ""}]"#,
        "1",
    ),
    (
        r#"{"a": 1}"#,
        r#"[{"op": "copy", "from": "", "path": "/b"}]"#,
        r#"{"a": 1, "b": {"a": 1}}"#,
    ),
    (
        r#"{"a": {}}"#,
        r#"[{"op": "copy", "from": "/a", "path": "/a/b"}]"#,
        r#"{"a": {"b": {}}}"#,
    ),
    (
        r#"{}"#,
        r#"[{"op": "add", "path": "/", "value": 1}, {"op": "replace", "path": "/", "value": null}]"#,
        r#"{"": null}"#,
    ),
    (
        r#"{}"#,
        r#"[{"op": "add", "path": "/a~1b~0c", "value": 1}]"#,
        r#"{"a/b~c": 1}"#,
    ),
    (
        r#"{"-": 1, "0": 2}"#,
        r#"[{"op": "remove", "path": "/-"}, {"op": "replace", "path": "/0", "value": 3}]"#,
        r#"{"0": 3}"#,
    ),
    (
        r#"[[1], [2], 3]"#,
        r#"[{"op": "move", "from": "/2", "path": "/1/0"}]"#,
        "[[1], [3, 2]]",
    ),
    (
        r#"[1, 2, 3]"#,
        r#"[{"op": "move", "from": "/0", "path": "/-"}, {"op": "move", "from": "/1", "path": "/1"}]"#,
        "[2, 3, 1]",
    ),
    (
        r#"[{"a": 1}, {}]"#,
        r#"[{"op": "move", "from": "/0/a", "path": "/1/a"}, {"op": "remove", "path": "/0"}]"#,
        r#"[{"a": 1}]"#,
    ),
    ("7", "[]", "7"),
];

fn is_made(rt: &(impl Abort + AllocGlobal), document: &str, patch: &str, made: &str) -> bool {
    let document = read(rt, document);
    let wanted = read(rt, made);
    let is_made = makes(rt, &document, patch, &wanted);
    drop(wanted);
    drop(document);
    is_made
}

#[test]
fn patches_apply(rt: HostRuntime) {
    for (document, patch, made) in &APPLIED {
        check(&rt, is_made(&rt, document, patch, made), patch);
    }
}
