use crate::reading::{check, is_tree, read};
use base_types::json::Tree;
use merge_patch::merge;
use std::process::Abort;

/// Target, patch and what comes of it: the table of RFC 7386 appendix A, the example of its section 3, names
/// before, between and behind those of the target, nulls that name
/// nothing, and patches of no target.
static MERGES: [(Option<&str>, &str, &str); 23] = [
    (Some(r#"{"a":"b"}"#), r#"{"a":"c"}"#, r#"{"a":"c"}"#),
    (Some(r#"{"a":"b"}"#), r#"{"b":"c"}"#, r#"{"a":"b","b":"c"}"#),
    (Some(r#"{"a":"b"}"#), r#"{"a":null}"#, r#"{}"#),
    (
        Some(r#"{"a":"b","b":"c"}"#),
        r#"{"a":null}"#,
        r#"{"b":"c"}"#,
    ),
    (Some(r#"{"a":["b"]}"#), r#"{"a":"c"}"#, r#"{"a":"c"}"#),
    (Some(r#"{"a":"c"}"#), r#"{"a":["b"]}"#, r#"{"a":["b"]}"#),
    (
        Some(r#"{"a":{"b":"c"}}"#),
        r#"{"a":{"b":"d","c":null}}"#,
        r#"{"a":{"b":"d"}}"#,
    ),
    (Some(r#"{"a":[{"b":"c"}]}"#), r#"{"a":[1]}"#, r#"{"a":[1]}"#),
    (Some(r#"["a","b"]"#), r#"["c","d"]"#, r#"["c","d"]"#),
    (Some(r#"{"a":"b"}"#), r#"["c"]"#, r#"["c"]"#),
    (Some(r#"{"a":"foo"}"#), "null", "null"),
    (Some(r#"{"a":"foo"}"#), r#""bar""#, r#""bar""#),
    (Some(r#"{"e":null}"#), r#"{"a":1}"#, r#"{"e":null,"a":1}"#),
    (Some(r#"[1,2]"#), r#"{"a":"b","c":null}"#, r#"{"a":"b"}"#),
    (
        Some(r#"{}"#),
        r#"{"a":{"bb":{"ccc":null}}}"#,
        r#"{"a":{"bb":{}}}"#,
    ),
    (
        Some(
            r#"{"title":"Goodbye!","author":{"givenName":"John","familyName":"Doe"},"tags":["example","sample"],"content":"This will be unchanged"}"#,
        ),
        r#"{"title":"Hello!","phoneNumber":"+01-123-456-7890","author":{"familyName":null},"tags":["example"]}"#,
        r#"{"title":"Hello!","author":{"givenName":"John"},"tags":["example"],"content":"This will be unchanged","phoneNumber":"+01-123-456-7890"}"#,
    ),
    (
        Some(r#"{"a":1,"b":2}"#),
        r#"{"a":null,"c":{"d":null}}"#,
        r#"{"b":2,"c":{}}"#,
    ),
    (
        Some(r#"{"b":1,"d":2,"f":3}"#),
        r#"{"a":null,"b":[],"c":4,"d":null,"e":null,"g":true}"#,
        r#"{"b":[],"c":4,"f":3,"g":true}"#,
    ),
    (Some(r#"{"a":{"b":1}}"#), r#"{"a":{}}"#, r#"{"a":{"b":1}}"#),
    (Some(r#"{"a":[1]}"#), r#"{"a":{}}"#, r#"{"a":{}}"#),
    (Some(r#"7"#), r#"{}"#, r#"{}"#),
    (
        None,
        r#"{"a":{"b":null,"c":1},"d":null}"#,
        r#"{"a":{"c":1}}"#,
    ),
    (None, "[null]", "[null]"),
];

// What a patch makes of a target, or of nothing.
fn merged(rt: &(impl Abort + AllocGlobal), target: Option<&Tree>, patch: &str) -> Tree {
    let patch = read(rt, patch);
    let made = merge(rt.alloc(), target, &patch).expect(rt, "memory");
    drop(patch);
    made
}

fn merged_into(rt: &(impl Abort + AllocGlobal), target: &str, patch: &str) -> Tree {
    let target = read(rt, target);
    let made = merged(rt, Some(&target), patch);
    drop(target);
    made
}

fn makes(rt: &(impl Abort + AllocGlobal), target: Option<&str>, patch: &str, made: &str) -> bool {
    let answer = match target {
        Some(target) => merged_into(rt, target, patch),
        None => merged(rt, None, patch),
    };
    let is_made = is_tree(rt, &answer, made);
    drop(answer);
    is_made
}

#[test]
fn patches_merge(rt: HostRuntime) {
    for (target, patch, made) in &MERGES {
        check(&rt, makes(&rt, *target, patch, made), patch);
    }
}
