use crate::patching::{check_refused, nulls};
use crate::reading::{check, read};
use base_types::json::Tree;
use json_patch::{ApplyCause, PatchFault, read_patch};
use std::process::Abort;

/// Document, patch, and the first operation that can't be done with its first cause.
static REFUSED: [(&str, &str, u32, ApplyCause); 22] = [
    (
        "{}",
        r#"[{"op": "add", "path": "/a", "value": 1}, {"op": "remove", "path": "/b"}]"#,
        1,
        ApplyCause::NoValue,
    ),
    (
        r#"{"baz": "qux"}"#,
        r#"[{"op": "test", "path": "/baz", "value": "bar"}]"#,
        0,
        ApplyCause::Differs,
    ),
    (
        r#"{"foo": "bar"}"#,
        r#"[{"op": "add", "path": "/baz/bat", "value": "qux"}]"#,
        0,
        ApplyCause::NoParent,
    ),
    (
        r#"{"/": 9, "~1": 10}"#,
        r#"[{"op": "test", "path": "/~01", "value": "10"}]"#,
        0,
        ApplyCause::Differs,
    ),
    (
        r#"{"data": {"k": "x"}}"#,
        r#"[{"op": "test", "path": "/data/k", "value": "z"}, {"op": "replace", "path": "/data/k", "value": "y"}]"#,
        0,
        ApplyCause::Differs,
    ),
    (
        r#"{"a": {}}"#,
        r#"[{"op": "move", "from": "/a", "path": "/a/b"}]"#,
        0,
        ApplyCause::IntoItself,
    ),
    (
        "{}",
        r#"[{"op": "move", "from": "/a", "path": "/a/b"}]"#,
        0,
        ApplyCause::IntoItself,
    ),
    (
        "{}",
        r#"[{"op": "move", "from": "", "path": "/b"}]"#,
        0,
        ApplyCause::IntoItself,
    ),
    (
        "{}",
        r#"[{"op": "remove", "path": ""}]"#,
        0,
        ApplyCause::NoParent,
    ),
    (
        "{}",
        r#"[{"op": "copy", "from": "/x", "path": "/y/z"}]"#,
        0,
        ApplyCause::NoValue,
    ),
    (
        r#"{"x": 1}"#,
        r#"[{"op": "copy", "from": "/x", "path": "/y/z"}]"#,
        0,
        ApplyCause::NoParent,
    ),
    (
        "[1]",
        r#"[{"op": "remove", "path": "/-"}]"#,
        0,
        ApplyCause::NoValue,
    ),
    (
        "[1]",
        r#"[{"op": "replace", "path": "/-", "value": 2}]"#,
        0,
        ApplyCause::NoValue,
    ),
    (
        "[1]",
        r#"[{"op": "test", "path": "/-", "value": 1}]"#,
        0,
        ApplyCause::NoValue,
    ),
    (
        "[1]",
        r#"[{"op": "remove", "path": "/00"}]"#,
        0,
        ApplyCause::NoValue,
    ),
    (
        "[1]",
        r#"[{"op": "add", "path": "/2", "value": 2}]"#,
        0,
        ApplyCause::BadIndex,
    ),
    (
        "[1]",
        r#"[{"op": "add", "path": "/01", "value": 2}]"#,
        0,
        ApplyCause::BadIndex,
    ),
    (
        "[1]",
        r#"[{"op": "add", "path": "/18446744073709551616", "value": 2}]"#,
        0,
        ApplyCause::BadIndex,
    ),
    (
        "[1]",
        r#"[{"op": "add", "path": "/", "value": 2}]"#,
        0,
        ApplyCause::BadIndex,
    ),
    (
        "7",
        r#"[{"op": "add", "path": "/a", "value": 2}]"#,
        0,
        ApplyCause::NoParent,
    ),
    (
        "[[1], [2]]",
        r#"[{"op": "move", "from": "/0", "path": "/1/0"}]"#,
        0,
        ApplyCause::NoParent,
    ),
    (
        "[1, 2]",
        r#"[{"op": "move", "from": "/0", "path": "/2"}]"#,
        0,
        ApplyCause::BadIndex,
    ),
];

fn check_row(
    rt: &(impl Abort + AllocGlobal),
    document: &str,
    patch: &str,
    index: u32,
    cause: ApplyCause,
) {
    let document = read(rt, document);
    check_refused(rt, &document, patch, index, cause);
    drop(document);
}

#[test]
fn refused_operations(rt: HostRuntime) {
    for (document, patch, index, cause) in &REFUSED {
        check_row(&rt, document, patch, *index, *cause);
    }
}

// Patches that can't be read, and why.
static UNREAD: [(&str, PatchFault); 9] = [
    ("{}", PatchFault::NotList),
    ("[1]", PatchFault::BadOperation { index: 0 }),
    (
        r#"[{"op": "remove", "path": "/a"}, {"op": "add", "path": "/a"}]"#,
        PatchFault::BadOperation { index: 1 },
    ),
    (
        r#"[{"op": "remove", "path": "a"}]"#,
        PatchFault::BadOperation { index: 0 },
    ),
    (
        r#"[{"op": "remove", "path": 1}]"#,
        PatchFault::BadOperation { index: 0 },
    ),
    (
        r#"[{"op": "delete", "path": "/a"}]"#,
        PatchFault::BadOperation { index: 0 },
    ),
    (
        r#"[{"op": "copy", "path": "/a"}]"#,
        PatchFault::BadOperation { index: 0 },
    ),
    (
        r#"[{"op": "move", "from": "b", "path": "/a"}]"#,
        PatchFault::BadOperation { index: 0 },
    ),
    (r#"[{"path": "/a"}]"#, PatchFault::BadOperation { index: 0 }),
];

// Stops the test unless this is why the tree can't be read as a patch.
fn check_unread(rt: &(impl Abort + AllocGlobal), tree: Tree, fault: PatchFault, patch: &str) {
    let found = read_patch(rt.alloc(), &tree).err();
    drop(tree);
    check(rt, found == Some(fault), patch);
}

#[test]
fn refused_patches(rt: HostRuntime) {
    for (patch, fault) in &UNREAD {
        check_unread(&rt, read(&rt, patch), *fault, patch);
    }
    check_unread(&rt, nulls(&rt, 10_001), PatchFault::TooMany, "many nulls");
    let first = PatchFault::BadOperation { index: 0 };
    check_unread(&rt, nulls(&rt, 10_000), first, "the most nulls");
}
