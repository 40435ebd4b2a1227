use crate::patching::{check_done, check_refused, nulls};
use crate::reading::push;
use base_types::json::{Node, Tree, Trees};
use json_patch::ApplyCause;
use std::process::Abort;

fn list_of(rt: &(impl Abort + AllocGlobal), tree: Tree) -> Tree {
    let mut all = Vec::new(rt.alloc());
    all.push(tree).expect(rt, "memory");
    Tree {
        node: Node::Items(Trees { all }),
    }
}

/// So many lists one inside another.
fn nested(rt: &(impl Abort + AllocGlobal), depth: usize) -> Tree {
    let mut tree = nulls(rt, 0);
    for _ in 1..depth {
        tree = list_of(rt, tree);
    }
    tree
}

// Patches of a list that holds 127 containers one inside another, up to and behind the path of the innermost list,
// and whether they are allowed: 128 aren't, whichever operation is asked.
static DEEP: [(&str, &str, bool); 5] = [
    (r#"[{"op": "add", "path": ""#, r#"/-", "value": 1}]"#, true),
    (
        r#"[{"op": "add", "path": ""#,
        r#"/-", "value": []}]"#,
        false,
    ),
    (
        r#"[{"op": "add", "path": "/-", "value": 1}, {"op": "add", "path": ""#,
        r#"/-", "value": {}}]"#,
        false,
    ),
    (
        r#"[{"op": "add", "path": "/-", "value": {}}, {"op": "move", "from": "/1", "path": ""#,
        r#"/-"}]"#,
        false,
    ),
    (
        r#"[{"op": "add", "path": "/-", "value": 1}, {"op": "copy", "from": "/1", "path": ""#,
        r#"/-"}]"#,
        true,
    ),
];

fn deepest_patch(rt: &(impl Abort + AllocGlobal), front: &str, back: &str) -> String {
    let mut patch = String::from_str(rt.alloc(), front).expect(rt, "memory");
    for _ in 0..126 {
        push(rt, &mut patch, "/0");
    }
    push(rt, &mut patch, back);
    patch
}

fn check_deepest(
    rt: &(impl Abort + AllocGlobal),
    document: &Tree,
    front: &str,
    back: &str,
    is_done: bool,
) {
    let patch = deepest_patch(rt, front, back);
    check_done(rt, document, patch.as_str(), is_done);
}

#[test]
fn depth_is_limited(rt: HostRuntime) {
    let deep = nested(&rt, 127);
    let absent = r#"[{"op": "test", "path": "/0/1", "value": 1}]"#;
    check_done(&rt, &deep, absent, false);
    for (front, back, allowed) in &DEEP {
        check_deepest(&rt, &deep, front, back, *allowed);
    }
    drop(deep);
}

// Patches of a list that holds 128 containers one inside another, and whether they are done.
static TOO_DEEP: [(&str, bool); 4] = [
    (r#"[{"op": "test", "path": "/0/0/0", "value": 1}]"#, false),
    (r#"[{"op": "add", "path": "/-", "value": 1}]"#, false),
    (r#"[{"op": "remove", "path": "/0/0"}]"#, true),
    ("[]", true),
];

#[test]
fn what_is_too_deep_can_be_mended(rt: HostRuntime) {
    let too_deep = nested(&rt, 128);
    for (patch, done) in &TOO_DEEP {
        check_done(&rt, &too_deep, patch, *done);
    }
    let further = r#"[{"op": "add", "path": "/-", "value": 1}]"#;
    check_refused(&rt, &too_deep, further, 0, ApplyCause::Deep);
    drop(too_deep);
}

/// 1,000,000 values are allowed, the document itself among them.
#[test]
fn size_is_limited(rt: HostRuntime) {
    let document = nulls(&rt, 999_998);
    let one = r#"[{"op": "add", "path": "/-", "value": 1}]"#;
    check_done(&rt, &document, one, true);
    let two =
        r#"[{"op": "add", "path": "/-", "value": 1}, {"op": "add", "path": "/0", "value": 1}]"#;
    check_refused(&rt, &document, two, 1, ApplyCause::Large);
    let exchanged =
        r#"[{"op": "add", "path": "/-", "value": 1}, {"op": "replace", "path": "/0", "value": []},
        {"op": "move", "from": "/1", "path": "/0/-"}, {"op": "remove", "path": "/0"},
        {"op": "add", "path": "/0", "value": [0]}]"#;
    check_done(&rt, &document, exchanged, true);
    drop(document);
}
