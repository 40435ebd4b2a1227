use crate::reading::{check, read};
use base_types::json::Tree;
use path_shape::{FieldClass, Shape, ShapeFault, agrees, keeps};
use std::process::Abort;

fn shape_of(rt: &(impl Abort + AllocGlobal), text: &str) -> Shape {
    let list = read(rt, text);
    let shape = Shape::read(rt.alloc(), &list, FieldClass::Asked).expect(rt, "a shape");
    drop(list);
    shape
}

fn agree_from(
    rt: &(impl Abort + AllocGlobal),
    shape: &Shape,
    old: &str,
    asked: &Tree,
    answered: &Tree,
) -> bool {
    let old = read(rt, old);
    let is_so = agrees(shape, Some(&old), asked, answered);
    drop(old);
    is_so
}

// Whether what is answered is what was asked of the old object, if there was one.
fn agree_on(
    rt: &(impl Abort + AllocGlobal),
    shape: &Shape,
    old: &str,
    asked: &Tree,
    answered: &Tree,
) -> bool {
    if old == "none" {
        return agrees(shape, None, asked, answered);
    }
    agree_from(rt, shape, old, asked, answered)
}

fn agree(rt: &(impl Abort + AllocGlobal), given: &[&str; 3], answered: &str) -> bool {
    let [shapes, old, asked] = given;
    let shape = shape_of(rt, shapes);
    let asked = read(rt, asked);
    let answered = read(rt, answered);
    let is_so = agree_on(rt, &shape, old, &asked, &answered);
    drop(answered);
    drop(asked);
    drop(shape);
    is_so
}

// Lists of entries, and the first fault of each.
static LISTS: [(&str, Option<ShapeFault>); 13] = [
    ("[]", None),
    (r#"[{"path":"","class":"Owned"}]"#, None),
    (
        r#"[{"path":"/a~1b/*","class":"Kept"},{"class":"Defaulted","path":"/x/0"}]"#,
        None,
    ),
    ("{}", Some(ShapeFault::NotList)),
    ("null", Some(ShapeFault::NotList)),
    (
        r#"[{"path":"/a","class":"Asked"},{"path":"a","class":"Asked"},7]"#,
        Some(ShapeFault::Entry { index: 1 }),
    ),
    (
        r#"[{"path":"/a","class":"asked"}]"#,
        Some(ShapeFault::Entry { index: 0 }),
    ),
    (r#"[{"path":"/a"}]"#, Some(ShapeFault::Entry { index: 0 })),
    (
        r#"[{"class":"Kept"}]"#,
        Some(ShapeFault::Entry { index: 0 }),
    ),
    (
        r#"[{"path":null,"class":"Kept"}]"#,
        Some(ShapeFault::Entry { index: 0 }),
    ),
    (
        r#"[{"path":"/a","class":null}]"#,
        Some(ShapeFault::Entry { index: 0 }),
    ),
    (
        r#"[{"path":"/a","class":"Kept","x":null}]"#,
        Some(ShapeFault::Entry { index: 0 }),
    ),
    ("[[]]", Some(ShapeFault::Entry { index: 0 })),
];

fn first_fault(rt: &(impl Abort + AllocGlobal), text: &str) -> Option<ShapeFault> {
    let list = read(rt, text);
    let fault = Shape::read(rt.alloc(), &list, FieldClass::Kept).err();
    drop(list);
    fault
}

#[test]
fn lists_of_entries(rt: HostRuntime) {
    for (text, fault) in &LISTS {
        check(&rt, first_fault(&rt, text) == *fault, text);
    }
}

// Entries, the old object, what is asked, and answers that agree and that don't.
static CASES: [([&str; 3], &str, &str); 14] = [
    // an owned field of a config map
    (
        [
            r#"[{"path":"/data/o","class":"Owned"}]"#,
            r#"{"metadata":{"name":"a","namespace":"d","uid":"A","resourceVersion":"9"},"data":{"k":"x"}}"#,
            r#"{"metadata":{"name":"a","namespace":"d","resourceVersion":"9"},"data":{"k":"y"}}"#,
        ],
        r#"{"metadata":{"name":"a","namespace":"d","uid":"A","resourceVersion":"13"},"data":{"k":"y","o":"q"}}"#,
        r#"{"metadata":{"name":"a","namespace":"d","uid":"A","resourceVersion":"13"},"data":{"k":"w"}}"#,
    ),
    // a created pod, which a server fills in
    (
        [
            r#"[{"path":"/spec","class":"Defaulted"},{"path":"/status","class":"Owned"}]"#,
            "none",
            r#"{"metadata":{"name":"q"},"spec":{"containers":[{"name":"c","image":"i"}]}}"#,
        ],
        r#"{"metadata":{"name":"q","uid":"Q","resourceVersion":"12"},
            "spec":{"containers":[{"name":"c","image":"i","pull":"Always"}],"restart":"Always"},"status":{"phase":"Pending"}}"#,
        r#"{"metadata":{"name":"q","uid":"Q"},"spec":{"containers":[{"name":"c","image":"i"},{"name":"d"}]}}"#,
    ),
    (
        [r#"[{"path":"/s","class":"Defaulted"}]"#, "none", "{}"],
        r#"{"s":1}"#,
        r#"{"t":1}"#,
    ),
    (
        [
            r#"[{"path":"/s","class":"Defaulted"}]"#,
            "none",
            r#"{"s":{"t":1,"u":null}}"#,
        ],
        r#"{"s":{"t":1,"v":2}}"#,
        r#"{"s":{}}"#,
    ),
    // any token, at indexes too
    (
        [
            r#"[{"path":"/c/*/i","class":"Owned"}]"#,
            "{}",
            r#"{"c":[{"i":1,"n":2},{"i":1}]}"#,
        ],
        r#"{"c":[{"i":3,"n":2}]}"#,
        r#"{"c":[{"i":1,"n":3},{"i":1}]}"#,
    ),
    // an index and a member of that name
    (
        [
            r#"[{"path":"/a","class":"Owned"},{"path":"/a/0/b","class":"Asked"}]"#,
            "{}",
            r#"{"a":[{"b":1}]}"#,
        ],
        r#"{"a":{"0":{"b":1}}}"#,
        r#"{"a":{"0":{"b":2}}}"#,
    ),
    // under a field of another class
    (
        [
            r#"[{"path":"/a","class":"Owned"},{"path":"/a/b","class":"Asked"}]"#,
            "{}",
            r#"{"a":{"b":1,"c":2}}"#,
        ],
        r#"{"a":{"b":1,"c":3}}"#,
        r#"{"a":{"b":2}}"#,
    ),
    (
        [
            r#"[{"path":"/a","class":"Kept"},{"path":"/a/b","class":"Owned"}]"#,
            r#"{"a":{"b":1,"c":2}}"#,
            "{}",
        ],
        r#"{"a":{"b":9,"c":2}}"#,
        r#"{"a":{"c":3}}"#,
    ),
    // of two patterns of one length the first counts
    (
        [
            r#"[{"path":"/a/*","class":"Owned"},{"path":"/*/b","class":"Asked"}]"#,
            "{}",
            r#"{"a":{"b":1},"c":{"b":1}}"#,
        ],
        r#"{"a":{"b":2},"c":{"b":1}}"#,
        r#"{"c":{"b":2}}"#,
    ),
    // an entry before a built-in pattern
    (
        [
            r#"[{"path":"/metadata/uid","class":"Owned"}]"#,
            r#"{"metadata":{"uid":"A"}}"#,
            "{}",
        ],
        r#"{"metadata":{"uid":"B"}}"#,
        r#"{"metadata":{"uid":"B","creationTimestamp":"t"}}"#,
    ),
    // nothing is kept of an object that isn't there
    (
        ["[]", "none", "{}"],
        r#"{"metadata":{"uid":"B","selfLink":"s"}}"#,
        r#"{"metadata":{"labels":1}}"#,
    ),
    (
        ["[]", "{}", "{}"],
        r#"{"metadata":{"name":"n","generation":1}}"#,
        r#"{"metadata":{"uid":"B"}}"#,
    ),
    // thin forms, of which items stay
    (
        [
            "[]",
            "{}",
            r#"{"a":null,"b":{},"c":[],"d":{"e":null},"l":[null,{"x":[]}]}"#,
        ],
        r#"{"l":[null,{"y":{}}]}"#,
        r#"{"l":[{},{}]}"#,
    ),
    // roots that aren't objects
    (
        [r#"[{"path":"","class":"Defaulted"}]"#, "[1]", "7"],
        r#"["x"]"#,
        r#"{"metadata":{"deletionTimestamp":"t"}}"#,
    ),
];

#[test]
fn answers_agree(rt: HostRuntime) {
    for (given, right, wrong) in &CASES {
        check(&rt, agree(&rt, given, right), right);
        check(&rt, !agree(&rt, given, wrong), wrong);
    }
}

// Entries, the old object, and answers of a delete that keep it and that don't.
static KEPT: [[&str; 4]; 5] = [
    [
        "[]",
        r#"{"metadata":{"uid":"A","resourceVersion":"1","finalizers":["x"],"generation":1},"spec":1}"#,
        r#"{"metadata":{"uid":"A","resourceVersion":"2","deletionTimestamp":"t","deletionGracePeriodSeconds":0,"generation":2},"spec":1}"#,
        r#"{"metadata":{"uid":"A","deletionTimestamp":"t"},"spec":2}"#,
    ],
    [
        "[]",
        r#"{"metadata":{"uid":"A"}}"#,
        r#"{"metadata":{"uid":"A"},"spec":{}}"#,
        r#"{"metadata":{"uid":"B"}}"#,
    ],
    [
        r#"[{"path":"/metadata/finalizers","class":"Kept"}]"#,
        r#"{"metadata":{"finalizers":["x","y"]}}"#,
        r#"{"metadata":{"finalizers":["y"]}}"#,
        r#"{"a":1}"#,
    ],
    [
        r#"[{"path":"/metadata/finalizers/0","class":"Kept"}]"#,
        r#"{"metadata":{"finalizers":["x","y"]}}"#,
        r#"{"metadata":{"finalizers":["x"]}}"#,
        r#"{"metadata":{"finalizers":["y"]}}"#,
    ],
    [
        r#"[{"path":"/spec","class":"Defaulted"},{"path":"/status","class":"Owned"}]"#,
        r#"{"spec":{"a":1}}"#,
        r#"{"spec":{"a":1},"status":2}"#,
        r#"{"spec":{"a":1,"b":2}}"#,
    ],
];

fn is_kept(rt: &(impl Abort + AllocGlobal), shapes: &str, old: &str, answered: &str) -> bool {
    let shape = shape_of(rt, shapes);
    let old = read(rt, old);
    let answered = read(rt, answered);
    let is_so = keeps(&shape, &old, &answered);
    drop(answered);
    drop(old);
    drop(shape);
    is_so
}

#[test]
fn deletes_keep(rt: HostRuntime) {
    for [shapes, old, right, wrong] in &KEPT {
        check(&rt, is_kept(&rt, shapes, old, right), right);
        check(&rt, !is_kept(&rt, shapes, old, wrong), wrong);
    }
}
