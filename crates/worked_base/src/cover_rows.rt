use crate::given::text;
use base_types::{Cover, CoverName, ObjectKey, Text, covers, exact_key};
use std::process::Abort;

// The names that a cover is of.
enum Pattern {
    Exact(&'static str),
    Prefix(&'static str),
    Any,
}

// Group, resource, namespace and names of a cover.
type CoverParts = (&'static str, &'static str, Option<&'static str>, Pattern);

// A cover, whether it takes the pod, and whether the one key that it is of is the pod's, if it is of one.
static COVERS: [(CoverParts, bool, Option<bool>); 11] = [
    (
        ("", "pods", Some("d"), Pattern::Exact("web-1")),
        true,
        Some(true),
    ),
    (("", "pods", None, Pattern::Exact("web-1")), true, None),
    (("", "pods", Some("d"), Pattern::Prefix("web-")), true, None),
    (("", "pods", None, Pattern::Prefix("")), true, None),
    (("", "pods", None, Pattern::Any), true, None),
    (
        ("", "pods", Some("d"), Pattern::Prefix("web-1x")),
        false,
        None,
    ),
    (("", "pods", Some("d"), Pattern::Prefix("eb")), false, None),
    (
        ("", "pods", Some("d"), Pattern::Exact("web")),
        false,
        Some(false),
    ),
    (("", "pods", Some(""), Pattern::Any), false, None),
    (("apps", "pods", None, Pattern::Any), false, None),
    (("", "nodes", None, Pattern::Any), false, None),
];

fn cover_name(rt: &(impl Abort + AllocGlobal), pattern: &Pattern) -> CoverName {
    match pattern {
        Pattern::Exact(name) => CoverName::Exact(text(rt, name)),
        Pattern::Prefix(front) => CoverName::Prefix(text(rt, front)),
        Pattern::Any => CoverName::Any,
    }
}

fn namespace(rt: &(impl Abort + AllocGlobal), name: Option<&str>) -> Option<Text> {
    Some(text(rt, name?))
}

fn cover(rt: &(impl Abort + AllocGlobal), parts: &CoverParts) -> Cover {
    let (group, resource, name, pattern) = parts;
    Cover {
        group: text(rt, group),
        resource: text(rt, resource),
        namespace: namespace(rt, *name),
        name: cover_name(rt, pattern),
        creates: false,
    }
}

fn pod(rt: &(impl Abort + AllocGlobal)) -> ObjectKey {
    ObjectKey {
        group: text(rt, ""),
        resource: text(rt, "pods"),
        namespace: text(rt, "d"),
        name: text(rt, "web-1"),
    }
}

// Whether the one key that a cover is of is the pod's, if it is of one.
fn is_of(rt: &(impl Abort + AllocGlobal), cover: &Cover, pod: &ObjectKey) -> Option<bool> {
    let exact = exact_key(rt.alloc(), cover).expect(rt, "memory")?;
    Some(exact == *pod)
}

// Whether the cover takes the pod, and whether the one key that it is of is the pod's.
fn told(
    rt: &(impl Abort + AllocGlobal),
    parts: &CoverParts,
    pod: &ObjectKey,
) -> (bool, Option<bool>) {
    let cover = cover(rt, parts);
    let told = (covers(&cover, pod), is_of(rt, &cover, pod));
    drop(cover);
    told
}

#[test]
fn covers_take_keys(rt: HostRuntime) {
    let pod = pod(&rt);
    for (parts, taken, is_pod) in &COVERS {
        assert!(rt; told(&rt, parts, &pod) == (*taken, *is_pod));
    }
    drop(pod);
}
