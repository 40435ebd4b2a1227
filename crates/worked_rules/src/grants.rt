use crate::given::{text, tree};
use base_types::{Listed, RequestAttrs};
use rbac_rules::{PolicyRules, grants, read_role};
use std::process::Abort;

// A request of the group `apps`, of these parts: verb, resource, subresource and name.
fn request(rt: &(impl Abort + AllocGlobal), parts: &[&str; 4]) -> RequestAttrs {
    let [verb, resource, subresource, name] = parts;
    RequestAttrs {
        verb: text(rt, verb),
        path: text(rt, "/x"),
        is_resource: true,
        group: text(rt, "apps"),
        version: text(rt, "v1"),
        resource: text(rt, resource),
        subresource: text(rt, subresource),
        namespace: text(rt, "d"),
        name: text(rt, name),
        query: Listed::new(rt.alloc()),
    }
}

fn path_request(rt: &(impl Abort + AllocGlobal), path: &str) -> RequestAttrs {
    let mut attrs = request(rt, &POD);
    attrs.is_resource = false;
    attrs.path = text(rt, path);
    attrs
}

// The rules of a role.
fn rules_of(rt: &(impl Abort + AllocGlobal), rules: &str) -> PolicyRules {
    let role = format!(in rt.alloc(); "{{\"rules\":[{rules}]}}").expect(rt, "memory");
    let tree = tree(rt, role.as_str());
    let rules = read_role(rt.alloc(), &tree).expect(rt, "a role");
    drop(tree);
    rules
}

// A role of these rules grants the request.
fn is_granted(rt: &(impl Abort + AllocGlobal), rules: &str, attrs: &RequestAttrs) -> bool {
    let rules = rules_of(rt, rules);
    let granted = grants(rules.as_slice(), attrs);
    drop(rules);
    granted
}

const POD: [&str; 4] = ["get", "pods", "", "p"];

const LOG: [&str; 4] = ["get", "pods", "log", "p"];

const STAR: [&str; 4] = ["get", "pods", "*", "p"];

const SCALE: [&str; 4] = ["get", "sets", "scale", "s"];

const SCALES: [&str; 4] = ["get", "scale", "", "s"];

const NAMELESS: [&str; 4] = ["list", "pods", "", ""];

// The resources and the names of a rule for every verb and group, a request, and whether it is granted.
static RESOURCES: [(&str, &str, [&str; 4], bool); 22] = [
    (r#""pods""#, "", POD, true),
    (r#""pods""#, "", LOG, false),
    (r#""pods/log""#, "", LOG, true),
    (r#""pods/log""#, "", POD, false),
    (r#""pods/*""#, "", POD, false),
    (r#""pods/*""#, "", LOG, false),
    (r#""pods/*""#, "", STAR, true),
    (r#""*/scale""#, "", SCALE, true),
    (r#""*/scale""#, "", SCALES, false),
    (r#""*/scale""#, "", LOG, false),
    (r#""scale""#, "", SCALE, false),
    (r#""*/*""#, "", LOG, false),
    (r#""*/""#, "", POD, false),
    (r#""*""#, "", POD, true),
    (r#""*""#, "", LOG, true),
    (r#""nodes","pods""#, "", POD, true),
    ("", "", POD, false),
    (r#""pods""#, r#""p""#, POD, true),
    (r#""pods""#, r#""q","p""#, LOG, false),
    (r#""pods""#, r#""q""#, POD, false),
    (r#""pods""#, r#""*""#, POD, false),
    (r#""pods""#, r#""p""#, NAMELESS, false),
];

fn is_granted_on(
    rt: &(impl Abort + AllocGlobal),
    resources: &str,
    names: &str,
    parts: &[&str; 4],
) -> bool {
    let rule = format!(in rt.alloc();
        "{{\"apiGroups\":[\"*\"],\"verbs\":[\"*\"],\"resources\":[{resources}],\"resourceNames\":[{names}]}}"
    ).expect(rt, "memory");
    let attrs = request(rt, parts);
    let granted = is_granted(rt, rule.as_str(), &attrs);
    drop(attrs);
    granted
}

#[test]
fn resources_and_names(rt: HostRuntime) {
    for (resources, names, parts, granted) in &RESOURCES {
        assert_eq!(rt; is_granted_on(&rt, resources, names, parts), *granted);
    }
}

// The groups and the verbs of a rule for every resource, and whether it grants the request.
static GROUPS: [(&str, &str, bool); 8] = [
    (r#""apps""#, r#""get""#, true),
    (r#""batch","apps""#, r#""list","get""#, true),
    (r#""*""#, r#""*""#, true),
    (r#""""#, r#""get""#, false),
    (r#""apps""#, r#""list""#, false),
    (r#""app*""#, r#""get""#, false),
    (r#""apps""#, r#""g*""#, false),
    ("", "", false),
];

// The verbs and the paths of a rule, and whether it grants a get of `/healthz/ping`.
static PATHS: [(&str, &str, bool); 8] = [
    (r#""get""#, r#""/healthz/ping""#, true),
    (r#""*""#, r#""/x","/healthz/*""#, true),
    (r#""*""#, r#""*""#, true),
    (r#""*""#, r#""/healthz""#, false),
    (r#""*""#, r#""/healthz/pin*g""#, false),
    (r#""*""#, r#""/healthz**""#, false),
    (r#""post""#, r#""*""#, false),
    (r#""*""#, "", false),
];

fn is_granted_in(
    rt: &(impl Abort + AllocGlobal),
    groups: &str,
    verbs: &str,
    attrs: &RequestAttrs,
) -> bool {
    let rule = format!(in rt.alloc();
        "{{\"apiGroups\":[{groups}],\"verbs\":[{verbs}],\"resources\":[\"*\"],\"nonResourceURLs\":[\"*\"]}}"
    ).expect(rt, "memory");
    is_granted(rt, rule.as_str(), attrs)
}

fn is_granted_at(
    rt: &(impl Abort + AllocGlobal),
    verbs: &str,
    paths: &str,
    attrs: &RequestAttrs,
) -> bool {
    let rule = format!(in rt.alloc();
        "{{\"apiGroups\":[\"*\"],\"verbs\":[{verbs}],\"resources\":[\"*\"],\"nonResourceURLs\":[{paths}]}}"
    ).expect(rt, "memory");
    is_granted(rt, rule.as_str(), attrs)
}

#[test]
fn groups_verbs_and_paths(rt: HostRuntime) {
    let pod = request(&rt, &POD);
    for (groups, verbs, granted) in &GROUPS {
        assert_eq!(rt; is_granted_in(&rt, groups, verbs, &pod), *granted);
    }
    drop(pod);
    let ping = path_request(&rt, "/healthz/ping");
    for (verbs, paths, granted) in &PATHS {
        assert_eq!(rt; is_granted_at(&rt, verbs, paths, &ping), *granted);
    }
    drop(ping);
}

#[test]
fn each_rule_may_grant(rt: HostRuntime) {
    let attrs = request(&rt, &POD);
    let first = r#"{"apiGroups":["apps"],"verbs":["get"],"resources":["pods"]},{}"#;
    let last = r#"{},{"apiGroups":["apps"],"verbs":["get"],"resources":["pods"]}"#;
    assert!(rt; is_granted(&rt, first, &attrs));
    assert!(rt; is_granted(&rt, last, &attrs));
    assert!(rt; !is_granted(&rt, "", &attrs));
    drop(attrs);
}
