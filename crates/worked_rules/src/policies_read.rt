use crate::given::{assert_count, assert_text, tree};
use audit_policy::{AuditRule, GroupResources, Policy, PolicyFault, read_policy};
use base_types::{Level, PolicyLevel};
use std::process::Abort;

// A policy, and the part of it that isn't in its form.
static POLICIES: [(&str, Option<u32>); 34] = [
    (
        r#"{"kind":"Policy","apiVersion":"audit.k8s.io/v1","rules":[]}"#,
        None,
    ),
    (
        r#"{"kind":"Policy","apiVersion":"audit.k8s.io/v1","rules":[],"x":null,"omitStages":[]}"#,
        None,
    ),
    (
        r#"{"kind":"Policy","apiVersion":"audit.k8s.io/v1","rules":[{"level":"None","x":1}]}"#,
        None,
    ),
    ("[]", Some(0)),
    ("null", Some(0)),
    ("{}", Some(0)),
    (
        r#"{"kind":"policy","apiVersion":"audit.k8s.io/v1","rules":[]}"#,
        Some(0),
    ),
    (
        r#"{"kind":"Policy","apiVersion":"audit.k8s.io/v1beta1","rules":[]}"#,
        Some(0),
    ),
    (
        r#"{"kind":"Policy","apiVersion":"audit.k8s.io/v1"}"#,
        Some(0),
    ),
    (
        r#"{"kind":"Policy","apiVersion":"audit.k8s.io/v1","rules":null}"#,
        Some(0),
    ),
    (
        r#"{"kind":"Policy","apiVersion":"audit.k8s.io/v1","rules":[],"omitStages":null}"#,
        Some(0),
    ),
    (
        r#"{"kind":"Policy","apiVersion":"audit.k8s.io/v1","rules":[],"omitStages":["Received"]}"#,
        Some(0),
    ),
    (
        r#"{"kind":"Policy","apiVersion":"audit.k8s.io/v1","rules":[7],"omitStages":[7]}"#,
        Some(0),
    ),
    (
        r#"{"kind":"Policy","apiVersion":"audit.k8s.io/v1","rules":[{}]}"#,
        Some(1),
    ),
    (
        r#"{"kind":"Policy","apiVersion":"audit.k8s.io/v1","rules":[[]]}"#,
        Some(1),
    ),
    (
        r#"{"kind":"Policy","apiVersion":"audit.k8s.io/v1","rules":[{"level":"Loud"}]}"#,
        Some(1),
    ),
    (
        r#"{"kind":"Policy","apiVersion":"audit.k8s.io/v1","rules":[{"level":null}]}"#,
        Some(1),
    ),
    (
        r#"{"kind":"Policy","apiVersion":"audit.k8s.io/v1","rules":[{"level":"None"},{"level":"none"},{}]}"#,
        Some(2),
    ),
    (
        r#"{"kind":"Policy","apiVersion":"audit.k8s.io/v1","rules":[{"level":"None","users":null}]}"#,
        Some(1),
    ),
    (
        r#"{"kind":"Policy","apiVersion":"audit.k8s.io/v1","rules":[{"level":"None","users":"a"}]}"#,
        Some(1),
    ),
    (
        r#"{"kind":"Policy","apiVersion":"audit.k8s.io/v1","rules":[{"level":"None","userGroups":["a",1]}]}"#,
        Some(1),
    ),
    (
        r#"{"kind":"Policy","apiVersion":"audit.k8s.io/v1","rules":[{"level":"None","verbs":{}}]}"#,
        Some(1),
    ),
    (
        r#"{"kind":"Policy","apiVersion":"audit.k8s.io/v1","rules":[{"level":"None","namespaces":[null]}]}"#,
        Some(1),
    ),
    (
        r#"{"kind":"Policy","apiVersion":"audit.k8s.io/v1","rules":[{"level":"None","nonResourceURLs":[[]]}]}"#,
        Some(1),
    ),
    (
        r#"{"kind":"Policy","apiVersion":"audit.k8s.io/v1","rules":[{"level":"None","omitStages":["panic"]}]}"#,
        Some(1),
    ),
    (
        r#"{"kind":"Policy","apiVersion":"audit.k8s.io/v1","rules":[{"level":"None","resources":null}]}"#,
        Some(1),
    ),
    (
        r#"{"kind":"Policy","apiVersion":"audit.k8s.io/v1","rules":[{"level":"None","resources":["pods"]}]}"#,
        Some(1),
    ),
    (
        r#"{"kind":"Policy","apiVersion":"audit.k8s.io/v1","rules":[{"level":"None","resources":[{}]}]}"#,
        None,
    ),
    (
        r#"{"kind":"Policy","apiVersion":"audit.k8s.io/v1","rules":[{"level":"None","resources":[{"group":null}]}]}"#,
        Some(1),
    ),
    (
        r#"{"kind":"Policy","apiVersion":"audit.k8s.io/v1","rules":[{"level":"None","resources":[{"resourceNames":null}]}]}"#,
        Some(1),
    ),
    (
        r#"{"kind":"Policy","apiVersion":"audit.k8s.io/v1","rules":[{"level":"None","resources":[{}],"nonResourceURLs":["/x"]}]}"#,
        Some(1),
    ),
    (
        r#"{"kind":"Policy","apiVersion":"audit.k8s.io/v1","rules":[{"level":"None","namespaces":["d"],"nonResourceURLs":["/x"]}]}"#,
        Some(1),
    ),
    (
        r#"{"kind":"Policy","apiVersion":"audit.k8s.io/v1","rules":[{"level":"None","namespaces":["d"],"resources":[{}],"nonResourceURLs":[]}]}"#,
        None,
    ),
    (
        r#"{"kind":"Policy","apiVersion":"audit.k8s.io/v1","rules":[{"level":"None","namespaces":[],"resources":[],"nonResourceURLs":["/x"]}]}"#,
        None,
    ),
];

fn read(rt: &(impl Abort + AllocGlobal), text: &str) -> Result<Policy, PolicyFault> {
    let tree = tree(rt, text);
    let policy = read_policy(rt.alloc(), &tree);
    drop(tree);
    policy
}

fn broken_part(rt: &(impl Abort + AllocGlobal), text: &str) -> Option<u32> {
    match read(rt, text).err() {
        None => None,
        Some(PolicyFault::Form { rule }) => Some(rule),
        Some(PolicyFault::OutOfMemory) => panic!(rt; "memory"),
    }
}

#[test]
fn forms(rt: HostRuntime) {
    for (text, broken) in &POLICIES {
        assert_eq!(rt; broken_part(&rt, text), *broken);
    }
}

const WHOLE: &str =
    "{\"kind\":\"Policy\",\"apiVersion\":\"audit.k8s.io/v1\",\"omitStages\":[\"ResponseComplete\"],\"rules\":[{\
    \"level\":\"RequestResponse\",\"users\":[\"u\"],\"userGroups\":[\"g\",\"h\"],\"verbs\":[\"v\"],\"namespaces\":[\"n\"],\
    \"resources\":[{\"group\":\"apps\",\"resources\":[\"r\"],\"resourceNames\":[\"a\",\"b\"]},{}],\
    \"omitStages\":[\"RequestReceived\",\"ResponseStarted\"]}]}";

fn check_rule(rt: &impl Abort, rule: &AuditRule) {
    assert!(rt; rule.level == PolicyLevel::Set(Level::RequestResponse));
    assert!(rt; rule.omitted.received && rule.omitted.started && !rule.omitted.complete);
    assert_count(rt, rule.users.len(), 1);
    assert_count(rt, rule.user_groups.len(), 2);
    assert_count(rt, rule.verbs.len(), 1);
    assert_count(rt, rule.namespaces.len(), 1);
    assert_count(rt, rule.non_resource_urls.len(), 0);
    assert_count(rt, rule.resources.len(), 2);
}

fn check_item(rt: &impl Abort, item: &GroupResources) {
    assert_text(rt, &item.group, "apps");
    assert_count(rt, item.resources.len(), 1);
    assert_count(rt, item.resource_names.len(), 2);
}

fn check_policy(rt: &impl Abort, policy: &Policy) {
    assert!(rt; policy.omitted.complete && !policy.omitted.received);
    assert_count(rt, policy.rules.len(), 1);
    let rule = policy.rules.iter().next().expect(rt, "a rule");
    check_rule(rt, rule);
    check_item(rt, rule.resources.iter().next().expect(rt, "an item"));
}

#[test]
fn a_policy_whole(rt: HostRuntime) {
    let policy = read(&rt, WHOLE).expect(&rt, "a policy");
    check_policy(&rt, &policy);
    drop(policy);
}
