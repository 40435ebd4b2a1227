ghost use Rattle.std.specs.Prelude.{◌≡◌, [], ◌∷◌, map};
ghost use Rattle.rbac_timeline.specs.Examples.{example_ends, example_key, example_revisions};
ghost use Rattle.rbac_timeline.specs.Known.{key_revision};

use crate::given::{text, user};
use base_types::{
    Cover, CoverName, Decision, ObjectKey, Pairs, Places, Possible, RequestAttrs, Revision, Texts,
    User,
};
use clouds::{OpaqueSpan, OpaqueSpans};
use rbac_rules::{Binding, PolicyRule, PolicyRules, Subject, Subjects};
use rbac_timeline::{RbacContent, RbacEnd, RbacEnds, RbacVersion, RbacVersions, Timeline};
use std::process::Abort;

const MAX: u64 = u64::MAX;

pub(crate) fn one_text(rt: &(impl Abort + AllocGlobal), only: &str) -> Texts
    ensures { result ≡ only.now ∷ [] }
{
    let mut texts = Texts::new(rt.alloc());
    texts.push(text(rt, only)).expect(rt, "memory");
    texts
}

fn key(rt: &(impl Abort + AllocGlobal), resource: &str, name: &str) -> ObjectKey
    ensures { result ≡ example_key resource.now name.now }
{
    ObjectKey {
        group: text(rt, "rbac.authorization.k8s.io"),
        resource: text(rt, resource),
        namespace: text(rt, "d"),
        name: text(rt, name),
    }
}

// Gets configmaps.
pub(crate) fn reader(rt: &(impl Abort + AllocGlobal)) -> RbacContent {
    let mut rules = PolicyRules::new(rt.alloc());
    let rule = PolicyRule {
        api_groups: one_text(rt, ""),
        resources: one_text(rt, "configmaps"),
        verbs: one_text(rt, "get"),
        resource_names: Texts::new(rt.alloc()),
        non_resource_urls: Texts::new(rt.alloc()),
    };
    rules.push(rule).expect(rt, "memory");
    RbacContent::Role(rules)
}

// From a user to the Role `r`.
fn bound(rt: &(impl Abort + AllocGlobal), user: &str) -> RbacContent {
    let mut subjects = Subjects::new(rt.alloc());
    let subject = Subject::User(text(rt, user));
    subjects.push(subject).expect(rt, "memory");
    RbacContent::Bound(Binding {
        role_is_cluster: false,
        role: text(rt, "r"),
        subjects,
    })
}

pub(crate) fn revision(rt: &impl Abort, number: u64) -> Revision
    ensures { result ≡ number }
{
    Revision::new(number).expect(rt, "a revision")
}

pub(crate) fn version(key: ObjectKey, revision: Revision, content: RbacContent) -> RbacVersion
    ensures { key_revision result ≡ record { key = key; revision = revision } }
{
    RbacVersion {
        key,
        revision,
        content,
    }
}

pub(crate) fn end(key: ObjectKey, last: Revision, low: u64, high: u64) -> RbacEnd
    ensures { result ≡ record { key = key; last = last; low = low; high = high } }
{
    RbacEnd {
        key,
        last,
        low,
        high,
    }
}

// The binding `b` of user u at 4 and `c` of user v at 15, and the Role `r` at 3.
fn versions(rt: &(impl Abort + AllocGlobal)) -> RbacVersions
    ensures { map key_revision result ≡ example_revisions }
{
    let b = version(
        key(rt, "rolebindings", "b"),
        revision(rt, 4),
        bound(rt, "u"),
    );
    let c = version(
        key(rt, "rolebindings", "c"),
        revision(rt, 15),
        bound(rt, "v"),
    );
    let r = version(key(rt, "roles", "r"), revision(rt, 3), reader(rt));
    let mut versions = RbacVersions::new(rt.alloc());
    versions.push(b).expect(rt, "memory");
    versions.push(c).expect(rt, "memory");
    versions.push(r).expect(rt, "memory");
    versions
}

// `b` was removed at 11 or 12, `r` at 21 or 22.
fn ends(rt: &(impl Abort + AllocGlobal)) -> RbacEnds
    ensures { result ≡ example_ends }
{
    let b = end(key(rt, "rolebindings", "b"), revision(rt, 4), 11, 12);
    let r = end(key(rt, "roles", "r"), revision(rt, 3), 21, 22);
    let mut ends = RbacEnds::new(rt.alloc());
    ends.push(b).expect(rt, "memory");
    ends.push(r).expect(rt, "memory");
    ends
}

// A binding was created behind place 30 without a known name.
fn spans(rt: &(impl Abort + AllocGlobal)) -> OpaqueSpans {
    let span = OpaqueSpan {
        cover: Cover {
            group: text(rt, "rbac.authorization.k8s.io"),
            resource: text(rt, "rolebindings"),
            namespace: Some(text(rt, "d")),
            name: CoverName::Any,
            creates: true,
        },
        low: 30,
        high: MAX,
    };
    let mut spans = OpaqueSpans::new(rt.alloc());
    spans.push(span).expect(rt, "memory");
    spans
}

fn example(rt: &(impl Abort + AllocGlobal)) -> Timeline {
    let bypass = one_text(rt, "system:masters");
    let versions = versions(rt);
    let ends = ends(rt);
    let spans = spans(rt);
    let timeline = Timeline::build(rt.alloc(), versions, ends, spans, &bypass);
    drop(bypass);
    timeline.expect(rt, "memory")
}

// A user of one group, which has the user's name.
fn who(rt: &(impl Abort + AllocGlobal), name: &str) -> User {
    user(rt, name, &[name])
}

// A get of a configmap.
pub(crate) fn get(rt: &(impl Abort + AllocGlobal), namespace: &str) -> RequestAttrs {
    RequestAttrs {
        verb: text(rt, "get"),
        path: text(rt, ""),
        is_resource: true,
        group: text(rt, ""),
        version: text(rt, ""),
        resource: text(rt, "configmaps"),
        subresource: text(rt, ""),
        namespace: text(rt, namespace),
        name: text(rt, ""),
        query: Pairs::new(rt.alloc()),
    }
}

// All caches at one place.
fn all_at(place: u64) -> Places {
    Places {
        roles: place,
        cluster_roles: place,
        bindings: place,
        cluster_bindings: place,
    }
}

/// Who asks, for a request in which namespace.
type Asked = (&'static str, &'static str);

const U: Asked = ("u", "d");

const V: Asked = ("v", "d");

const W: Asked = ("w", "d");

const ELSEWHERE: Asked = ("u", "e");

const MASTER: Asked = ("system:masters", "e");

// All caches at a place, and which decisions are possible: `b` is removed, then `r`, then an unnamed binding made.
const DECISIONS: [(Asked, u64, bool, bool); 10] = [
    (U, 10, true, false),
    (U, 11, true, true),
    (U, 12, false, true),
    (V, 20, true, false),
    (V, 21, true, true),
    (V, 22, false, true),
    (W, 30, false, true),
    (W, 31, true, true),
    (ELSEWHERE, 10, false, true),
    (MASTER, 10, true, false),
];

// The place to begin at, and that of the bindings in the least places.
const LEAST: [(Asked, u64, Decision, Option<u64>); 8] = [
    (U, 10, Decision::Allow, Some(10)),
    (U, 12, Decision::Allow, Some(31)),
    (V, 10, Decision::Allow, Some(15)),
    (V, 22, Decision::Allow, Some(31)),
    (ELSEWHERE, 10, Decision::Allow, None),
    (U, 10, Decision::Forbid, Some(11)),
    (ELSEWHERE, 10, Decision::Forbid, Some(10)),
    (MASTER, 10, Decision::Forbid, None),
];

fn decided(
    rt: &(impl Abort + AllocGlobal),
    timeline: &Timeline,
    asked: Asked,
    place: u64,
) -> Possible {
    let who = who(rt, asked.0);
    let attrs = get(rt, asked.1);
    let possible = timeline.decide(&all_at(place), &who, &attrs);
    drop(attrs);
    drop(who);
    possible
}

fn least(
    rt: &(impl Abort + AllocGlobal),
    timeline: &Timeline,
    asked: Asked,
    low: u64,
    wanted: Decision,
) -> Option<Places> {
    let who = who(rt, asked.0);
    let attrs = get(rt, asked.1);
    let places = timeline.find_decision(low, 40, &who, &attrs, wanted);
    drop(attrs);
    drop(who);
    places
}

fn with_bindings(low: u64, bindings: Option<u64>) -> Option<Places> {
    let bindings = bindings?;
    Some(Places {
        bindings,
        ..all_at(low)
    })
}

#[test]
fn decisions(rt: HostRuntime) {
    let timeline = example(&rt);
    for (asked, place, allow, forbid) in &DECISIONS {
        let possible = decided(&rt, &timeline, *asked, *place);
        assert!(rt; possible.allow == *allow);
        assert!(rt; possible.forbid == *forbid);
    }
    drop(timeline);
}

#[test]
fn least_places(rt: HostRuntime) {
    let timeline = example(&rt);
    for (asked, low, wanted, bindings) in &LEAST {
        let places = least(&rt, &timeline, *asked, *low, *wanted);
        assert!(rt; places == with_bindings(*low, *bindings));
    }
    drop(timeline);
}

fn check_bindings(rt: &(impl Abort + AllocGlobal), timeline: &Timeline) {
    let user = Subject::User(text(rt, "u"));
    let bindings = timeline.bindings_of(&user);
    assert!(rt; bindings.len() == 1);
    for binding in bindings {
        assert!(rt; binding.name.as_str() == "b");
    }
    drop(user);
}

#[test]
fn bindings_of_a_subject(rt: HostRuntime) {
    let timeline = example(&rt);
    check_bindings(&rt, &timeline);
    drop(timeline);
}
