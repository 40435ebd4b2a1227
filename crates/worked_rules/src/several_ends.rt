ghost use Rattle.std.specs.Prelude.{◌≡◌, map};
ghost use Rattle.rbac_timeline.specs.Known.{key_revision};
ghost use Rattle.worked_rules.specs.SeveralEnds.{rbac_key, several_ends, several_revisions};

use crate::given::{text, user};
use crate::timelines::{end, get, one_text, reader, revision, version};
use base_types::{Decision, ObjectKey, Places};
use clouds::OpaqueSpans;
use rbac_rules::{Binding, Subject, Subjects};
use rbac_timeline::{RbacContent, RbacEnds, RbacVersions, Timeline};
use std::process::Abort;

fn key(rt: &(impl Abort + AllocGlobal), resource: &str, namespace: &str, name: &str) -> ObjectKey
    ensures { result ≡ rbac_key resource.now namespace.now name.now }
{
    ObjectKey {
        group: text(rt, "rbac.authorization.k8s.io"),
        resource: text(rt, resource),
        namespace: text(rt, namespace),
        name: text(rt, name),
    }
}

// From the user `u` to a role or cluster role.
fn bound(rt: &(impl Abort + AllocGlobal), role_is_cluster: bool, role: &str) -> RbacContent {
    let mut subjects = Subjects::new(rt.alloc());
    let subject = Subject::User(text(rt, "u"));
    subjects.push(subject).expect(rt, "memory");
    RbacContent::Bound(Binding {
        role_is_cluster,
        role: text(rt, role),
        subjects,
    })
}

// The cluster role binding `g` at 5 and the role binding `b` at 7 of the cluster role `k` at 4, and the role
// binding `a` at 6 of the role `r` at 3, all of user u.
fn versions(rt: &(impl Abort + AllocGlobal)) -> RbacVersions
    ensures { map key_revision result ≡ several_revisions }
{
    let g = version(
        key(rt, "clusterrolebindings", "", "g"),
        revision(rt, 5),
        bound(rt, true, "k"),
    );
    let k = version(
        key(rt, "clusterroles", "", "k"),
        revision(rt, 4),
        reader(rt),
    );
    let a = version(
        key(rt, "rolebindings", "d", "a"),
        revision(rt, 6),
        bound(rt, false, "r"),
    );
    let b = version(
        key(rt, "rolebindings", "d", "b"),
        revision(rt, 7),
        bound(rt, true, "k"),
    );
    let r = version(key(rt, "roles", "d", "r"), revision(rt, 3), reader(rt));
    let mut versions = RbacVersions::new(rt.alloc());
    versions.push(g).expect(rt, "memory");
    versions.push(k).expect(rt, "memory");
    versions.push(a).expect(rt, "memory");
    versions.push(b).expect(rt, "memory");
    versions.push(r).expect(rt, "memory");
    versions
}

// They are there for certain before 12 (`a`), 15 (`b`), 20 (`r`), 25 (`k`) and 30 (`g`).
fn ends(rt: &(impl Abort + AllocGlobal)) -> RbacEnds
    ensures { result ≡ several_ends }
{
    let a = end(key(rt, "rolebindings", "d", "a"), revision(rt, 6), 12, 13);
    let b = end(key(rt, "rolebindings", "d", "b"), revision(rt, 7), 15, 16);
    let r = end(key(rt, "roles", "d", "r"), revision(rt, 3), 20, 21);
    let k = end(key(rt, "clusterroles", "", "k"), revision(rt, 4), 25, 26);
    let g = end(
        key(rt, "clusterrolebindings", "", "g"),
        revision(rt, 5),
        30,
        31,
    );
    let mut ends = RbacEnds::new(rt.alloc());
    ends.push(a).expect(rt, "memory");
    ends.push(b).expect(rt, "memory");
    ends.push(r).expect(rt, "memory");
    ends.push(k).expect(rt, "memory");
    ends.push(g).expect(rt, "memory");
    ends
}

fn example(rt: &(impl Abort + AllocGlobal)) -> Timeline {
    let bypass = one_text(rt, "system:masters");
    let spans = OpaqueSpans::new(rt.alloc());
    let timeline = Timeline::build(rt.alloc(), versions(rt), ends(rt), spans, &bypass);
    drop(bypass);
    timeline.expect(rt, "memory")
}

/// The range, the decision, and the least places of roles, cluster roles, bindings and cluster bindings.
type Row = (u64, u64, Decision, Option<[u64; 4]>);

const ROWS: [Row; 9] = [
    (1, 40, Decision::Allow, Some([1, 4, 1, 5])),
    (1, 4, Decision::Allow, None),
    (1, 6, Decision::Allow, Some([1, 4, 1, 5])),
    (1, 40, Decision::Forbid, Some([1, 1, 1, 1])),
    (10, 40, Decision::Forbid, Some([10, 10, 15, 30])),
    (10, 26, Decision::Forbid, Some([10, 25, 12, 10])),
    (16, 26, Decision::Forbid, Some([16, 25, 16, 16])),
    (10, 14, Decision::Forbid, None),
    (31, 40, Decision::Allow, None),
];

fn places_of(numbers: Option<[u64; 4]>) -> Option<Places> {
    let [roles, cluster_roles, bindings, cluster_bindings] = numbers?;
    Some(Places {
        roles,
        cluster_roles,
        bindings,
        cluster_bindings,
    })
}

fn least(rt: &(impl Abort + AllocGlobal), timeline: &Timeline, row: &Row) -> Option<Places> {
    let who = user(rt, "u", &["u"]);
    let attrs = get(rt, "d");
    let (low, high, wanted, _) = *row;
    let places = timeline.find_decision(low, high, &who, &attrs, wanted);
    drop(attrs);
    drop(who);
    places
}

#[test]
fn least_places_between_ends(rt: HostRuntime) {
    let timeline = example(&rt);
    for row in &ROWS {
        assert!(rt; least(&rt, &timeline, row) == places_of(row.3));
    }
    drop(timeline);
}

fn all_at(roles: u64, cluster_roles: u64, bindings: u64, cluster_bindings: u64) -> Places {
    Places {
        roles,
        cluster_roles,
        bindings,
        cluster_bindings,
    }
}

// The least of all places from one up to another, which is left out, one after another.
fn tried(
    rt: &(impl Abort + AllocGlobal),
    timeline: &Timeline,
    low: u64,
    past: u64,
    wanted: Decision,
) -> Option<Places> {
    let who = user(rt, "u", &["u"]);
    let attrs = get(rt, "d");
    let mut found = None;
    for r in low..past {
        for c in low..past {
            for b in low..past {
                for d in low..past {
                    if found.is_none() {
                        let possible = timeline.decide(&all_at(r, c, b, d), &who, &attrs);
                        let is = match wanted {
                            Decision::Allow => possible.allow,
                            Decision::Forbid => possible.forbid,
                        };
                        if is {
                            found = Some(all_at(r, c, b, d));
                        }
                    }
                }
            }
        }
    }
    drop(attrs);
    drop(who);
    found
}

#[test]
fn least_places_as_tried(rt: HostRuntime) {
    let timeline = example(&rt);
    for low in [1u64, 3, 5, 9, 11, 13, 18, 23, 28] {
        for wanted in [Decision::Allow, Decision::Forbid] {
            let row = (low, low.saturating_add(6), wanted, None);
            let slow = tried(&rt, &timeline, low, low.saturating_add(7), wanted);
            assert!(rt; least(&rt, &timeline, &row) == slow);
        }
    }
    drop(timeline);
}
