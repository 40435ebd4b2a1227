use crate::parts::Asked::MostRecent;
use crate::parts::{Row, ToldPart, check, log, revision};
use base_types::{OutOfMemory, Reason};
use hash_seed::Seed;
use node_number::NodeId;
use object_past::{Maker, Removal, Version};
use past_building::{Bodies, JudgedWrite, LogPast, past_of};
use std::alloc::Global;
use std::process::Abort;

// Revision 12 has two answers: one replaced revision 11, the other, which ended first, found what that had left. The
// object `a1` is removed, `a2` takes its place, and then `a1` comes back, which no API server does; its second removal
// isn't looked for. `b2` is created over `b1`, which was never removed.
static LOG: [Row; 9] = [
    (ToldPart::Created, "a", "a1", 11, MostRecent, 10, 20),
    (ToldPart::Replaced(11), "a", "a1", 12, MostRecent, 30, 50),
    (ToldPart::Updated, "a", "a1", 12, MostRecent, 30, 40),
    (ToldPart::Removed, "a", "a1", 0, MostRecent, 60, 70),
    (ToldPart::Created, "b", "b1", 14, MostRecent, 80, 90),
    (ToldPart::Created, "a", "a2", 16, MostRecent, 100, 110),
    (ToldPart::Created, "b", "b2", 18, MostRecent, 120, 130),
    (ToldPart::Created, "a", "a1", 19, MostRecent, 140, 150),
    (ToldPart::Removed, "a", "a1", 0, MostRecent, 160, 170),
];

/// Bodies that ask for whatever they were answered with.
struct AllRight;

impl Bodies for AllRight {
    ghost use Rattle.std.specs.Prelude.{true};

    ghost body = { λ bodies event before. true };

    fn is_right(
        &self,
        _alloc: Global,
        _event: u32,
        _before: Option<NodeId>,
    ) -> Result<bool, OutOfMemory> {
        Ok(true)
    }
}

// The versions: name, uid and revision, which event made each, and whether it is the first of its uid.
static VERSIONS: [(&str, &str, u64, Maker, bool); 6] = [
    ("a", "a1", 11, Maker::Event(0), true),
    ("a", "a1", 12, Maker::Event(1), true),
    ("b", "b1", 14, Maker::Event(4), true),
    ("a", "a2", 16, Maker::Event(5), true),
    ("b", "b2", 18, Maker::Event(6), true),
    ("a", "a1", 19, Maker::Event(7), false),
];

fn is_version(version: Option<&Version>, row: &(&str, &str, u64, Maker, bool)) -> bool {
    let (name, uid, number, maker, _) = *row;
    match version {
        Some(version) => {
            version.key.name.as_str() == name
                && version.uid.as_str() == uid
                && version.revision.get() == number
                && version.maker == maker
        }
        None => false,
    }
}

fn are_versions(versions: &[Version]) -> bool {
    for at in 0..6usize {
        if !is_version(versions.get(at), &VERSIONS[at]) {
            return false;
        }
    }
    versions.len() == 6
}

fn is_removed(removals: &[Removal], number: u64) -> bool {
    for removal in removals {
        if removal.last.get() == number {
            return true;
        }
    }
    false
}

// No removal is behind a version whose uid was there before another object's.
fn are_behind_firsts(removals: &[Removal]) -> bool {
    for (_, _, number, _, first) in &VERSIONS {
        if !*first && is_removed(removals, *number) {
            return false;
        }
    }
    true
}

// Events, and what speaks against their writes.
static JUDGED: [(u32, Option<Reason>); 7] = [
    (0, None),
    (2, None),
    (1, None),
    (4, None),
    (5, None),
    (6, Some(Reason::U4)),
    (7, Some(Reason::U4)),
];

fn is_judged(one: Option<&JudgedWrite>, row: &(u32, Option<Reason>)) -> bool {
    let (number, making) = *row;
    match one {
        Some(one) => one.number == number && one.making == making,
        None => false,
    }
}

fn are_judged(judged: &[JudgedWrite]) -> bool {
    for at in 0..7usize {
        if !is_judged(judged.get(at), &JUDGED[at]) {
            return false;
        }
    }
    judged.len() == 7
}

fn is_removal(removal: &Removal) -> bool {
    removal.last.get() == 12
        && removal.range.event == 3
        && removal.range.low == 13
        && removal.range.high == 13
}

fn is_one_removal(removals: &[Removal]) -> bool {
    match removals {
        [removal] => is_removal(removal),
        _ => false,
    }
}

fn past(rt: &(impl Abort + AllocGlobal)) -> LogPast {
    let events = log(rt, &LOG);
    let start = revision(rt, 10);
    let seed = Seed::of(b"");
    let past = past_of(rt.alloc(), &AllRight, start, &[], &events, seed).expect(rt, "memory");
    drop(events);
    past
}

/// The versions with their makers, what speaks against each write, and the removals with their ranges.
#[test]
fn past_of_a_log(rt: HostRuntime) {
    let past = past(&rt);
    check(&rt, are_versions(past.versions.as_slice()), "versions");
    let removals = past.removals.as_slice();
    check(&rt, are_behind_firsts(removals), "firsts");
    check(&rt, are_judged(&past.judged), "judged");
    check(&rt, is_one_removal(removals), "removals");
    drop(past);
}
