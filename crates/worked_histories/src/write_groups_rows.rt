ghost use Rattle.std.specs.Prelude.{◌≡◌, ◌<◌, ◌^◌, length, All, AllPairs};

use crate::parts::{Asked, Row, ToldPart, check, event, key, log, revision};
use Asked::{AnyVersion, Checkpoint, Exactly, MostRecent, NotOlderThan};
use base_types::{Moment, Revision};
use std::process::Abort;
use time_windows::{Span, Windows};
use write_groups::{
    Group, Groups, Hidden, LogEvent, Window, groups_of, highest, lowest, order_of, spans_of,
    window_of,
};

// Revision 11 belongs to `a`, whose unrecorded write may have begun before; `b` was answered with it too. Revision 12
// was created, and revision 13 replaced 12. Three ends are equal. The checkpoints have no time.
static LOG: [Row; 10] = [
    (ToldPart::Updated, "a", "a", 11, MostRecent, 100, 130),
    (ToldPart::Unseen, "a", "", 0, MostRecent, 50, 500),
    (ToldPart::Created, "b", "b", 12, MostRecent, 120, 140),
    (ToldPart::Updated, "b", "b", 11, MostRecent, 90, 140),
    (ToldPart::Updated, "a", "a", 11, MostRecent, 80, 160),
    (ToldPart::Unseen, "b", "", 0, MostRecent, 10, 140),
    (ToldPart::Updated, "a", "a", 10, MostRecent, 0, 20),
    (ToldPart::Replaced(12), "b", "b", 13, MostRecent, 150, 170),
    (ToldPart::Nothing, "", "", 0, Checkpoint(13), 0, 0),
    (ToldPart::Nothing, "", "", 0, Checkpoint(12), 0, 0),
];

// The events in the order of judgement.
static ORDER: [u32; 10] = [6, 0, 2, 3, 5, 4, 7, 1, 8, 9];

fn groups(rt: &(impl Abort + AllocGlobal), start: Revision, events: &[LogEvent]) -> Groups
    requires few { length events.now < 2 ^ 32 }
    requires lines { AllPairs (λ a b. a.line < b.line) events.now }
    ensures rising { AllPairs (λ a b. a.revision < b.revision) result }
    ensures above { All (λ group. start < group.revision) result }
{
    let order = order_of(rt.alloc(), events).expect(rt, "memory");
    check(rt, order.as_slice() == ORDER.as_slice(), "order");
    let groups = groups_of(rt.alloc(), start, events, &order).expect(rt, "memory");
    drop(order);
    groups
}

// Revisions, each with the object's name and the events of its group.
static GROUPS: [(u64, &str, &[u32]); 3] = [(11, "a", &[0, 4]), (12, "b", &[2]), (13, "b", &[7])];

fn is_group(group: Option<&Group>, row: &(u64, &str, &[u32])) -> bool {
    let (number, name, members) = *row;
    match group {
        Some(group) => {
            group.revision.get() == number
                && group.key.name.as_str() == name
                && group.members.as_slice() == members
        }
        None => false,
    }
}

fn are_groups(groups: &[Group]) -> bool {
    for at in 0..3usize {
        if !is_group(groups.get(at), &GROUPS[at]) {
            return false;
        }
    }
    groups.len() == 3
}

// Revisions, each with the moments between which it was written.
static TIMES: [(u64, i128, i128); 3] = [(11, 50, 130), (12, 120, 140), (13, 150, 170)];

fn is_span(span: Option<&Span>, row: &(u64, i128, i128)) -> bool {
    let (number, lo, hi) = *row;
    match span {
        Some(span) => span.revision.get() == number && span.lo.0 == lo && span.hi.0 == hi,
        None => false,
    }
}

fn are_spans(spans: &[Span]) -> bool {
    for at in 0..3usize {
        if !is_span(spans.get(at), &TIMES[at]) {
            return false;
        }
    }
    spans.len() == 3
}

fn windows(
    rt: &(impl Abort + AllocGlobal),
    start: Revision,
    events: &[LogEvent],
    groups: &[Group],
) -> Windows
    requires rising { AllPairs (λ a b. a.revision < b.revision) groups.now }
    requires above { All (λ group. start < group.revision) groups.now }
    ensures { result.start ≡ start }
{
    let spans = spans_of(rt.alloc(), start, events, groups).expect(rt, "memory");
    check(rt, are_spans(&spans), "times");
    let windows = Windows::build(rt.alloc(), start, &spans).expect(rt, "memory");
    drop(spans);
    windows
}

// Readings, each with its window.
static WINDOWS: [(Asked, u64, u64); 8] = [
    (MostRecent, 11, 12),
    (AnyVersion, 10, 12),
    (NotOlderThan(12), 12, 12),
    (NotOlderThan(9), 10, 12),
    (Exactly(12), 12, 12),
    (Exactly(13), 1, 0),
    (Exactly(9), 1, 0),
    (Checkpoint(13), 13, 13),
];

// The window of an event from 135 to 145: revision 11 had been written, revision 13 had not begun.
fn is_window(
    rt: &(impl Abort + AllocGlobal),
    windows: &Windows,
    start: Revision,
    row: &(Asked, u64, u64),
) -> bool
    requires { windows.now.start ≡ start }
{
    let (asked, low, high) = *row;
    let event = event(rt, 1, &(ToldPart::Unseen, "a", "", 0, asked, 135, 145));
    let window = window_of(windows, start, &event);
    drop(event);
    window == Window { low, high }
}

fn check_windows(rt: &(impl Abort + AllocGlobal), windows: &Windows, start: Revision)
    requires { windows.now.start ≡ start }
{
    for row in &WINDOWS {
        check(rt, is_window(rt, windows, start, row), "a window");
    }
    check(rt, lowest(windows, Moment(130)) == 10, "the lowest");
    check(rt, highest(windows, Moment(150)) == u64::MAX, "the highest");
}

// Names, and when the first unrecorded write of each may have begun.
static SINCE: [(&str, Option<Moment>); 3] = [
    ("a", Some(Moment(50))),
    ("b", Some(Moment(10))),
    ("c", None),
];

fn is_since(
    rt: &(impl Abort + AllocGlobal),
    hidden: &Hidden,
    row: &(&str, Option<Moment>),
) -> bool {
    let (name, wanted) = *row;
    let key = key(rt, "configmaps", name);
    let since = hidden.since(&key);
    drop(key);
    since == wanted
}

fn check_hidden(rt: &(impl Abort + AllocGlobal), events: &[LogEvent]) {
    let hidden = Hidden::build(rt.alloc(), events).expect(rt, "memory");
    for row in &SINCE {
        check(rt, is_since(rt, &hidden, row), row.0);
    }
    drop(hidden);
}

/// The events in the order of judgement, the groups of the revisions, when each was written, the windows of readings,
/// and when unrecorded writes may have begun.
#[test]
fn groups_of_a_log(rt: HostRuntime) {
    let start = revision(&rt, 10);
    let events = log(&rt, &LOG);
    let groups = groups(&rt, start, &events);
    check(&rt, are_groups(groups.as_slice()), "groups");
    let windows = windows(&rt, start, &events, groups.as_slice());
    drop(groups);
    check_hidden(&rt, &events);
    drop(events);
    check_windows(&rt, &windows, start);
    drop(windows);
}
