use crate::context_rows::{ROWS, Row, SEEN_EARLY};
use crate::reading::{assert_text, check, context};
use crate::setups::CHECKED;
use base_types::{ObjectKey, Revision};
use log_context::{Context, FirstUses};
use node_number::NodeId;
use std::marker::Sync;
use std::process::Abort;
use std::string::String;
use std::thread::Threads;

fn push(rt: &impl Abort, text: &mut String, more: &str) {
    text.push_str(more).expect(rt, "memory");
}

// The places from `low` to `high`, or all from `low` on, of a thing of this number.
fn append_places(rt: &impl Abort, text: &mut String, what: &str, number: u32, low: u64, high: u64) {
    write!(text, "{what} {number} at {low}..").expect(rt, "memory");
    if high < u64::MAX {
        write!(text, "{high}").expect(rt, "memory");
    }
}

// The versions, with their makers and the groups of their revisions.
fn append_versions(rt: &impl Abort, text: &mut String, context: &Context) {
    for version in context.versions() {
        let revision = version.revision;
        let group = context.group(revision);
        write!(text, "{} {:?} {:?}; ", revision.get(), version.maker, group).expect(rt, "memory");
    }
}

// The places that each removal may have.
fn append_removals(rt: &impl Abort, text: &mut String, context: &Context) {
    for range in context.ranges() {
        append_places(rt, text, "removal", range.event, range.low, range.high);
        push(rt, text, "; ");
    }
}

// The window and the fault of each event and checkpoint.
fn append_events(rt: &impl Abort, text: &mut String, context: &Context) {
    for event in 0..context.count() {
        let window = context.window(event);
        append_places(rt, text, "event", event, window.low, window.high);
        write!(text, " {:?}; ", context.fault(event)).expect(rt, "memory");
    }
}

// What is found of a log.
fn found(rt: &(impl Abort + AllocGlobal), context: &Context) -> String {
    let mut text = String::new(rt.alloc());
    append_versions(rt, &mut text, context);
    append_removals(rt, &mut text, context);
    append_events(rt, &mut text, context);
    text
}

fn check_row<R: Abort + AllocGlobal + Sync + Threads>(rt: &R, row: &Row) {
    let context = context(rt, row.setup, row.log, 1000).expect(rt, "room");
    let found = found(rt, &context);
    assert_text(rt, found.as_str(), row.found, row.name);
}

#[test]
fn what_is_found_of_logs(rt: HostRuntime) {
    for row in &ROWS {
        check_row(&rt, row);
    }
}

// What the readers of an object tell: its versions at two revisions, and the latest up to two places.
fn append_latest(
    rt: &impl Abort,
    text: &mut String,
    context: &Context,
    key: &ObjectKey,
    revisions: (Revision, Revision),
) {
    write!(
        text,
        "{} {}, {} {}, ",
        context.version(key, revisions.0).is_some(),
        context.version(key, revisions.1).is_some(),
        context.latest(key, 13).is_some(),
        context.latest(key, 15).is_some()
    )
    .expect(rt, "memory");
}

// The first object, and of a revision that nobody wrote its maker and its group.
fn append_object(rt: &impl Abort, text: &mut String, context: &Context) {
    let version = context.versions().first().expect(rt, "a version");
    let fifteen = Revision::new(15).expect(rt, "a revision");
    append_latest(rt, text, context, &version.key, (version.revision, fifteen));
    write!(
        text,
        "{}, {} {}; ",
        context.incarnations(&version.key).len(),
        context.maker(fifteen).is_some(),
        context.group(fifteen).len()
    )
    .expect(rt, "memory");
}

// The number of the first tree in an answer.
fn node(context: &Context, event: u32) -> Option<NodeId> {
    if event < context.count() {
        context.shown(event, 0)
    } else {
        None
    }
}

// The line, the name and the first tree's number of an event or checkpoint.
fn append_event(rt: &impl Abort, text: &mut String, context: &Context, event: u32) {
    if event < context.count() {
        let (line, name) = (context.line_of(event), context.name_of(event).as_str());
        write!(text, "{line} {name} {:?}; ", node(context, event)).expect(rt, "memory");
    }
}

// Of a write, of a read and of two checkpoints.
static NUMBERS: [u32; 4] = [0, 2, 4, 5];

// Which write could have made its object with no object before it, and after the first version.
fn append_faults(rt: &(impl Abort + AllocGlobal), text: &mut String, context: &Context) {
    let uses = FirstUses::of(rt.alloc(), context).expect(rt, "memory");
    let alone = context
        .making_fault(rt.alloc(), &uses, 0, None)
        .expect(rt, "memory");
    let first = context.versions().first();
    let again = context
        .making_fault(rt.alloc(), &uses, 0, first)
        .expect(rt, "memory");
    write!(text, "{alone:?} {again:?}, ").expect(rt, "memory");
}

// Whether a list has the first tree; and whether a decision that isn't judged is found.
fn append_judged(rt: &impl Abort, text: &mut String, context: &Context) {
    let tree = node(context, 0).expect(rt, "a tree");
    let is_listable = context.is_listable(2, tree).expect(rt, "memory");
    write!(
        text,
        "{is_listable}, {} {}",
        context.find_decision(2, 14, 20).is_some(),
        context.find_decision(2, 20, 14).is_some()
    )
    .expect(rt, "memory");
}

// What is known of an object, of events, and of what they could have done.
fn known_of(rt: &(impl Abort + AllocGlobal), context: &Context) -> String {
    let mut text = String::new(rt.alloc());
    append_object(rt, &mut text, context);
    for event in &NUMBERS {
        append_event(rt, &mut text, context, *event);
    }
    append_faults(rt, &mut text, context);
    append_judged(rt, &mut text, context);
    text
}

const KNOWN: &str =
    "true false, false true, 1, false 0; 1 a1 Some(NodeId(7)); 3 a3 Some(NodeId(7)); \
    1099511627777 checkpoint:1 None; 1099511627778 checkpoint:2 Some(NodeId(7)); None Some(U4), true, true false";

#[test]
fn what_is_known_of_a_log(rt: HostRuntime) {
    let context = context(&rt, CHECKED, SEEN_EARLY, 1000).expect(&rt, "room");
    let known = known_of(&rt, &context);
    assert_text(&rt, known.as_str(), KNOWN, "a log");
}

// How many values a pool of this size holds of a log, where it has room for all.
fn values_within<R: Abort + AllocGlobal + Sync + Threads>(rt: &R, limit: u32) -> Option<u32> {
    match context(rt, CHECKED, SEEN_EARLY, limit) {
        Some(context) => Some(context.pool().len()),
        None => None,
    }
}

#[test]
fn a_full_pool(rt: HostRuntime) {
    check(&rt, values_within(&rt, 8) == Some(8), "a pool of 8");
    check(&rt, values_within(&rt, 7).is_none(), "a pool of 7");
}
