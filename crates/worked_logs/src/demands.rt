ghost use Rattle.std.specs.Prelude.{◌<◌, length};

use crate::claim_rows::{ROWS, Row};
use crate::reading::{assert_text, check, context};
use base_types::{Bound, PlacedAnswer};
use context_claims::{claim, decision_window, place};
use log_context::Context;
use std::marker::Sync;
use std::process::Abort;
use std::string::String;
use std::thread::Threads;

fn append_bounds(rt: &impl Abort, text: &mut String, bounds: &[Bound]) {
    for bound in bounds {
        write!(
            text,
            "{} from {} to {} ",
            bound.range, bound.low, bound.high
        )
        .expect(rt, "memory");
    }
}

// What an event or checkpoint asks.
fn append_claim(rt: &(impl Abort + AllocGlobal), text: &mut String, context: &Context, event: u32)
    requires { event < length context.now.log }
{
    let claim = claim(rt.alloc(), context, event).expect(rt, "memory");
    write!(text, "{:?} ", claim.fails).expect(rt, "memory");
    append_bounds(rt, text, claim.bounds.as_slice());
}

// Where the answer stands, where the one removal has this place.
fn answer(
    rt: &(impl Abort + AllocGlobal),
    context: &Context,
    event: u32,
    chosen: u64,
) -> Option<PlacedAnswer>
    requires { event < length context.now.log }
{
    match place(rt.alloc(), context, event, &[chosen]).expect(rt, "memory") {
        Some(line) => Some(line.answer),
        None => None,
    }
}

// What each event and checkpoint asks, and where its answer stands.
fn found(rt: &(impl Abort + AllocGlobal), context: &Context, chosen: u64) -> String {
    let mut text = String::new(rt.alloc());
    for event in 0..context.count() {
        append_claim(rt, &mut text, context, event);
        write!(text, "{:?}; ", answer(rt, context, event, chosen)).expect(rt, "memory");
    }
    text
}

fn check_row<R: Abort + AllocGlobal + Sync + Threads>(rt: &R, row: &Row) {
    let context = context(rt, row.setup, row.log, 1000).expect(rt, "room");
    let found = found(rt, &context, row.place);
    assert_text(rt, found.as_str(), row.found, row.name);
}

#[test]
fn claims_of_logs(rt: HostRuntime) {
    for row in &ROWS {
        check_row(&rt, row);
    }
}

/// The places at which an authorizer's caches may be for the first decision of the last row.
#[test]
fn the_window_of_a_decision(rt: HostRuntime) {
    let row = ROWS.last().expect(&rt, "a row");
    let context = context(&rt, row.setup, row.log, 1000).expect(&rt, "room");
    if context.count() == 0 {
        panic!(rt; "no event");
    }
    let window = decision_window(&context, 0);
    check(&rt, window.low == 10, "the lowest");
    check(&rt, window.high == u64::MAX, "the highest");
}
