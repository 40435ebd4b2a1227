// A gate that shows two at work at once.

use crate::tests::answers::{answer_of, steady};
use crate::tests::row::log_of;
use crate::tests::texts::{put, put_number};
use judge_pool::Gate;
use std::marker::Sync;
use std::process::Abort;
use std::sync::atomic::{AtomicBool, Ordering};
use std::thread::Threads;

const EVENTS: usize = 8_192;

const TURNS: u32 = 2_000_000_000;

/// Holds whoever comes first until a second one comes, and gives up after `TURNS` looks.
#[derive(Drop)]
struct Meeting {
    first: AtomicBool,
    second: AtomicBool,
    met: AtomicBool,
}

impl Meeting {
    fn new() -> Meeting {
        Meeting {
            first: AtomicBool::new(false),
            second: AtomicBool::new(false),
            met: AtomicBool::new(false),
        }
    }

    fn has_met(&self) -> bool {
        self.met.load(Ordering::SeqCst)
    }
}

impl Gate for Meeting {
    ghost is_entered = { λ _ _. Unit {0} };

    fn enter(&self, _event: u32) {
        if self.first.swap(true, Ordering::SeqCst) {
            self.second.store(true, Ordering::SeqCst);
            return;
        }
        for _ in 0..TURNS {
            if self.second.load(Ordering::SeqCst) {
                self.met.store(true, Ordering::SeqCst);
                return;
            }
        }
    }
}

// A row of that many events.
fn crowd_of(rt: &(impl Abort + AllocGlobal)) -> String {
    let mut row = String::new(rt.alloc());
    for number in 0..EVENTS {
        put(rt, &mut row, "event a");
        put_number(rt, &mut row, number);
        put(
            rt,
            &mut row,
            " get configmaps/a 01 02 404 - no|a|NotFound|404\n",
        );
    }
    row
}

fn is_explained<R: Threads + Sync + Abort + AllocGlobal>(
    rt: &R,
    row: &str,
    events: &Meeting,
    lines: &Meeting,
) -> bool {
    let log = log_of(rt, row);
    let answer = answer_of(rt, row, log.as_str(), steady(), events, lines);
    answer
        .as_str()
        .starts_with("0 explained 8192\n1 at 10 none\n")
}

/// Two lines are decoded at once, and of two events the claims are taken at once.
pub fn two_lines_and_two_events_at_once<R: Threads + Sync + Abort + AllocGlobal>(rt: &R) {
    let events = Meeting::new();
    let lines = Meeting::new();
    let row = crowd_of(rt);
    assert!(rt; is_explained(rt, row.as_str(), &events, &lines));
    assert!(rt; events.has_met() && lines.has_met());
    drop(lines);
    drop(events);
}
