ghost use Rattle.std.specs.Prelude.{◌≡◌, vec_len};

use crate::gates::{Meeting, Roll};
use crate::given::{assert_so, bytes_of};
use batch_decode::{DecodedList, decode_all};
use judge_pool::{FreeGate, Gate};
use line_reader::Line;
use std::marker::Sync;
use std::process::Abort;
use std::thread::Threads;

const LINES: u32 = 8_192;

fn line_of(rt: &(impl Abort + AllocGlobal), number: u64, text: &str) -> Line {
    Line {
        number,
        bytes: bytes_of(rt, text),
    }
}

// So many lines, each an empty EventList of no API.
fn lines_of(rt: &(impl Abort + AllocGlobal), count: u32) -> Vec<Line>
    ensures { vec_len result ≡ count }
{
    let mut lines = Vec::new(rt.alloc());
    for number in 0..count {
        let line = line_of(rt, number as u64 + 1, "{\"items\":[]}");
        lines.push(line).expect(rt, "memory");
    }
    lines
}

// How many of so many lines are decoded.
fn count_decoded(
    rt: &(impl Abort + AllocGlobal + Threads + Sync),
    count: u32,
    gate: &impl Gate,
) -> usize {
    let lines = lines_of(rt, count);
    let decoded = decode_all(rt, rt.alloc(), lines.as_slice(), gate);
    drop(lines);
    decoded.expect(rt, "memory").len()
}

#[test]
fn two_lines_are_decoded_at_once(rt: HostRuntime) {
    let gate = Meeting::of(LINES);
    assert_so(&rt, count_decoded(&rt, LINES, &gate) == 8_192, "all lines");
    assert_so(&rt, gate.has_met(), "at once");
}

fn check_roll(rt: &(impl Abort + AllocGlobal + Threads + Sync), count: u32) {
    let gate = Roll::of(rt, count);
    let found = count_decoded(rt, count, &gate);
    assert_so(rt, found == count as usize, "all lines");
    assert_so(rt, gate.is_once_each(), "each once");
}

#[test]
fn each_line_enters_the_gate_once(rt: HostRuntime) {
    for count in [0, 1, LINES] {
        check_roll(&rt, count);
    }
}

// A line that is no JSON, a list of two items, and an object.
static TEXTS: [&str; 3] = [
    "x",
    r#"{"kind":"EventList","apiVersion":"audit.k8s.io/v1","items":[1,2]}"#,
    "{}",
];

fn lines_of_texts(rt: &(impl Abort + AllocGlobal)) -> Vec<Line> {
    let mut lines = Vec::new(rt.alloc());
    for text in &TEXTS {
        let line = line_of(rt, 1, text);
        lines.push(line).expect(rt, "memory");
    }
    lines
}

fn decoded_texts(rt: &(impl Abort + AllocGlobal + Threads + Sync)) -> DecodedList {
    let lines = lines_of_texts(rt);
    assert!(rt; lines.len() == 3);
    let decoded = decode_all(rt, rt.alloc(), lines.as_slice(), &FreeGate);
    drop(lines);
    decoded.expect(rt, "memory")
}

#[test]
fn lines_come_in_order(rt: HostRuntime) {
    let decoded = decoded_texts(&rt);
    match decoded.as_slice() {
        [x, list, object] => {
            assert_so(&rt, x.taken == 1, "no JSON");
            assert_so(&rt, list.taken == 2, "a list");
            assert_so(&rt, object.taken == 1, "an object");
        }
        _ => panic!(rt; "not three lines"),
    }
    drop(decoded);
}
