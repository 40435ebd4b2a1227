ghost use Rattle.std.specs.Prelude.{◌≡◌, ◌<◌, length};

use crate::gates::Roll;
use crate::given::{assert_so, assert_text, bytes_of, push, spelled};
use audit_event::Events;
use base_types::Text;
use edge_io::{InputFile, InputFiles, MemoryDesk};
use hash_seed::Seed;
use judge_pool::{FreeGate, Gate};
use log_intake::{LogStop, SetupStop, read_log, read_setup_named};
use std::marker::Sync;
use std::process::Abort;
use std::thread::Threads;

// Rows of how many events are read and the number of the last, or why none are, and then the log.
const ROWS: &str = r#"0 0

2 2
HEAD"auditID":"a",REST
HEAD"auditID":"b",REST

1 2
BLANK
HEAD"auditID":"a",REST

2 3
HEAD"auditID":"a",REST
HEAD"auditID":"a",REST
HEAD"auditID":"b",REST

Malformed { line: 2, code: M12 }
HEAD"auditID":"a",REST
HEAD"auditID":"a","responseStatus":{"code":404},REST
x

Malformed { line: 2, code: M1 }
HEAD"auditID":"a",REST
HEAD"auditID":"b",

3 3
LIST{"auditID":"a",REST,{"auditID":"b",REST]}
HEAD"auditID":"c",REST

Malformed { line: 2, code: M9 }
LIST{"auditID":"a",REST,{"auditID":"b",NO_VERB]}

Malformed { line: 3, code: M1 }
LIST]}
BLANK
x"#;

fn buffer_of(rt: &(impl Abort + AllocGlobal)) -> Vec<u8>
    ensures { length result.items ≡ 65536 }
{
    let buffer = vec![in rt.alloc(); 0u8; 65_536];
    buffer.expect(rt, "memory")
}

fn files_of(rt: &(impl Abort + AllocGlobal), text: &str) -> InputFiles {
    let mut files = InputFiles::new(rt.alloc());
    let file = InputFile {
        name: Text::from_str(rt.alloc(), "f").expect(rt, "memory"),
        bytes: bytes_of(rt, text),
    };
    files.push(file).expect(rt, "memory");
    files
}

// A desk of one file, `f`.
fn desk_of(rt: &(impl Abort + AllocGlobal), text: &str, cut: usize, failing: &[u64]) -> MemoryDesk
    requires { 0 < cut }
{
    let files = files_of(rt, text);
    MemoryDesk::new(rt.alloc(), files, cut, failing).expect(rt, "memory")
}

fn read(
    rt: &(impl Abort + AllocGlobal + Threads + Sync),
    log: &str,
    cut: usize,
    failing: &[u64],
    gate: &impl Gate,
) -> Result<Events, LogStop>
    requires { 0 < cut }
{
    let mut desk = desk_of(rt, log, cut, failing);
    let mut buffer = buffer_of(rt);
    let seed = Seed::of(b"");
    let answer = read_log(rt, rt.alloc(), &mut desk, "f", &mut buffer, seed, gate);
    drop(desk);
    answer
}

fn last_line(events: &Events) -> u64 {
    match events.as_slice() {
        [] => 0,
        [.., event] => event.line,
    }
}

fn events_text(rt: &(impl Abort + AllocGlobal), events: &Events) -> String {
    let (count, line) = (events.len(), last_line(events));
    format!(in rt.alloc(); "{count} {line}").expect(rt, "memory")
}

fn stop_text(rt: &(impl Abort + AllocGlobal), stop: LogStop) -> String {
    format!(in rt.alloc(); "{stop:?}").expect(rt, "memory")
}

fn answer_text(rt: &(impl Abort + AllocGlobal), answer: &Result<Events, LogStop>) -> String {
    match answer {
        Ok(events) => events_text(rt, events),
        Err(stop) => stop_text(rt, *stop),
    }
}

// Compares what reading a log tells.
fn check_log(
    rt: &(impl Abort + AllocGlobal + Threads + Sync),
    log: &str,
    cut: usize,
    failing: &[u64],
    wanted: &str,
)
    requires { 0 < cut }
{
    let answer = read(rt, log, cut, failing, &FreeGate);
    let text = answer_text(rt, &answer);
    drop(answer);
    assert_text(rt, text.as_str(), wanted);
}

// Compares what a row's log tells, however its bytes arrive.
fn check_row(rt: &(impl Abort + AllocGlobal + Threads + Sync), row: &str) {
    let (wanted, log) = row.split_once('\n').unwrap_or((row, ""));
    let log = spelled(rt, log);
    check_log(rt, log.as_str(), 65_536, &[], wanted);
    check_log(rt, log.as_str(), 7, &[], wanted);
}

#[test]
fn logs(rt: HostRuntime) {
    for row in ROWS.split("\n\n") {
        check_row(&rt, row);
    }
}

#[test]
fn failing_reads(rt: HostRuntime) {
    // All bytes come with the first read, and the second one finds the end. A refusal goes before a fault behind it.
    check_log(&rt, " ", 8, &[1], "ReadFault");
    check_log(&rt, " ", 8, &[2], "ReadFault");
    check_log(&rt, " ", 8, &[3], "0 0");
    let refused = "Malformed { line: 1, code: M1 }";
    check_log(&rt, "x\n      ", 4, &[2], refused);
}

// Puts so many lines behind a log, each an empty EventList.
fn put_lists(rt: &(impl Abort + AllocGlobal), log: &mut String, count: u32) {
    let line = spelled(rt, "LIST]}\n");
    for _ in 0..count {
        push(rt, log, line.as_str());
    }
}

// Enough lines that several threads decode a batch of them.
const LINES: u32 = 300;

#[test]
fn batches_of_many_lines(rt: HostRuntime) {
    let mut log = String::new(rt.alloc());
    put_lists(&rt, &mut log, LINES);
    check_log(&rt, log.as_str(), 65_536, &[], "0 0");
    // Of two lines that are refused, the first one counts.
    push(&rt, &mut log, "x\n");
    put_lists(&rt, &mut log, 2 * LINES);
    push(&rt, &mut log, "x");
    check_log(
        &rt,
        log.as_str(),
        65_536,
        &[],
        "Malformed { line: 301, code: M1 }",
    );
}

// So much of a line of spaces, which is no event.
const SPACES: &str = "                                                                ";

// So many of them are 20 reads of 65,536 bytes, and with any byte in front of them a batch is full.
const SPACES_OF_A_BATCH: u32 = 20_480;

// Rows as in `ROWS`. `FILL` stands for the spaces of a batch: what is in front of it comes with one batch, and what is
// behind it with the next.
const BATCHES: &str = r#"2 4
HEAD"auditID":"a",REST
FILL
HEAD"auditID":"a",REST
HEAD"auditID":"b",REST

3 5
HEAD"auditID":"a",REST
FILL
HEAD"auditID":"b",REST
FILL
HEAD"auditID":"c",REST

Malformed { line: 3, code: M12 }
HEAD"auditID":"a",REST
FILL
HEAD"auditID":"a","responseStatus":{"code":404},REST

Malformed { line: 1, code: M1 }
x
FILL
x"#;

fn put_spaces(rt: &impl Abort, log: &mut String) {
    for _ in 0..SPACES_OF_A_BATCH {
        push(rt, log, SPACES);
    }
}

// A log of several batches.
fn filled(rt: &(impl Abort + AllocGlobal), text: &str) -> String {
    let text = spelled(rt, text);
    let mut log = String::new(rt.alloc());
    for (number, part) in text.as_str().split("FILL").enumerate() {
        if number > 0 {
            put_spaces(rt, &mut log);
        }
        push(rt, &mut log, part);
    }
    log
}

fn check_filled(
    rt: &(impl Abort + AllocGlobal + Threads + Sync),
    text: &str,
    failing: &[u64],
    wanted: &str,
) {
    let log = filled(rt, text);
    check_log(rt, log.as_str(), 65_536, failing, wanted);
}

#[test]
fn batches_in_order(rt: HostRuntime) {
    for row in BATCHES.split("\n\n") {
        let (wanted, log) = row.split_once('\n').unwrap_or((row, ""));
        check_filled(&rt, log, &[], wanted);
    }
}

#[test]
fn failing_reads_of_batches(rt: HostRuntime) {
    let refused = "Malformed { line: 1, code: M1 }";
    let refused_behind = "Malformed { line: 3, code: M1 }";
    // The first read of the second batch fails.
    check_filled(&rt, "x\nFILL\n", &[21], refused);
    check_filled(&rt, "LIST]}\nFILL\nx", &[21], "ReadFault");
    // One behind lines of the second batch fails, and the first one of the third batch.
    check_filled(&rt, "LIST]}\nFILL\nx\n", &[22], refused_behind);
    check_filled(&rt, "LIST]}\nFILL\nLIST]}\n", &[22], "ReadFault");
    check_filled(&rt, "LIST]}\nFILL\nx\nFILL\n", &[41], refused_behind);
}

#[test]
fn each_line_of_a_batch_enters_once(rt: HostRuntime) {
    let mut log = String::new(rt.alloc());
    put_lists(&rt, &mut log, LINES);
    let gate = Roll::of(&rt, LINES);
    let answer = read(&rt, log.as_str(), 65_536, &[], &gate);
    assert_so(&rt, answer.is_ok(), "no line is refused");
    drop(answer);
    assert_so(&rt, gate.is_once_each(), "each once");
}

// Batches of three lines, of two and of one.
const BATCHES_OF_LISTS: &str = "LIST]}\nLIST]}\nLIST]}\nFILL\nLIST]}\nLIST]}\nFILL\nLIST]}";

#[test]
fn each_line_of_every_batch_enters(rt: HostRuntime) {
    let log = filled(&rt, BATCHES_OF_LISTS);
    let gate = Roll::of(&rt, 4);
    let answer = read(&rt, log.as_str(), 65_536, &[], &gate);
    assert_so(&rt, answer.is_ok(), "no line is refused");
    drop(answer);
    // A line enters by its index in its batch.
    for (number, times) in [(0, 3), (1, 2), (2, 1), (3, 0)] {
        assert_so(&rt, gate.times(number) == times, "once in each batch");
    }
}

const SETUP: &str =
    r#"{"kind":"PastSetup","version":1,"start":{"revision":"10","time":"2024-05-01T10:00:00Z"},"policy":{"apiVersion":"audit.k8s.io/v1","kind":"Policy","rules":[]},"resources":[],"snapshot":[]}"#;

// Why there is no setup, where there is none.
fn stop_of(
    rt: &(impl Abort + AllocGlobal),
    setup: &str,
    cut: usize,
    failing: &[u64],
) -> Option<SetupStop>
    requires { 0 < cut }
{
    let mut desk = desk_of(rt, setup, cut, failing);
    let mut buffer = buffer_of(rt);
    let stop = read_setup_named(rt.alloc(), &mut desk, "f", &mut buffer).err();
    drop(desk);
    stop
}

// Compares why there is no setup; the empty text where there is one.
fn check_setup(
    rt: &(impl Abort + AllocGlobal),
    setup: &str,
    cut: usize,
    failing: &[u64],
    wanted: &str,
)
    requires { 0 < cut }
{
    let text = match stop_of(rt, setup, cut, failing) {
        Some(stop) => format!(in rt.alloc(); "{stop:?}").expect(rt, "memory"),
        None => String::new(rt.alloc()),
    };
    assert_text(rt, text.as_str(), wanted);
}

#[test]
fn setups(rt: HostRuntime) {
    check_setup(&rt, SETUP, 65_536, &[], "");
    check_setup(&rt, SETUP, 7, &[], "");
    check_setup(&rt, "x", 8, &[], "Rule(S1)");
    check_setup(&rt, "x", 8, &[2], "ReadFault");
}
