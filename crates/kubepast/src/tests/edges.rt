// Reads and writes that fail, logs that break off, and input that is deep or long.

use crate::tests::answers::{Edge, expect, expect_row, reading, steady, writing};
use crate::tests::row::{log_of, put_told, setup_of, told, wanted_of};
use crate::tests::texts::{put, put_number, put_often, text_of};
use std::marker::Sync;
use std::process::Abort;
use std::thread::Threads;

/// An object created and seen.
pub const SEEN: &str = r#"row an object created and seen
event a1 create configmaps 01 02 201 new|a|x cm|a|A|11|x
event a2 get configmaps/a 03 04 200 - cm|a|A|11|x
tells explained 2
tells 1 made 11 none
tells 2 at 11 none
status 0"#;

// The program answers so to a row, where the desk and the sink behave so.
fn expect_at<R: Threads + Sync + Abort + AllocGlobal>(rt: &R, row: &str, edge: Edge, wanted: &str) {
    let log = log_of(rt, row);
    expect(rt, row, log.as_str(), edge, wanted);
}

/// The bytes of a row arrive in pieces of so many.
pub fn check_pieces<R: Threads + Sync + Abort + AllocGlobal>(rt: &R, row: &str, cut: usize) {
    let wanted = wanted_of(rt, row);
    expect_at(rt, row, reading(cut, 0), wanted.as_str());
}

// How many reads of 512 bytes find the end of so many bytes.
fn reads_to_end(bytes: usize) -> u64 {
    let whole = bytes.saturating_add(511) / 512;
    (whole as u64).saturating_add(1)
}

// How many reads of 512 bytes find the ends of all that the words of a row name. `make` reads nothing.
fn reads_of(rt: &(impl Abort + AllocGlobal), row: &str) -> u64 {
    if told(row, "words", "").starts_with("make") {
        return 0;
    }
    let setup = reads_to_end(setup_of(rt, row).len());
    let log = reads_to_end(log_of(rt, row).len());
    let placement = lines_of(rt, row, "places");
    let both = setup.saturating_add(log);
    if placement.is_empty() {
        both
    } else {
        both.saturating_add(reads_to_end(placement.len()))
    }
}

/// Each read of 512 bytes fails in turn, and then one that isn't made.
pub fn check_reads<R: Threads + Sync + Abort + AllocGlobal>(rt: &R, row: &str) {
    let reads = reads_of(rt, row);
    for call in 1..=reads {
        expect_at(rt, row, reading(512, call), "5 read fault\n");
    }
    let wanted = wanted_of(rt, row);
    let behind = reading(512, reads.saturating_add(1));
    expect_at(rt, row, behind, wanted.as_str());
}

// The rests of a row's lines with this word.
fn lines_of(rt: &(impl Abort + AllocGlobal), row: &str, word: &str) -> String {
    let mut lines = String::new(rt.alloc());
    put_told(rt, &mut lines, row, word);
    lines
}

// A write fails, and what was written before is left.
fn check_write<R: Threads + Sync + Abort + AllocGlobal>(rt: &R, row: &str, call: u64, front: &str) {
    let mut wanted = text_of(rt, "6 ");
    put(rt, &mut wanted, front);
    expect_at(rt, row, writing(7, call), wanted.as_str());
}

/// Each write fails in turn. It takes seven bytes of the text.
pub fn check_writes<R: Threads + Sync + Abort + AllocGlobal>(rt: &R, row: &str) {
    let text = lines_of(rt, row, "tells");
    let mut call = 0u64;
    for at in 0..text.len() {
        if at % 7 == 0 {
            let (front, _behind) = text.as_str().split_at_checked(at).expect(rt, "a place");
            call = call.saturating_add(1);
            check_write(rt, row, call, front);
        }
    }
}

/// The first so many rows of a table: each read fails in turn, and then each write.
pub fn check_faults<R: Threads + Sync + Abort + AllocGlobal>(rt: &R, table: &str, rows: usize) {
    for row in table.split("\n\n").take(rows) {
        check_reads(rt, row);
        check_writes(rt, row);
    }
}

// Whether a log that is cut into these two has whole lines before the cut, with or without the last newline.
fn are_lines(front: &str, behind: &str) -> bool {
    front.is_empty() || front.ends_with('\n') || behind.starts_with('\n')
}

// Puts the first so many lines behind the line that counts them.
fn put_lines(rt: &impl Abort, answer: &mut String, tells: &str, count: usize) {
    for (at, line) in tells.lines().enumerate() {
        if 0 < at && at <= count {
            put(rt, answer, line);
            put(rt, answer, "\n");
        }
    }
}

// The answer to the front of an explained log, of which all lines have this answer.
fn cut_answer(rt: &(impl Abort + AllocGlobal), tells: &str, front: &str, whole: bool) -> String {
    let count = front.lines().count();
    let mut answer = text_of(
        rt,
        if whole {
            "0 explained "
        } else {
            "4 malformed "
        },
    );
    put_number(rt, &mut answer, count);
    if whole {
        put(rt, &mut answer, "\n");
        put_lines(rt, &mut answer, tells, count);
    } else {
        put(rt, &mut answer, " M1\n");
    }
    answer
}

fn check_cut<R: Threads + Sync + Abort + AllocGlobal>(
    rt: &R,
    row: &str,
    tells: &str,
    front: &str,
    whole: bool,
) {
    let wanted = cut_answer(rt, tells, front, whole);
    expect(rt, row, front, steady(), wanted.as_str());
}

/// The log of an explained row is cut behind each seventh byte, and before and behind each newline.
pub fn cut_logs<R: Threads + Sync + Abort + AllocGlobal>(rt: &R, row: &str) {
    let log = log_of(rt, row);
    let tells = lines_of(rt, row, "tells");
    for at in 0..=log.len() {
        let (front, behind) = log.as_str().split_at_checked(at).expect(rt, "a place");
        let whole = are_lines(front, behind);
        if whole || at % 7 == 0 {
            check_cut(rt, row, tells.as_str(), front, whole);
        }
    }
}

/// The setup of a row is cut at each byte. It has the name of the log here, of which nothing is read then.
pub fn cut_setup<R: Threads + Sync + Abort + AllocGlobal>(rt: &R, row: &str) {
    let setup = setup_of(rt, row);
    for at in 0..setup.len() {
        let (front, _behind) = setup.as_str().split_at_checked(at).expect(rt, "a place");
        expect(rt, "words judge l s", front, steady(), "3 setup S1\n");
    }
}

// A row that checks what has the name of the log as a placement of the row's log, which has the placement's name.
fn exchanged(rt: &(impl Abort + AllocGlobal), row: &str) -> String {
    let mut other = text_of(rt, "words verify s p l\n");
    put(rt, &mut other, row);
    let log = log_of(rt, row);
    for line in log.lines() {
        put(rt, &mut other, "\nplaces ");
        put(rt, &mut other, line);
    }
    other
}

/// The placement of an explained row is cut at each byte, and refused at the line that breaks off or is missing.
pub fn cut_placement<R: Threads + Sync + Abort + AllocGlobal>(rt: &R, row: &str) {
    let other = exchanged(rt, row);
    let placement = lines_of(rt, row, "tells");
    for at in 0..placement.len() {
        let (front, _behind) = placement
            .as_str()
            .split_at_checked(at)
            .expect(rt, "a place");
        let mut wanted = text_of(rt, "4 placement ");
        put_number(rt, &mut wanted, front.split('\n').count());
        put(rt, &mut wanted, "\n");
        expect(rt, other.as_str(), front, steady(), wanted.as_str());
    }
    expect(
        rt,
        other.as_str(),
        placement.as_str(),
        steady(),
        "0 holds\n",
    );
}

/// A log whose second line goes on with a request.
pub const REQUESTED: &str = r#"event a1 create configmaps 01 02 201 new|a|x cm|a|A|11|x
event a2 get configmaps/a 03 04 200 - cm|a|A|11|x "requestObject":"#;

/// A setup whose snapshot has an object that goes on.
pub const HELD: &str =
    r#"holds /configmaps {"kind":"ConfigMap","apiVersion":"v1","metadata":{"name":"a","namespace":"d","uid":"A","resourceVersion":"9"},"data":{"k":"x","n":"#;

/// A row has lists within lists, so many.
pub fn check_deep<R: Threads + Sync + Abort + AllocGlobal>(
    rt: &R,
    front: &str,
    depth: usize,
    behind: &str,
) {
    let mut row = text_of(rt, front);
    put_often(rt, &mut row, "[", depth);
    put_often(rt, &mut row, "]", depth);
    put(rt, &mut row, behind);
    expect_row(rt, row.as_str());
}

/// The last line of a log.
pub const LAST_EVENT: &str = "\nevent a2 get configmaps/a 03 04 200 - cm|a|A|11|x";

/// A placement that lacks its last line.
pub const PLACED: &str = r#"words verify s l p
event a1 create configmaps 01 02 201 new|a|x cm|a|A|11|x
event a2 get configmaps/a 03 04 200 - cm|a|A|11|x
places explained 2
places 1 made 11 none
tells placement 4
status 4"#;

/// That line, which may stand there once.
pub const LAST_PLACED: &str = "\nplaces 2 at 11 none";

/// A line stands in a row many times more.
pub fn check_repeated<R: Threads + Sync + Abort + AllocGlobal>(rt: &R, front: &str, line: &str) {
    let mut row = text_of(rt, front);
    put_often(rt, &mut row, line, 1_000);
    expect_row(rt, row.as_str());
}

/// A refusal goes before the fault of a later read. The setup takes two reads, and the log more than two.
pub fn check_refusal_before_fault<R: Threads + Sync + Abort + AllocGlobal>(rt: &R) {
    let mut log = text_of(rt, "x\n");
    put_often(rt, &mut log, " ", 200_000);
    let fourth = reading(65_536, 4);
    expect(rt, "", log.as_str(), fourth, "4 malformed 1 M1\n");
}

/// A line is longer than a line may be.
pub fn a_line_too_long<R: Threads + Sync + Abort + AllocGlobal>(rt: &R) {
    let mut line = String::new(rt.alloc());
    put_often(rt, &mut line, "x", 16_777_217);
    expect(rt, "", line.as_str(), steady(), "7 limit line\n");
}
