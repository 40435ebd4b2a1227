// What the program answers to rows.

use crate::run::run;
use crate::tests::row::{log_of, put_told, setup_of, told, wanted_of};
use crate::tests::texts::{put, put_number, text_of};
use base_types::{Bytes, Text};
use edge_io::{InputFile, InputFiles, MemoryDesk, MemorySink};
use judge_pool::{FreeGate, Gate};
use std::marker::Sync;
use std::process::Abort;
use std::str;
use std::thread::Threads;

/// How the desk and the sink of a call behave: how much a call takes, and which one fails, where it isn't 0.
#[derive(Clone, Copy)]
pub struct Edge {
    read_cut: usize,
    failing_read: u64,
    write_cut: usize,
    failing_write: u64,
}

pub fn steady() -> Edge {
    reading(65_536, 0)
}

pub fn reading(cut: usize, failing: u64) -> Edge {
    Edge {
        read_cut: cut,
        failing_read: failing,
        write_cut: 65_536,
        failing_write: 0,
    }
}

pub fn writing(cut: usize, failing: u64) -> Edge {
    Edge {
        read_cut: 65_536,
        failing_read: 0,
        write_cut: cut,
        failing_write: failing,
    }
}

fn words_of(rt: &(impl Abort + AllocGlobal), row: &str) -> Vec<String> {
    let mut words = Vec::new(rt.alloc());
    for word in told(row, "words", "judge s l").split(' ') {
        if !word.is_empty() {
            words.push(text_of(rt, word)).expect(rt, "memory");
        }
    }
    words
}

fn add_file(rt: &(impl Abort + AllocGlobal), files: &mut InputFiles, name: &str, text: String) {
    let file = InputFile {
        name: Text::from_str(rt.alloc(), name).expect(rt, "memory"),
        bytes: Bytes::from_vec(text.into_bytes()),
    };
    files.push(file).expect(rt, "memory");
}

fn placement_of(rt: &(impl Abort + AllocGlobal), row: &str) -> String {
    let mut placement = String::new(rt.alloc());
    put_told(rt, &mut placement, row, "places");
    placement
}

// The setup and the placement of a row, and a log.
fn desk_of(rt: &(impl Abort + AllocGlobal), row: &str, log: &str, edge: Edge) -> MemoryDesk {
    let mut files = InputFiles::new(rt.alloc());
    add_file(rt, &mut files, "s", setup_of(rt, row));
    add_file(rt, &mut files, "l", text_of(rt, log));
    add_file(rt, &mut files, "p", placement_of(rt, row));
    let cut = edge.read_cut.max(1);
    MemoryDesk::new(rt.alloc(), files, cut, &[edge.failing_read]).expect(rt, "memory")
}

fn sink_of(rt: &(impl Abort + AllocGlobal), edge: Edge) -> MemorySink {
    let cut = edge.write_cut.max(1);
    MemorySink::new(rt.alloc(), cut, &[edge.failing_write]).expect(rt, "memory")
}

// A status, a space, and what was written.
fn text_in(rt: &(impl Abort + AllocGlobal), status: u8, sink: &MemorySink) -> String {
    let mut text = String::new(rt.alloc());
    put_number(rt, &mut text, usize::from(status));
    put(rt, &mut text, " ");
    let written = str::from_utf8(sink.written()).expect(rt, "text");
    put(rt, &mut text, written);
    text
}

/// The status of the program for the words, the setup and the placement of a row and for a log, a space, and what it
/// writes.
pub fn answer_of<R: Threads + Sync + Abort + AllocGlobal, G: Gate>(
    rt: &R,
    row: &str,
    log: &str,
    edge: Edge,
    events: &G,
    lines: &G,
) -> String {
    let words = words_of(rt, row);
    let mut desk = desk_of(rt, row, log, edge);
    let mut sink = sink_of(rt, edge);
    let status = run(rt, rt.alloc(), &words, &mut desk, &mut sink, events, lines);
    text_in(rt, status, &sink)
}

/// The program answers so to a row's words and setup and a log.
pub fn expect<R: Threads + Sync + Abort + AllocGlobal>(
    rt: &R,
    row: &str,
    log: &str,
    edge: Edge,
    wanted: &str,
) {
    let answer = answer_of(rt, row, log, edge, &FreeGate, &FreeGate);
    assert_eq!(rt; answer.as_str(), wanted);
}

/// The program answers to a row as the row tells.
pub fn expect_row<R: Threads + Sync + Abort + AllocGlobal>(rt: &R, row: &str) {
    let log = log_of(rt, row);
    let wanted = wanted_of(rt, row);
    expect(rt, row, log.as_str(), steady(), wanted.as_str());
}
