use crate::given::assert_so;
use base_types::{OutOfMemory, PlacedAnswer, PlacedLine};
use judge_pool::{LineSource, lines_all};
use std::alloc::Global;
use std::marker::Sync;
use std::process::Abort;
use std::thread::Threads;

/// Each event stands on the line of its number, in no place; events of odd numbers have no line.
#[derive(Drop)]
struct Numbered {
    count: u32,
}

fn line_at(event: u32) -> Option<PlacedLine> {
    if event % 2 == 1 {
        return None;
    }
    Some(PlacedLine {
        line: u64::from(event),
        answer: PlacedAnswer::Nowhere,
        decision: None,
    })
}

impl LineSource for Numbered {
    ghost events = { λ s. s.count };

    ghost is_line = { λ s event line. Unit {0} };

    fn count(&self) -> u32 {
        self.count
    }

    fn line(&self, _alloc: Global, event: u32) -> Result<Option<PlacedLine>, OutOfMemory> {
        Ok(line_at(event))
    }
}

/// Whether each line is that of its place.
fn are_in_order(lines: &[Option<PlacedLine>]) -> bool {
    for (line, event) in lines.iter().zip(0..u32::MAX) {
        if *line != line_at(event) {
            return false;
        }
    }
    true
}

fn check_lines(rt: &(impl Abort + AllocGlobal + Threads + Sync), count: u32) {
    let lines = lines_all(rt, rt.alloc(), &Numbered { count }).expect(rt, "memory");
    assert_so(rt, lines.len() == count as usize, "all lines");
    assert_so(rt, are_in_order(&lines), "in order");
    drop(lines);
}

#[test]
fn all_lines_come(rt: HostRuntime) {
    for count in [0, 1, 5_000] {
        check_lines(&rt, count);
    }
}
