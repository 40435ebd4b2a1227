ghost use Rattle.std.specs.Prelude.{◌≡◌, ◌<◌, IfOk, All, AllPairs};

use crate::given::check;
use base_types::{Moment, OutOfMemory, Revision};
use std::marker::{Send, Sync};
use std::process::Abort;
use time_windows::{Span, SpanMark, Windows};

const MAX: u64 = u64::MAX;

// The number of a revision, and the moments between which it was written.
type Written = (u64, i128, i128);

// A moment with the lowest revision there, and one with the highest.
type Ends = (i128, u64, i128, u64);

// What is written behind a start, and the marks and the ends that come of it.
struct Row {
    name: &'static str,
    start: u64,
    written: &'static [Written],
    by_hi: &'static [SpanMark],
    by_lo: &'static [SpanMark],
    ends: &'static [Ends],
}

static ROWS: [Row; 5] = [
    Row {
        name: "revision 12 begins after revision 11 and ends before it",
        start: 10,
        written: &[(11, 1, 4), (12, 2, 3)],
        by_hi: &[
            SpanMark {
                at: Moment(3),
                revision: 12,
            },
            SpanMark {
                at: Moment(4),
                revision: 12,
            },
        ],
        by_lo: &[
            SpanMark {
                at: Moment(1),
                revision: 11,
            },
            SpanMark {
                at: Moment(2),
                revision: 12,
            },
        ],
        ends: &[
            (0, 10, 0, 10),
            (1, 10, 1, 11),
            (2, 10, 2, MAX),
            (3, 10, 3, MAX),
            (4, 12, 4, MAX),
            (5, 12, 5, MAX),
        ],
    },
    Row {
        name: "a write in [1, 2] and a read in [3, 4]",
        start: 10,
        written: &[(11, 1, 2)],
        by_hi: &[SpanMark {
            at: Moment(2),
            revision: 11,
        }],
        by_lo: &[SpanMark {
            at: Moment(1),
            revision: 11,
        }],
        ends: &[(3, 11, 4, MAX), (1, 10, 2, MAX)],
    },
    Row {
        name: "the greatest revision with the widest moments",
        start: 1,
        written: &[(MAX - 1, i128::MIN, i128::MAX)],
        by_hi: &[SpanMark {
            at: Moment(i128::MAX),
            revision: MAX - 1,
        }],
        by_lo: &[SpanMark {
            at: Moment(i128::MIN),
            revision: MAX - 1,
        }],
        ends: &[(i128::MAX, 1, i128::MIN, MAX)],
    },
    Row {
        name: "the greatest revision at one moment",
        start: 1,
        written: &[(MAX - 1, 5, 5)],
        by_hi: &[SpanMark {
            at: Moment(5),
            revision: MAX - 1,
        }],
        by_lo: &[SpanMark {
            at: Moment(5),
            revision: MAX - 1,
        }],
        ends: &[(6, MAX - 1, 4, MAX - 2)],
    },
    Row {
        name: "no writes",
        start: 10,
        written: &[],
        by_hi: &[],
        by_lo: &[],
        ends: &[(0, 10, 0, MAX)],
    },
];

fn revision(rt: &impl Abort, number: u64) -> Revision
    ensures { result ≡ number }
{
    Revision::new(number).expect(rt, "a revision")
}

// The span of a revision behind the last one.
fn next_span(rt: &impl Abort, last: Revision, written: Written) -> Span
    ensures { last < result.revision }
{
    let (number, lo, hi) = written;
    let revision = revision(rt, number);
    assert!(rt; last < revision);
    Span {
        revision,
        lo: Moment(lo),
        hi: Moment(hi),
    }
}

fn spans_of(
    rt: &(impl Abort + AllocGlobal),
    start: Revision,
    rows: &[Written],
) -> Result<Vec<Span>, OutOfMemory>
    ensures rising { IfOk result (λ spans. AllPairs (λ a b. a.revision < b.revision) spans.items) }
    ensures above { IfOk result (λ spans. All (λ span. start < span.revision) spans.items) }
{
    let mut spans = Vec::new(rt.alloc());
    let mut last = start;
    for written in rows {
        let span = next_span(rt, last, *written);
        last = span.revision;
        spans.push(span)?;
    }
    Ok(spans)
}

fn windows_of(rt: &(impl Abort + AllocGlobal), start: u64, rows: &[Written]) -> Windows {
    let start = revision(rt, start);
    let spans = spans_of(rt, start, rows).expect(rt, "memory");
    Windows::build(rt.alloc(), start, &spans).expect(rt, "memory")
}

// A value that may be sent to threads and shared by them.
fn shared<T: Send + Sync>(_value: &T) {}

// The lowest revision at a moment and the highest at another.
fn ends_at(windows: &Windows, first: i128, last: i128) -> (u64, u64) {
    (windows.lowest(Moment(first)), windows.highest(Moment(last)))
}

fn has_ends(windows: &Windows, ends: &[Ends]) -> bool {
    for (first, lowest, last, highest) in ends {
        if ends_at(windows, *first, *last) != (*lowest, *highest) {
            return false;
        }
    }
    true
}

fn is_right(rt: &(impl Abort + AllocGlobal), row: &Row) -> bool {
    let windows = windows_of(rt, row.start, row.written);
    shared(&windows);
    let has_marks = windows.by_hi() == row.by_hi && windows.by_lo() == row.by_lo;
    has_marks && has_ends(&windows, row.ends)
}

#[test]
fn worked_windows(rt: HostRuntime) {
    for row in &ROWS {
        check(&rt, is_right(&rt, row), row.name);
    }
}

fn drawn(rt: &(impl Abort + AllocGlobal), seed: u64) -> Vec<Written> {
    let mut rows = Vec::new(rt.alloc());
    let mut bits = seed;
    for step in 0..seed % 13 {
        bits = bits
            .wrapping_mul(6_364_136_223_846_793_005)
            .wrapping_add(1_442_695_040_888_963_407);
        let written = (
            step + 11,
            i128::from(bits >> 60),
            i128::from(bits >> 56 & 15),
        );
        rows.push(written).expect(rt, "memory");
    }
    rows
}

// By looking at every write.
fn scanned(rows: &[Written], at: i128) -> (u64, u64) {
    let mut lowest = 10u64;
    let mut highest = MAX;
    for (number, lo, hi) in rows {
        if *hi < at {
            lowest = lowest.max(*number);
        }
        if at < *lo {
            highest = highest.min(number.saturating_sub(1));
        }
    }
    (lowest, highest)
}

fn is_scanned(windows: &Windows, rows: &[Written]) -> bool {
    for at in 0..18u64 {
        let at = i128::from(at);
        if ends_at(windows, at, at) != scanned(rows, at) {
            return false;
        }
    }
    true
}

fn scanning_gives_the_same(rt: &(impl Abort + AllocGlobal), seed: u64) -> bool {
    let rows = drawn(rt, seed);
    let windows = windows_of(rt, 10, &rows);
    is_scanned(&windows, &rows)
}

#[test]
fn drawn_windows(rt: HostRuntime) {
    for seed in 0..60u64 {
        assert!(rt; scanning_gives_the_same(&rt, seed), "at {seed}");
    }
}
