mod answers;
mod edges;
mod forms;
mod histories;
mod meeting;
mod reads;
mod refusals;
mod row;
mod second;
mod texts;
mod writes;

use crate::tests::answers::expect_row;
use crate::tests::edges::{
    HELD, LAST_EVENT, LAST_PLACED, PLACED, REQUESTED, SEEN, a_line_too_long, check_deep,
    check_faults, check_pieces, check_refusal_before_fault, check_repeated, cut_logs,
    cut_placement, cut_setup,
};
use crate::tests::meeting::two_lines_and_two_events_at_once;
use std::marker::Sync;
use std::process::Abort;
use std::thread::Threads;

static TABLES: [&str; 22] = [
    reads::GETS,
    reads::LISTS,
    reads::SELECTIONS,
    reads::CHECKPOINTS,
    reads::ITEMS,
    reads::DECISIONS,
    reads::LONG,
    writes::UPDATES,
    writes::REMOVALS,
    writes::CONFLICTS,
    writes::PATCHES,
    writes::FILLED,
    writes::MADE,
    refusals::WORDS,
    refusals::SETUPS,
    refusals::LOGS,
    refusals::POLICIES,
    second::STRICT,
    second::PLACEMENTS,
    histories::OBJECTS,
    histories::VALUES,
    histories::RIGHTS,
];

fn check_rows<R: Threads + Sync + Abort + AllocGlobal>(rt: &R, table: &str) {
    for row in table.split("\n\n") {
        expect_row(rt, row);
    }
}

#[test]
fn rows(rt: HostRuntime) {
    for table in &TABLES {
        check_rows(&rt, table);
    }
}

fn long_row() -> &'static str {
    reads::LONG
}

// A removal, a write, and a read with its decision.
fn decided_row() -> &'static str {
    reads::DECISIONS.split("\n\n").next().unwrap_or("")
}

// Of each command rows that nothing refuses before all is read, from the first on.
static COMMANDS: [(&str, usize); 7] = [
    (reads::LONG, 1),
    (second::STRICT, 3),
    (second::PLACEMENTS, 4),
    (histories::OBJECTS, 5),
    (histories::VALUES, 7),
    (histories::RIGHTS, 5),
    (writes::MADE, 2),
];

#[test]
fn faults(rt: HostRuntime) {
    for (table, rows) in &COMMANDS {
        check_faults(&rt, table, *rows);
    }
    check_refusal_before_fault(&rt);
}

#[test]
fn cuts_and_limits(rt: HostRuntime) {
    check_pieces(&rt, SEEN, 1);
    cut_logs(&rt, SEEN);
    cut_logs(&rt, long_row());
    cut_setup(&rt, "holds /configmaps cm|a|A|9|x\nchecks list|16+");
    cut_placement(&rt, decided_row());
    check_deep(
        &rt,
        REQUESTED,
        120,
        "\ntells explained 2\ntells 1 made 11 none\ntells 2 at 11 none",
    );
    check_deep(&rt, REQUESTED, 130, "\ntells malformed 2 M1\nstatus 4");
    check_deep(&rt, REQUESTED, 10_000, "\ntells malformed 2 M1\nstatus 4");
    check_deep(&rt, HELD, 120, "}}\ntells explained 0");
    check_deep(&rt, HELD, 130, "}}\ntells setup S1\nstatus 3");
    check_repeated(&rt, SEEN, LAST_EVENT);
    check_repeated(&rt, PLACED, LAST_PLACED);
    a_line_too_long(&rt);
}

#[test]
fn large_cases(rt: HostRuntime) {
    check_rows(&rt, writes::MADE_LARGE);
    two_lines_and_two_events_at_once(&rt);
}
