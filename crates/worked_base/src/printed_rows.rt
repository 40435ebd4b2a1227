use crate::given::{check, text};
use base_types::{
    Decision, Outcome, PlacedAnswer, PlacedDecision, PlacedLine, Placement, Places, Reason,
    WriteLine, WriteLines,
};
use std::process::Abort;
use verdict_text::print_outcome;

const MAX: u64 = u64::MAX;

const ALLOWED: PlacedDecision = PlacedDecision {
    decision: Decision::Allow,
    places: Places {
        roles: 10,
        cluster_roles: 11,
        bindings: 12,
        cluster_bindings: 13,
    },
};

const FORBIDDEN: PlacedDecision = PlacedDecision {
    decision: Decision::Forbid,
    places: Places {
        roles: 0,
        cluster_roles: 0,
        bindings: 0,
        cluster_bindings: MAX,
    },
};

// An answer of each kind, and both decisions at four places.
fn placed(rt: &(impl Abort + AllocGlobal)) -> Outcome {
    let mut placement = Placement::new(rt.alloc());
    placement
        .push(PlacedLine {
            line: 2,
            answer: PlacedAnswer::Made(14),
            decision: None,
        })
        .expect(rt, "memory");
    placement
        .push(PlacedLine {
            line: 10,
            answer: PlacedAnswer::Removed(MAX),
            decision: Some(ALLOWED),
        })
        .expect(rt, "memory");
    placement
        .push(PlacedLine {
            line: 1_099_511_627_777,
            answer: PlacedAnswer::At(0),
            decision: Some(FORBIDDEN),
        })
        .expect(rt, "memory");
    placement
        .push(PlacedLine {
            line: MAX,
            answer: PlacedAnswer::Nowhere,
            decision: None,
        })
        .expect(rt, "memory");
    Outcome::Explained(placement)
}

const PLACED_TEXT: &str =
    "explained 4\n2 made 14 none\n10 removed 18446744073709551615 allow 10 11 12 13\n\
    1099511627777 at 0 forbid 0 0 0 18446744073709551615\n18446744073709551615 none none\n";

// An event without writes, whose audit ID is escaped.
fn escaped(rt: &(impl Abort + AllocGlobal)) -> Outcome {
    Outcome::Unexplained {
        line: 1,
        audit_id: text(rt, "a b/\u{fc}%\n-._~:Z9"),
        reason: Reason::U3,
        low: 10,
        high: 9,
        writes: WriteLines::new(rt.alloc()),
    }
}

const ESCAPED_TEXT: &str = "unexplained 1 a%20b%2F%C3%BC%25%0A-._~:Z9 U3 10 9\n";

// A removal, and a write behind it.
fn writes(rt: &(impl Abort + AllocGlobal)) -> WriteLines {
    let removed = WriteLine::Removed {
        low: 15,
        high: MAX,
        line: 2,
        key: text(rt, "/configmaps/d/a"),
    };
    let made = WriteLine::Made {
        revision: 16,
        line: 4,
        key: text(rt, "/configmaps/d/b"),
    };
    let mut writes = WriteLines::new(rt.alloc());
    writes.push(removed).expect(rt, "memory");
    writes.push(made).expect(rt, "memory");
    writes
}

// A removal which readers on both sides of revision 16 see. The keys come as they are.
fn removed(rt: &(impl Abort + AllocGlobal)) -> Outcome {
    Outcome::Unexplained {
        line: 5,
        audit_id: text(rt, "a5"),
        reason: Reason::U10,
        low: 16,
        high: MAX,
        writes: writes(rt),
    }
}

const REMOVED_TEXT: &str = "unexplained 5 a5 U10 16 18446744073709551615\n\
    removed 15 18446744073709551615 2 /configmaps/d/a\nmade 16 4 /configmaps/d/b\n";

// Stops the test unless the outcome is printed as this text.
fn check_printed(rt: &(impl Abort + AllocGlobal), outcome: Outcome, text: &str) {
    let printed = print_outcome(rt.alloc(), &outcome).expect(rt, "memory");
    drop(outcome);
    check(rt, printed.as_slice() == text.as_bytes(), text);
}

#[test]
fn outcomes_are_printed(rt: HostRuntime) {
    let no_line = Outcome::Explained(Placement::new(rt.alloc()));
    check_printed(&rt, no_line, "explained 0\n");
    check_printed(&rt, placed(&rt), PLACED_TEXT);
    check_printed(&rt, escaped(&rt), ESCAPED_TEXT);
    check_printed(&rt, removed(&rt), REMOVED_TEXT);
}
