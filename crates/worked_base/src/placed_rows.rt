use crate::given::check;
use base_types::Outcome;
use std::process::Abort;
use verdict_text::{PlacementFault, print_outcome, read_placement};

// The last one is a removal that two reads bound, and after it the greatest numbers.
static PRINTED: [&str; 6] = [
    "explained 0\n",
    "explained 1\n0 made 0 none\n",
    "explained 3\n1 removed 11 none\n2 made 13 none\n3 at 13 allow 10 10 10 10\n",
    "explained 2\n1 made 18446744073709551614 none\n2 removed 18446744073709551615 none\n",
    "explained 2\n7 none none\n18446744073709551615 none forbid 0 18446744073709551615 1 2\n",
    "explained 4\n1 made 14 none\n2 removed 15 none\n3 at 14 none\n4 at 15 none\n",
];

fn read(rt: &(impl Abort + AllocGlobal), text: &str) -> Outcome {
    let placement = read_placement(rt.alloc(), text.as_bytes()).expect(rt, "a placement");
    Outcome::Explained(placement)
}

// Whether the placement that a text says is printed as this text.
fn prints_the_same(rt: &(impl Abort + AllocGlobal), text: &str) -> bool {
    let outcome = read(rt, text);
    let printed = print_outcome(rt.alloc(), &outcome).expect(rt, "memory");
    drop(outcome);
    printed.as_slice() == text.as_bytes()
}

#[test]
fn what_was_read_prints_the_same(rt: HostRuntime) {
    for text in &PRINTED {
        check(&rt, prints_the_same(&rt, text), text);
    }
}

// Texts, and the line at which each isn't a placement's.
static REFUSED: [(&str, u64); 47] = [
    // The first line.
    ("", 1),
    ("explained 0", 1),
    ("\nexplained 0\n", 1),
    ("explained 00\n", 1),
    ("explained +1\n1 none none\n", 1),
    ("explained  0\n", 1),
    ("explained 0 \n", 1),
    ("explained 0\r\n", 1),
    ("explained\n", 1),
    ("explained \n", 1),
    ("Explained 0\n", 1),
    ("unexplained 1 a1 U3 10 9\n", 1),
    ("explained 18446744073709551616\n", 1),
    // Fewer lines than said, more of them, and a rest.
    ("explained 1\n", 2),
    ("explained 18446744073709551615\n", 2),
    (
        "explained 4\n1 made 14 none\n2 removed 15 none\n3 at 14 none\n",
        5,
    ),
    ("explained 0\n\n", 2),
    ("explained 0\n1 none none\n", 2),
    ("explained 1\n1 none none\n2 none none\n", 3),
    ("explained 0\n1", 2),
    // The last newline.
    ("explained 1\n1 none none", 2),
    ("explained 2\n1 none none\n2 none none", 3),
    // The order of the lines.
    ("explained 2\n2 none none\n1 none none\n", 3),
    ("explained 2\n1 none none\n1 none none\n", 3),
    // Whether numbers are left for further lines isn't asked.
    ("explained 3\n18446744073709551615 none none\n", 3),
    // Numbers.
    ("explained 1\n01 none none\n", 2),
    ("explained 1\n+1 none none\n", 2),
    ("explained 1\n-1 none none\n", 2),
    ("explained 1\n18446744073709551616 none none\n", 2),
    ("explained 1\n1 made 00 none\n", 2),
    ("explained 1\n1 at 18446744073709551616 none\n", 2),
    ("explained 1\n1 removed MAX none\n", 2),
    ("explained 1\n1 none allow 1 2 3 04\n", 2),
    // Words and spaces.
    ("explained 1\n1 none\n", 2),
    ("explained 1\n1 none none \n", 2),
    ("explained 1\n1  none none\n", 2),
    ("explained 1\n 1 none none\n", 2),
    ("explained 1\n1 none none\r\n", 2),
    ("explained 1\n1\tnone none\n", 2),
    ("explained 1\n1 None none\n", 2),
    ("explained 1\n1 none 4 none\n", 2),
    ("explained 1\n1 made none\n", 2),
    ("explained 1\n1 mad 4 none\n", 2),
    ("explained 1\n1 none allow\n", 2),
    ("explained 1\n1 none allow 1 2 3\n", 2),
    ("explained 1\n1 none allow 1 2 3 4 5\n", 2),
    ("explained 1\n1 none denied 1 2 3 4\n", 2),
];

// No UTF-8, in the first line and behind it.
static NO_TEXTS: [(&[u8], u64); 2] = [
    (b"\xff\n", 1),
    (b"explained 2\n1 none none\n2 \xc3 none\n", 3),
];

// The line at which the bytes aren't a placement's.
fn fault_line(rt: &impl AllocGlobal, bytes: &[u8]) -> Option<u64> {
    match read_placement(rt.alloc(), bytes).err()? {
        PlacementFault::Line { number } => Some(number),
        _ => None,
    }
}

#[test]
fn the_first_line_that_stops(rt: HostRuntime) {
    for (text, number) in &REFUSED {
        let found = fault_line(&rt, text.as_bytes());
        check(&rt, found == Some(*number), text);
    }
    for (bytes, number) in &NO_TEXTS {
        assert!(rt; fault_line(&rt, bytes) == Some(*number));
    }
}
