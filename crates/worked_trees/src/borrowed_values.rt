use crate::reading::{check, packed, push};
use base_types::json::TreeFault;
use borrowed_json::{JsonValue, ReadFault, Scratch};
use packed_tree::{Packed, pack_borrowed};
use std::process::Abort;

// Texts of JSON values, and a text by which `serde_json` reads the same value.
static TEXTS: [(&str, &str); 10] = [
    (" null ", "null"),
    ("[true, false]", "[true,false]"),
    (
        "[0, -1, 9223372036854775807, 9223372036854775808, -9223372036854775808]",
        "[0,-1,9223372036854775807,9223372036854775808,-9223372036854775808]",
    ),
    ("18446744073709551615", "18446744073709551615"),
    (r#""\u00e9\n\"""#, r#""é\n\"""#),
    ("[[], {}]", "[[],{}]"),
    (r#"{"b": 1, "a": 2}"#, r#"{"a":2,"b":1}"#),
    (r#"{"a": 1, "b": 2, "a": 3}"#, r#"{"a":3,"b":2}"#),
    (r#"{"\u0061": {"b": 1}}"#, r#"{"a":{"b":1}}"#),
    (r#"{"": "", "é": ["x"]}"#, r#"{"":"","é":["x"]}"#),
];

fn packed_borrowed(rt: &(impl Abort + AllocGlobal), text: &str) -> Result<Packed, TreeFault> {
    let mut scratch = Scratch::new(rt.alloc());
    let value = JsonValue::read(rt.alloc(), text.as_bytes(), &mut scratch).expect(rt, "JSON");
    let packed = pack_borrowed(rt.alloc(), &value);
    drop(value);
    packed
}

fn is_packed_as(rt: &(impl Abort + AllocGlobal), text: &str, wanted: &str) -> bool {
    packed_borrowed(rt, text).expect(rt, "whole numbers") == packed(rt, wanted)
}

#[test]
fn values_are_those_of_serde_json(rt: HostRuntime) {
    for (text, wanted) in &TEXTS {
        check(&rt, is_packed_as(&rt, text, wanted), text);
    }
}

static FRACTIONS: [&str; 4] = ["1.0", "-0", "[1e2]", "18446744073709551616"];

#[test]
fn fractions_are_not_packed(rt: HostRuntime) {
    for text in &FRACTIONS {
        let fault = packed_borrowed(&rt, text).err();
        check(&rt, fault == Some(TreeFault::Fraction), text);
    }
}

static REFUSED: [&str; 9] = [
    "",
    "1 2",
    "[1",
    "[1,]",
    "01",
    "1e400",
    r#"{"a"}"#,
    r#""\ud800""#,
    "[-]",
];

fn is_refused(rt: &impl AllocGlobal, bytes: &[u8]) -> bool {
    let mut scratch = Scratch::new(rt.alloc());
    let found = JsonValue::read(rt.alloc(), bytes, &mut scratch);
    matches!(found, Err(ReadFault::NotJson))
}

#[test]
fn other_texts_are_refused(rt: HostRuntime) {
    for text in &REFUSED {
        check(&rt, is_refused(&rt, text.as_bytes()), text);
    }
    check(&rt, is_refused(&rt, b"\"\xff\""), "no UTF-8");
}

// Lists, one inside another.
fn nested(rt: &(impl Abort + AllocGlobal), depth: usize) -> String {
    let mut text = String::new(rt.alloc());
    for _ in 0..depth {
        push(rt, &mut text, "[");
    }
    for _ in 0..depth {
        push(rt, &mut text, "]");
    }
    text
}

#[test]
fn lists_nest_127_deep(rt: HostRuntime) {
    let deepest = nested(&rt, 127);
    check(&rt, !is_refused(&rt, deepest.as_bytes()), "127 deep");
    let deeper = nested(&rt, 128);
    check(&rt, is_refused(&rt, deeper.as_bytes()), "128 deep");
}
