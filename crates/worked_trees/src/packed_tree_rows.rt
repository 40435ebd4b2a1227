use crate::reading::{check, is_tree, packed, push};
use base_types::json::TreeFault;
use packed_tree::{Packed, PackedRef, pack};
use serde_json::Value;
use std::marker::{Send, Sync};
use std::process::Abort;

// A value that may be sent to threads and shared by them.
fn shared<T: Send + Sync>(_value: &T) {}

// Distinct values, among them the numbers at the ends of their range.
static DISTINCT: [&str; 12] = [
    "null",
    "false",
    "true",
    "0",
    "-1",
    "-9223372036854775808",
    "18446744073709551615",
    r#""""#,
    r#""é""#,
    "[]",
    r#"{"a": [1, null], "b": {}}"#,
    r#"{"a": [1], "b": {}}"#,
];

fn comes_back(rt: &(impl Abort + AllocGlobal), text: &str) -> bool {
    let value = packed(rt, text);
    let tree = value.tree(rt.alloc()).expect(rt, "memory");
    let is_same = is_tree(rt, &tree, text);
    drop(tree);
    is_same
}

fn equals(rt: &(impl Abort + AllocGlobal), value: &Packed, other: &str) -> bool {
    *value == packed(rt, other)
}

fn equals_itself_alone(rt: &(impl Abort + AllocGlobal), text: &str) -> bool {
    let value = packed(rt, text);
    let mut is_so = true;
    for other in &DISTINCT {
        is_so = is_so && equals(rt, &value, other) == (text == *other);
    }
    is_so
}

#[test]
fn values_come_back_and_are_told_apart(rt: HostRuntime) {
    for text in &DISTINCT {
        check(&rt, comes_back(&rt, text), text);
        check(&rt, equals_itself_alone(&rt, text), text);
    }
}

static FRACTIONS: [&str; 4] = [
    "1.0",
    "18446744073709551616",
    "-9223372036854775809",
    "[2.5]",
];

fn is_fraction(rt: &(impl Abort + AllocGlobal), text: &str) -> bool {
    let value = Value::from_str(rt.alloc(), text).expect(rt, "JSON");
    let fault = pack(rt.alloc(), &value).err();
    drop(value);
    fault == Some(TreeFault::Fraction)
}

#[test]
fn fractions_are_refused(rt: HostRuntime) {
    for text in &FRACTIONS {
        check(&rt, is_fraction(&rt, text), text);
    }
}

const OBJECT: &str = r#"{"b": {"c": 2}, "ab": 1, "a": "x", "n": null, "l": [3, 4]}"#;

// The names of members of the object, and their values.
static MEMBERS: [(&str, &str); 5] = [
    ("a", r#""x""#),
    ("ab", "1"),
    ("b", r#"{"c": 2}"#),
    ("l", "[3, 4]"),
    ("n", "null"),
];

fn holds(rt: &(impl Abort + AllocGlobal), value: &PackedRef<'_>, text: &str) -> bool {
    let tree = value.tree(rt.alloc()).expect(rt, "memory");
    let is_same = is_tree(rt, &tree, text);
    drop(tree);
    is_same
}

fn is_member(rt: &(impl Abort + AllocGlobal), object: &Packed, name: &str, text: &str) -> bool {
    match object.root().member(name) {
        Some(value) => holds(rt, &value, text),
        None => false,
    }
}

#[test]
fn members_are_read_in_place(rt: HostRuntime) {
    let object = packed(&rt, OBJECT);
    shared(&object);
    for (name, text) in &MEMBERS {
        check(&rt, is_member(&rt, &object, name, text), name);
    }
    check(&rt, object.root().member("c").is_none(), "c");
}

// So many lists one inside another.
fn nested(rt: &(impl Abort + AllocGlobal), depth: usize) -> String {
    let mut text = String::new(rt.alloc());
    for _ in 0..depth {
        push(rt, &mut text, "[");
    }
    for _ in 0..depth {
        push(rt, &mut text, "]");
    }
    text
}

/// The outer ones of 127 lists are longer than one byte of length tells.
#[test]
fn deep_values_come_back(rt: HostRuntime) {
    let text = nested(&rt, 127);
    check(&rt, comes_back(&rt, text.as_str()), "127 lists");
}
