use crate::reading::{check, is_tree, members_of, push, read};
use base_types::Text;
use base_types::json::{
    MemberList, Node, Pointer, PointerFault, Tree, TreeFault, copy, from_value, get, read_pointer,
    stored_form, to_value,
};
use serde_json::Value;
use std::process::Abort;

/// Each text with what it is printed as: members in order, the last of a name, integers to the ends of
/// their range.
static PRINTED: [(&str, &str); 7] = [
    ("null", "null"),
    ("[true, false]", "[true,false]"),
    ("-9223372036854775808", "-9223372036854775808"),
    ("18446744073709551615", "18446744073709551615"),
    (r#" "a\"\u0062" "#, r#""a\"b""#),
    (r#"{"b": [], "a": {"": 0}}"#, r#"{"a":{"":0},"b":[]}"#),
    (r#"{"a": 1, "b": 2, "a": 3}"#, r#"{"a":3,"b":2}"#),
];

// The value of the tree of a text.
fn value_again(rt: &(impl Abort + AllocGlobal), text: &str) -> Value {
    let value = Value::from_str(rt.alloc(), text).expect(rt, "JSON");
    let tree = from_value(rt.alloc(), &value).expect(rt, "a tree");
    drop(value);
    let again = to_value(rt.alloc(), &tree).expect(rt, "memory");
    drop(tree);
    again
}

fn is_printed(rt: &(impl Abort + AllocGlobal), text: &str, wanted: &str) -> bool {
    let again = value_again(rt, text);
    let printed = again.to_string(rt.alloc()).expect(rt, "memory");
    drop(again);
    printed.as_str() == wanted
}

#[test]
fn values_come_back(rt: HostRuntime) {
    for (text, wanted) in &PRINTED {
        check(&rt, is_printed(&rt, text, wanted), text);
    }
}

static FRACTIONS: [&str; 6] = [
    "1.0",
    "-0",
    "1e2",
    "18446744073709551616",
    "-9223372036854775809",
    r#"[1, {"a": 2.5}]"#,
];

fn is_fraction(rt: &(impl Abort + AllocGlobal), text: &str) -> bool {
    let value = Value::from_str(rt.alloc(), text).expect(rt, "JSON");
    let fault = from_value(rt.alloc(), &value).err();
    drop(value);
    fault == Some(TreeFault::Fraction)
}

#[test]
fn fractions_have_no_tree(rt: HostRuntime) {
    for text in &FRACTIONS {
        check(&rt, is_fraction(&rt, text), text);
    }
}

const DOCUMENT: &str = r#"{"foo": ["bar", "baz"], "": 0, "a/b": 1, "c%d": 2, "e^f": 3, "g|h": 4,
    "i\\j": 5, "k\"l": 6, " ": 7, "m~n": 8}"#;

// The table of RFC 6901 section 5, and pointers that lead nowhere.
static POINTERS: [(&str, Option<&str>); 18] = [
    ("", Some(DOCUMENT)),
    ("/foo", Some(r#"["bar", "baz"]"#)),
    ("/foo/0", Some(r#""bar""#)),
    ("/", Some("0")),
    ("/a~1b", Some("1")),
    ("/c%d", Some("2")),
    ("/e^f", Some("3")),
    ("/g|h", Some("4")),
    (r"/i\j", Some("5")),
    ("/k\"l", Some("6")),
    ("/ ", Some("7")),
    ("/m~0n", Some("8")),
    ("/foo/-", None),
    ("/foo/00", None),
    ("/foo/2", None),
    ("/foo/99999999999999999999", None),
    ("/foo/0/0", None),
    ("/bar", None),
];

fn pointed<'a>(rt: &(impl Abort + AllocGlobal), document: &'a Tree, at: &str) -> Option<&'a Tree> {
    let pointer = read_pointer(rt.alloc(), at).expect(rt, "a pointer");
    let found = get(document, &pointer);
    drop(pointer);
    found
}

// Whether this value is at the pointer, or nothing.
fn leads_to(
    rt: &(impl Abort + AllocGlobal),
    document: &Tree,
    at: &str,
    wanted: Option<&str>,
) -> bool {
    match (pointed(rt, document, at), wanted) {
        (Some(found), Some(value)) => is_tree(rt, found, value),
        (found, value) => found.is_none() && value.is_none(),
    }
}

#[test]
fn pointers_lead_to_values(rt: HostRuntime) {
    let document = read(&rt, DOCUMENT);
    for (text, value) in &POINTERS {
        check(&rt, leads_to(&rt, &document, text, *value), text);
    }
    drop(document);
}

// Texts, and the tokens of the pointer that each is, with a bar before each. A text without `/` at its front, or with
// a `~` of no meaning, is no pointer. `~01` is `~1`.
static SPELLED: [(&str, Option<&str>); 11] = [
    ("a", None),
    ("~", None),
    ("/~", None),
    ("/a~2", None),
    ("/é~", None),
    (" /a", None),
    ("/a~1b", Some("|a/b")),
    ("/~01", Some("|~1")),
    ("/é~0ü", Some("|é~ü")),
    ("/", Some("|")),
    ("/a//b", Some("|a||b")),
];

fn tokens(rt: &(impl Abort + AllocGlobal), pointer: &Pointer) -> String {
    let mut tokens = String::new(rt.alloc());
    for token in pointer {
        push(rt, &mut tokens, "|");
        push(rt, &mut tokens, token.as_str());
    }
    tokens
}

fn has_tokens(rt: &(impl Abort + AllocGlobal), text: &str, wanted: &str) -> bool {
    let pointer = read_pointer(rt.alloc(), text).expect(rt, "a pointer");
    let tokens = tokens(rt, &pointer);
    drop(pointer);
    tokens.as_str() == wanted
}

fn is_spelled(rt: &(impl Abort + AllocGlobal), text: &str, tokens: Option<&str>) -> bool {
    match tokens {
        Some(tokens) => has_tokens(rt, text, tokens),
        None => read_pointer(rt.alloc(), text).err() == Some(PointerFault::Form),
    }
}

#[test]
fn pointers_have_one_spelling(rt: HostRuntime) {
    for (text, tokens) in &SPELLED {
        check(&rt, is_spelled(&rt, text, *tokens), text);
    }
}

static DISTINCT: [&str; 12] = [
    "null",
    "false",
    "0",
    "1",
    r#""""#,
    r#""a""#,
    "[]",
    "[null]",
    "[[]]",
    "{}",
    r#"{"a": null}"#,
    r#"{"b": null}"#,
];

fn equals_itself_alone(rt: &(impl Abort + AllocGlobal), tree: &Tree, text: &str) -> bool {
    for other in &DISTINCT {
        if is_tree(rt, tree, other) != (text == *other) {
            return false;
        }
    }
    true
}

fn equals_its_copy(rt: &(impl Abort + AllocGlobal), tree: &Tree) -> bool {
    let copied = copy(rt.alloc(), tree).expect(rt, "memory");
    let is_same = copied == *tree;
    drop(copied);
    is_same
}

fn is_told_apart(rt: &(impl Abort + AllocGlobal), text: &str) -> bool {
    let tree = read(rt, text);
    let is_so = equals_its_copy(rt, &tree) && equals_itself_alone(rt, &tree, text);
    drop(tree);
    is_so
}

#[test]
fn trees_are_told_apart(rt: HostRuntime) {
    for text in &DISTINCT {
        check(&rt, is_told_apart(&rt, text), text);
    }
}

// Objects and their stored forms.
static STORED: [(&str, &str); 4] = [
    (
        r#"{"apiVersion": "v1", "kind": "Pod", "metadata": {"managedFields": [1], "kind": "x"},
            "spec": {"kind": "y", "managedFields": 2}}"#,
        r#"{"metadata": {"kind": "x"}, "spec": {"kind": "y", "managedFields": 2}}"#,
    ),
    (r#"{"kind": null, "metadata": 7}"#, r#"{"metadata": 7}"#),
    (r#"{"managedFields": 1}"#, r#"{"managedFields": 1}"#),
    (r#"["kind"]"#, r#"["kind"]"#),
];

fn is_stored_as(rt: &(impl Abort + AllocGlobal), object: &str, stored: &str) -> bool {
    let tree = stored_form(read(rt, object));
    let is_same = is_tree(rt, &tree, stored);
    drop(tree);
    is_same
}

/// The members are dropped at their places alone, also where the metadata isn't an object.
#[test]
fn stored_forms(rt: HostRuntime) {
    for (object, stored) in &STORED {
        check(&rt, is_stored_as(&rt, object, stored), object);
    }
}

// What a member's value is.
enum Member {
    Flag(bool),
    Whole(i128),
    Text(&'static str),
    Items(usize),
    Null,
    Absent,
}

const OBJECT: &str = r#"{"f": true, "i": [1], "n": null, "t": "x", "w": -7}"#;

// The members of the object.
static MEMBERS: [(&str, Member); 6] = [
    ("f", Member::Flag(true)),
    ("w", Member::Whole(-7)),
    ("t", Member::Text("x")),
    ("i", Member::Items(1)),
    ("n", Member::Null),
    ("m", Member::Absent),
];

fn is_text(value: &Tree, wanted: &str) -> bool {
    match value.as_text() {
        Some(text) => text.as_str() == wanted,
        None => false,
    }
}

fn has_items(value: &Tree, count: usize) -> bool {
    match value.as_items() {
        Some(items) => items.all.len() == count,
        None => false,
    }
}

fn has_members(value: &Tree, count: usize) -> bool {
    match value.as_members() {
        Some(members) => members.all.len() == count,
        None => false,
    }
}

fn is_value(value: &Tree, wanted: &Member) -> bool {
    match wanted {
        Member::Flag(flag) => value.as_flag() == Some(*flag),
        Member::Whole(whole) => value.as_whole() == Some(*whole),
        Member::Text(text) => is_text(value, text),
        Member::Items(count) => has_items(value, *count),
        Member::Null => value.is_null(),
        Member::Absent => false,
    }
}

fn is_member(value: Option<&Tree>, wanted: &Member) -> bool {
    match value {
        Some(value) => is_value(value, wanted),
        None => matches!(wanted, Member::Absent),
    }
}

#[test]
fn one_level(rt: HostRuntime) {
    let tree = read(&rt, OBJECT);
    for (name, wanted) in &MEMBERS {
        check(&rt, is_member(tree.member(name), wanted), name);
    }
    check(&rt, has_members(&tree, 5), "five members");
    drop(tree);
}

// Names that are put into an object, one after another.
static PUT_IN: [&str; 4] = ["c", "a", "e", "c"];

fn put(rt: &(impl Abort + AllocGlobal), list: &mut MemberList, name: &str) {
    let name = Text::from_str(rt.alloc(), name).expect(rt, "memory");
    let was = list.put(name, read(rt, "3")).expect(rt, "memory");
    drop(was);
}

fn put_in(rt: &(impl Abort + AllocGlobal)) -> MemberList {
    let mut list = members_of(rt, r#"{"b": 1, "d": 2}"#);
    for name in &PUT_IN {
        put(rt, &mut list, name);
    }
    list
}

fn takes(list: &mut MemberList, name: &str) -> bool {
    let gone = list.take(name);
    let is_gone = gone.is_some();
    drop(gone);
    is_gone
}

fn is_object(rt: &(impl Abort + AllocGlobal), list: MemberList, text: &str) -> bool {
    let tree = Tree {
        node: Node::Members(list),
    };
    let is_same = is_tree(rt, &tree, text);
    drop(tree);
    is_same
}

#[test]
fn members_are_put_and_taken(rt: HostRuntime) {
    let mut list = put_in(&rt);
    check(&rt, list.all.len() == 5, "five members");
    check(&rt, takes(&mut list, "d"), "d");
    check(&rt, !takes(&mut list, "d"), "no d");
    let wanted = r#"{"a": 3, "b": 1, "c": 3, "e": 3}"#;
    check(&rt, is_object(&rt, list, wanted), wanted);
}
