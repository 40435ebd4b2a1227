ghost use Rattle.std.specs.Prelude.{◌<◌, IfSome, length};

use crate::reading::{check, is_tree, packed, read};
use base_types::Text;
use base_types::json::read_pointer;
use hash_seed::Seed;
use node_number::NodeId;
use node_pool::{Interner, Pool, PoolFault};
use std::marker::{Send, Sync};
use std::process::Abort;

// A value that may be sent to threads and shared by them.
fn shared<T: Send + Sync>(_value: &T) {}

// Texts that are put in where there is room for two trees, the number that each gets, and how many trees there are
// then.
static NUMBERS: [(&str, Result<NodeId, PoolFault>, u32); 5] = [
    (r#""x""#, Ok(NodeId(0)), 1),
    (r#"["x"]"#, Ok(NodeId(1)), 2),
    (r#""x""#, Ok(NodeId(0)), 2),
    (r#""y""#, Err(PoolFault::Full), 2),
    (r#"["x", []]"#, Err(PoolFault::Full), 2),
];

fn intern(
    rt: &(impl Abort + AllocGlobal),
    interner: &mut Interner,
    text: &str,
) -> Result<NodeId, PoolFault> {
    let value = packed(rt, text);
    let interned = interner.intern(&value.root());
    drop(value);
    interned
}

// Texts that are put in where there is room for twelve trees, each like the one that was put in last under the same
// word: the same, one with another member, value or kind, one after a refusal, and such that none was there before.
static LIKE: [(&str, &str); 9] = [
    ("a", r#"{"k": ["x", 1], "m": {}}"#),
    ("a", r#"{"k": ["x", 1], "m": {}}"#),
    ("a", r#"{"b": true, "k": ["x", 2], "m": {}}"#),
    ("b", r#"["x", 1]"#),
    ("b", r#"{"k": ["x", 1]}"#),
    ("a", r#"{"b": ["x"], "k": "x", "z": [null, [2, 3]]}"#),
    ("a", r#"{"k": ["x", 1], "m": {}}"#),
    ("a", r#"{"k": ["x", 1], "m": true}"#),
    ("", r#"{"k": ["x", 1], "m": true}"#),
];

fn intern_like(
    rt: &(impl Abort + AllocGlobal),
    interner: &mut Interner,
    like: &str,
    text: &str,
) -> Result<NodeId, PoolFault> {
    let value = packed(rt, text);
    let like = Text::from_str(rt.alloc(), like).expect(rt, "memory");
    let interned = interner.intern_like(&like, &value.root());
    drop(like);
    drop(value);
    interned
}

#[test]
fn guesses_change_no_number(rt: HostRuntime) {
    let mut guessing = Interner::new(rt.alloc(), 12, Seed::of(b"")).expect(&rt, "memory");
    let mut plain = Interner::new(rt.alloc(), 12, Seed::of(b"")).expect(&rt, "memory");
    for (like, text) in &LIKE {
        let number = intern_like(&rt, &mut guessing, like, text);
        check(&rt, number == intern(&rt, &mut plain, text), text);
        check(&rt, guessing.len() == plain.len(), text);
    }
    drop(guessing);
    drop(plain);
}

const OBJECT: &str = r#"{"metadata": {"name": "a", "finalizers": ["x/y"]}, "data": {"k": "x"}}"#;

// Pointers, and what is there in the object.
static PARTS: [(&str, Option<&str>); 7] = [
    ("", Some(OBJECT)),
    ("/data/k", Some(r#""x""#)),
    ("/metadata/finalizers/0", Some(r#""x/y""#)),
    ("/metadata/finalizers", Some(r#"["x/y"]"#)),
    ("/metadata/finalizers/1", None),
    ("/data/l", None),
    ("/data/k/0", None),
];

// The number of what is at the pointer.
fn found(rt: &(impl Abort + AllocGlobal), pool: &Pool, object: NodeId, at: &str) -> Option<NodeId>
    requires { object.0 < length pool.now.trees }
    ensures { IfSome result (λ node. node.0 < length pool.now.trees) }
{
    let pointer = read_pointer(rt.alloc(), at).expect(rt, "a pointer");
    pool.at(object, &pointer)
}

fn equals(rt: &(impl Abort + AllocGlobal), pool: &Pool, node: NodeId, text: &str) -> bool
    requires { node.0 < length pool.now.trees }
{
    let tree = read(rt, text);
    let is_equal = pool.equals(node, &tree);
    drop(tree);
    is_equal
}

// Whether this part of an object of the pool is at the pointer, or nothing.
fn is_there(
    rt: &(impl Abort + AllocGlobal),
    pool: &Pool,
    object: NodeId,
    at: &str,
    part: Option<&str>,
) -> bool
    requires { object.0 < length pool.now.trees }
{
    match (found(rt, pool, object, at), part) {
        (Some(found), Some(part)) => equals(rt, pool, found, part),
        (found, part) => found.is_none() && part.is_none(),
    }
}

// Whether a number of the pool has this tree, if the tree has a number.
fn is_numbered(
    rt: &(impl Abort + AllocGlobal),
    pool: &Pool,
    number: &Result<NodeId, PoolFault>,
    text: &str,
) -> bool {
    match number {
        Ok(node) => node.0 < pool.len() && equals(rt, pool, *node, text),
        Err(_) => true,
    }
}

// Each tree that was put in has its number in the pool.
fn check_numbers(rt: &(impl Abort + AllocGlobal), pool: &Pool) {
    shared(pool);
    check(rt, pool.len() == 2, "two trees");
    for (text, number, _) in &NUMBERS {
        check(rt, is_numbered(rt, pool, number, text), text);
    }
}

// The trees of the texts, each of which gets its number.
fn interned(rt: &(impl Abort + AllocGlobal)) -> Interner {
    let mut interner = Interner::new(rt.alloc(), 2, Seed::of(b"")).expect(rt, "memory");
    for (text, wanted, len) in &NUMBERS {
        check(rt, intern(rt, &mut interner, text) == *wanted, text);
        check(rt, interner.len() == *len, text);
    }
    interner
}

#[test]
fn a_tree_has_one_number(rt: HostRuntime) {
    let interner = interned(&rt);
    shared(&interner);
    let pool = interner.into_pool().expect(&rt, "memory");
    check_numbers(&rt, &pool);
    drop(pool);
}

fn comes_back(rt: &(impl Abort + AllocGlobal), pool: &Pool, node: NodeId, text: &str) -> bool
    requires { node.0 < length pool.now.trees }
{
    let tree = pool.tree(node).expect(rt, "memory");
    let is_same = is_tree(rt, &tree, text);
    drop(tree);
    is_same
}

fn check_parts(rt: &(impl Abort + AllocGlobal), pool: &Pool, node: NodeId)
    requires { node.0 < length pool.now.trees }
{
    check(rt, pool.same(node, node), "itself");
    check(rt, equals(rt, pool, node, OBJECT), OBJECT);
    check(rt, comes_back(rt, pool, node, OBJECT), OBJECT);
    for (at, part) in &PARTS {
        check(rt, is_there(rt, pool, node, at, *part), at);
    }
}

#[test]
fn parts_are_found(rt: HostRuntime) {
    let mut interner = Interner::new(rt.alloc(), 100, Seed::of(b"")).expect(&rt, "memory");
    let node = intern(&rt, &mut interner, OBJECT).expect(&rt, "room");
    let pool = interner.into_pool().expect(&rt, "memory");
    check(&rt, pool.len() == 7, "seven trees");
    assert!(rt; node.0 < pool.len());
    check_parts(&rt, &pool, node);
    drop(pool);
}
