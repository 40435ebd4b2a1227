use base_types::json::{MemberList, Node, Tree, equal, from_value};
use packed_tree::{Packed, pack};
use serde_json::Value;
use std::process::Abort;

/// The tree of a JSON text.
pub(crate) fn read(rt: &(impl Abort + AllocGlobal), text: &str) -> Tree {
    let value = Value::from_str(rt.alloc(), text).expect(rt, "JSON");
    let tree = from_value(rt.alloc(), &value).expect(rt, "a tree");
    drop(value);
    tree
}

/// The packed value of a JSON text.
pub(crate) fn packed(rt: &(impl Abort + AllocGlobal), text: &str) -> Packed {
    let value = Value::from_str(rt.alloc(), text).expect(rt, "JSON");
    let packed = pack(rt.alloc(), &value).expect(rt, "a packed value");
    drop(value);
    packed
}

/// Whether a tree is that of a JSON text.
pub(crate) fn is_tree(rt: &(impl Abort + AllocGlobal), tree: &Tree, text: &str) -> bool {
    let wanted = read(rt, text);
    let is_same = equal(tree, &wanted);
    drop(wanted);
    is_same
}

/// The members of a JSON text that is an object.
pub(crate) fn members_of(rt: &(impl Abort + AllocGlobal), text: &str) -> MemberList {
    match read(rt, text).node {
        Node::Members(list) => list,
        other => {
            drop(other);
            panic!(rt; "no object")
        }
    }
}

/// Puts more behind a text.
pub(crate) fn push(rt: &impl Abort, text: &mut String, more: &str) {
    text.push_str(more).expect(rt, "memory");
}

/// Stops the test at this row, unless the row is right.
pub(crate) fn check(rt: &impl Abort, is_right: bool, row: &str) {
    if !is_right {
        rt.panic(row);
    }
}
