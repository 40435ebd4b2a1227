use crate::patching::{makes, nulls, push_operation};
use crate::reading::{check, push};
use base_types::json::{Node, Tree, Trees};
use std::process::Abort;

// The text of a patch of a list without items: 3,000 numbers come first, one after another, and 1,000 leave in the
// middle, one after three. Two thirds of them and one more are there when one leaves.
fn patch_of_edits(rt: &(impl Abort + AllocGlobal)) -> String {
    let start = r#"[{"op": "test", "path": "", "value": []}"#;
    let mut patch = String::from_str(rt.alloc(), start).expect(rt, "memory");
    for number in 0..3_000u32 {
        let front = r#", {"op": "add", "path": "/0", "value": "#;
        push_operation(rt, &mut patch, front, number, "}");
        if number % 3 == 2 {
            let front = r#", {"op": "remove", "path": "/"#;
            push_operation(rt, &mut patch, front, number / 3 + 1, r#""}"#);
        }
    }
    push(rt, &mut patch, "]");
    patch
}

fn add_first(rt: &(impl Abort + AllocGlobal), items: &mut Vec<Tree>, number: u32) {
    let node = Node::Whole(number as i128);
    items.insert(0, Tree { node }).expect(rt, "memory");
}

fn remove_middle(items: &mut Vec<Tree>) {
    let middle = items.len() / 2;
    if middle < items.len() {
        drop(items.remove(middle));
    }
}

// The items that the edits make.
fn edited(rt: &(impl Abort + AllocGlobal)) -> Vec<Tree> {
    let mut items = Vec::new(rt.alloc());
    for number in 0..3_000u32 {
        add_first(rt, &mut items, number);
        if number % 3 == 2 {
            remove_middle(&mut items);
        }
    }
    items
}

fn edits_make(rt: &(impl Abort + AllocGlobal), wanted: &Tree) -> bool {
    let patch = patch_of_edits(rt);
    let document = nulls(rt, 0);
    let is_made = makes(rt, &document, patch.as_str(), wanted);
    drop(document);
    is_made
}

/// A long list is edited at its front and in its middle, across the borders of the chunks that hold it.
#[test]
fn long_lists_are_edited_anywhere(rt: HostRuntime) {
    let all = edited(&rt);
    let wanted = Tree {
        node: Node::Items(Trees { all }),
    };
    check(&rt, edits_make(&rt, &wanted), "the items");
    drop(wanted);
}
