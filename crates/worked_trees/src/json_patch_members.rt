use crate::patching::{digits, makes, push_operation};
use crate::reading::{check, members_of, push, read};
use base_types::Text;
use base_types::json::{MemberList, Node, Tree};
use std::process::Abort;

// What a step does with the member of which number: 3,000 members come first, one after another, then 1,500 leave, in
// the order of their names, and 500 of them come back.
fn change(step: u32) -> (bool, u32) {
    if step < 3_000 {
        return (true, 9_999 - step);
    }
    if step < 4_500 {
        return (false, step + 4_500);
    }
    (true, step.saturating_add(3_500))
}

// The text of a patch that changes an object without members.
fn patch_of_changes(rt: &(impl Abort + AllocGlobal)) -> String {
    let start = r#"[{"op": "test", "path": "", "value": {}}"#;
    let mut patch = String::from_str(rt.alloc(), start).expect(rt, "memory");
    for step in 0..5_000u32 {
        let (comes, number) = change(step);
        if comes {
            let front = r#", {"op": "add", "path": "/"#;
            push_operation(rt, &mut patch, front, number, r#"", "value": null}"#);
        } else {
            let front = r#", {"op": "remove", "path": "/"#;
            push_operation(rt, &mut patch, front, number, r#""}"#);
        }
    }
    push(rt, &mut patch, "]");
    patch
}

fn put(rt: &(impl Abort + AllocGlobal), members: &mut MemberList, number: u32) {
    let name = Text::from_string(digits(rt, number));
    let was = members.put(name, Tree { node: Node::Null });
    drop(was.expect(rt, "memory"));
}

fn take(rt: &(impl Abort + AllocGlobal), members: &mut MemberList, number: u32) {
    let name = digits(rt, number);
    drop(members.take(name.as_str()));
}

// The members that the changes make.
fn changed(rt: &(impl Abort + AllocGlobal)) -> MemberList {
    let mut members = members_of(rt, "{}");
    for step in 0..5_000u32 {
        let (comes, number) = change(step);
        if comes {
            put(rt, &mut members, number);
        } else {
            take(rt, &mut members, number);
        }
    }
    members
}

fn changes_make(rt: &(impl Abort + AllocGlobal), wanted: &Tree) -> bool {
    let patch = patch_of_changes(rt);
    let document = read(rt, "{}");
    let is_made = makes(rt, &document, patch.as_str(), wanted);
    drop(document);
    is_made
}

/// A large object is changed at its front and in its middle, across the borders of the chunks that hold it.
#[test]
fn large_objects_are_changed_anywhere(rt: HostRuntime) {
    let wanted = Tree {
        node: Node::Members(changed(&rt)),
    };
    check(&rt, changes_make(&rt, &wanted), "the members");
    drop(wanted);
}
