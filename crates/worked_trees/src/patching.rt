use crate::reading::{check, push, read};
use base_types::json::{Node, Tree, Trees, equal};
use json_patch::{ApplyCause, ApplyFault, Patch, apply, read_patch};
use std::process::Abort;

fn patch_of(rt: &(impl Abort + AllocGlobal), text: &str) -> Patch {
    let tree = read(rt, text);
    let patch = read_patch(rt.alloc(), &tree).expect(rt, "a patch");
    drop(tree);
    patch
}

// What a patch makes of a document.
fn patched(
    rt: &(impl Abort + AllocGlobal),
    document: &Tree,
    patch: &str,
) -> Result<Tree, ApplyFault> {
    let patch = patch_of(rt, patch);
    let made = apply(rt.alloc(), document, &patch);
    drop(patch);
    made
}

/// Whether a patch makes this of a document.
pub(crate) fn makes(
    rt: &(impl Abort + AllocGlobal),
    document: &Tree,
    patch: &str,
    wanted: &Tree,
) -> bool {
    let made = patched(rt, document, patch).expect(rt, "a document");
    let is_wanted = equal(&made, wanted);
    drop(made);
    is_wanted
}

// Why a patch of a document can't be done, if it can't.
fn fault_of(rt: &(impl Abort + AllocGlobal), document: &Tree, patch: &str) -> Option<ApplyFault> {
    patched(rt, document, patch).err()
}

/// Stops the test unless the patch of the document is done, or isn't, as is said.
pub(crate) fn check_done(
    rt: &(impl Abort + AllocGlobal),
    document: &Tree,
    patch: &str,
    is_done: bool,
) {
    let fault = fault_of(rt, document, patch);
    check(rt, fault.is_none() == is_done, patch);
}

/// Stops the test unless this operation of the patch is the first that can't be done, for this cause.
pub(crate) fn check_refused(
    rt: &(impl Abort + AllocGlobal),
    document: &Tree,
    patch: &str,
    index: u32,
    cause: ApplyCause,
) {
    let fault = fault_of(rt, document, patch);
    let wanted = ApplyFault::Operation { index, cause };
    check(rt, fault == Some(wanted), patch);
}

/// A number's digits.
pub(crate) fn digits(rt: &(impl Abort + AllocGlobal), number: u32) -> String {
    format!(in rt.alloc(); "{number}").expect(rt, "memory")
}

/// Puts an operation with a number in it behind the text of a patch.
pub(crate) fn push_operation(
    rt: &(impl Abort + AllocGlobal),
    patch: &mut String,
    front: &str,
    number: u32,
    back: &str,
) {
    let digits = digits(rt, number);
    push(rt, patch, front);
    push(rt, patch, digits.as_str());
    push(rt, patch, back);
}

/// A list of so many nulls.
pub(crate) fn nulls(rt: &(impl Abort + AllocGlobal), count: usize) -> Tree {
    let mut all = Vec::new(rt.alloc());
    for _ in 0..count {
        all.push(Tree { node: Node::Null }).expect(rt, "memory");
    }
    Tree {
        node: Node::Items(Trees { all }),
    }
}
