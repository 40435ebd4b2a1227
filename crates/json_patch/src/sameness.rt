ghost use Rattle.std.specs.Prelude.{◌≡◌, ◌↔◌, IsTrue};
ghost use Rattle.base_types.specs.Same.{same};

use crate::draft::{Chunk, Chunks, Draft, DraftMember, DraftMembers, DraftNode, MemberChunk};
use base_types::json::{Member, MemberList, Node, Tree, Trees};

/// Whether a draft and a tree are the same JSON value. It looks no further than to the first difference.
pub fn is_same(draft: &Draft, tree: &Tree) -> bool
    ensures { result ≡ same draft.now tree.now }
{
    equal(draft, tree)
}

#[cycle(equal)]
fn equal(a: &Draft, b: &Tree) -> bool
    ensures { IsTrue result ↔ (a.now ≡ b.now) }
{
    match (&a.node, &b.node) {
        (DraftNode::Null, Node::Null) => true,
        (DraftNode::Flag(x), Node::Flag(y)) => *x == *y,
        (DraftNode::Whole(x), Node::Whole(y)) => *x == *y,
        (DraftNode::Words(x), Node::Words(y)) => *x == *y,
        (DraftNode::Items(x), Node::Items(y)) => equal_items(x, y),
        (DraftNode::Members(x), Node::Members(y)) => equal_members(x, y),
        _ => false,
    }
}

#[cycle(equal)]
fn equal_items(a: &Chunks, b: &Trees) -> bool
    ensures { IsTrue result ↔ (a.now ≡ b.now) }
{
    let mut rest = b.all.as_slice();
    for part in &a.parts {
        if part.len() > rest.len() {
            return false;
        }
        let (here, behind) = rest.split_at(part.len());
        if !equal_part(part, here) {
            return false;
        }
        rest = behind;
    }
    rest.is_empty()
}

#[cycle(equal)]
fn equal_part(a: &Chunk, b: &[Tree]) -> bool
    ensures { IsTrue result ↔ (a.now ≡ b.now) }
{
    if a.all.len() != b.len() {
        return false;
    }
    for i in 0..a.all.len() {
        if !equal(&a.all[i], &b[i]) {
            return false;
        }
    }
    true
}

#[cycle(equal)]
fn equal_members(a: &DraftMembers, b: &MemberList) -> bool
    ensures { IsTrue result ↔ (a.now ≡ b.now) }
{
    let mut rest = b.all.as_slice();
    for part in &a.parts {
        if part.len() > rest.len() {
            return false;
        }
        let (here, behind) = rest.split_at(part.len());
        if !equal_member_part(part, here) {
            return false;
        }
        rest = behind;
    }
    rest.is_empty()
}

#[cycle(equal)]
fn equal_member_part(a: &MemberChunk, b: &[Member]) -> bool
    ensures { IsTrue result ↔ (a.now ≡ b.now) }
{
    if a.all.len() != b.len() {
        return false;
    }
    for i in 0..a.all.len() {
        if !equal_member(&a.all[i], &b[i]) {
            return false;
        }
    }
    true
}

#[cycle(equal)]
fn equal_member(a: &DraftMember, b: &Member) -> bool
    ensures { IsTrue result ↔ (a.now ≡ b.now) }
{
    a.name == b.name && equal(&a.value, &b.value)
}
