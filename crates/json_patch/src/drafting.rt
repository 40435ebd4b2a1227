ghost use Rattle.std.specs.Prelude.{◌≡◌, ◌++◌, IfOk, OnOk};

use crate::draft::{Chunk, Chunks, Draft, DraftMember, DraftMembers, DraftNode, MemberChunk};
use crate::members::push;
use base_types::OutOfMemory;
use base_types::json::{Member, MemberList, Node, Tree, Trees};
use std::alloc::Global;

/// The draft of a tree, which stays as it is.
#[cycle(draft_of)]
pub fn draft_of(alloc: Global, tree: &Tree) -> Result<Draft, OutOfMemory>
    ensures { IfOk result (λ made. made ≡ tree.now) }
{
    let node = match &tree.node {
        Node::Null => DraftNode::Null,
        Node::Flag(flag) => DraftNode::Flag(*flag),
        Node::Whole(number) => DraftNode::Whole(*number),
        Node::Words(text) => DraftNode::Words(text.clone()?),
        Node::Items(list) => DraftNode::Items(draft_items(alloc, list)?),
        Node::Members(list) => DraftNode::Members(draft_members(alloc, list)?),
    };
    Ok(Draft { node })
}

#[cycle(draft_of)]
fn draft_items(alloc: Global, list: &Trees) -> Result<Chunks, OutOfMemory>
    ensures { IfOk result (λ made. made ≡ list.now) }
{
    let mut made = Chunks::new(alloc);
    for item in &list.all {
        made.push(alloc, draft_of(alloc, item)?)?;
    }
    Ok(made)
}

#[cycle(draft_of)]
fn draft_members(alloc: Global, list: &MemberList) -> Result<DraftMembers, OutOfMemory>
    ensures { IfOk result (λ made. made ≡ list.now) }
{
    let mut parts = Vec::new(alloc);
    for member in &list.all {
        let name = member.name.clone()?;
        let value = draft_of(alloc, &member.value)?;
        push(alloc, &mut parts, DraftMember { name, value })?;
    }
    Ok(DraftMembers { parts })
}

/// The tree of a draft, which stays as it is.
#[cycle(tree_of)]
pub fn tree_of(alloc: Global, draft: &Draft) -> Result<Tree, OutOfMemory>
    ensures { IfOk result (λ made. made ≡ draft.now) }
{
    let node = match &draft.node {
        DraftNode::Null => Node::Null,
        DraftNode::Flag(flag) => Node::Flag(*flag),
        DraftNode::Whole(number) => Node::Whole(*number),
        DraftNode::Words(text) => Node::Words(text.clone()?),
        DraftNode::Items(list) => Node::Items(tree_items(alloc, list)?),
        DraftNode::Members(list) => Node::Members(tree_members(alloc, list)?),
    };
    Ok(Tree { node })
}

#[cycle(tree_of)]
fn tree_items(alloc: Global, list: &Chunks) -> Result<Trees, OutOfMemory>
    ensures { IfOk result (λ made. made ≡ list.now) }
{
    let mut all = Vec::with_capacity(alloc, list.len()?)?;
    for part in &list.parts {
        append_part(alloc, part, &mut all)?;
    }
    Ok(Trees { all })
}

#[cycle(tree_of)]
fn append_part(alloc: Global, part: &Chunk, all: &mut Vec<Tree>) -> Result<(), OutOfMemory>
    ensures { OnOk result (all.new.items ≡ all.old.items ++ part.now) }
{
    for item in &part.all {
        all.push(tree_of(alloc, item)?)?;
    }
    Ok(())
}

#[cycle(tree_of)]
fn tree_members(alloc: Global, list: &DraftMembers) -> Result<MemberList, OutOfMemory>
    ensures { IfOk result (λ made. made ≡ list.now) }
{
    let mut all = Vec::new(alloc);
    for part in &list.parts {
        append_members(alloc, part, &mut all)?;
    }
    Ok(MemberList { all })
}

#[cycle(tree_of)]
fn append_members(
    alloc: Global,
    part: &MemberChunk,
    all: &mut Vec<Member>,
) -> Result<(), OutOfMemory>
    ensures { OnOk result (all.new.items ≡ all.old.items ++ part.now) }
{
    for member in &part.all {
        let name = member.name.clone()?;
        let value = tree_of(alloc, &member.value)?;
        all.push(Member { name, value })?;
    }
    Ok(())
}

/// The same draft once more.
pub fn copy(alloc: Global, draft: &Draft) -> Result<Draft, OutOfMemory>
    ensures { IfOk result (λ made. made ≡ draft.now) }
{
    let tree = tree_of(alloc, draft)?;
    draft_of(alloc, &tree)
}
