ghost use Rattle.std.specs.Prelude.{◌≡◌, IfOk};

use crate::reading::{PackedItems, PackedMembers, PackedRef, Shown};
use base_types::json::{Member, MemberList, Node, Tree, Trees};
use base_types::{OutOfMemory, Text};
use std::alloc::Global;

/// The tree of a packed value.
#[cycle(build)]
pub(crate) fn build(alloc: Global, value: &PackedRef<'_>) -> Result<Tree, OutOfMemory>
    ensures { IfOk result (λ tree. tree ≡ value.now) }
{
    match value.show() {
        Shown::Null => Ok(Tree { node: Node::Null }),
        Shown::Flag(flag) => Ok(Tree {
            node: Node::Flag(flag),
        }),
        Shown::Whole(number) => Ok(Tree {
            node: Node::Whole(number),
        }),
        Shown::Words(text) => Ok(Tree {
            node: Node::Words(Text::from_str(alloc, text)?),
        }),
        Shown::Items(list) => Ok(Tree {
            node: Node::Items(build_items(alloc, list)?),
        }),
        Shown::Members(list) => Ok(Tree {
            node: Node::Members(build_members(alloc, list)?),
        }),
    }
}

#[cycle(build)]
fn build_items(alloc: Global, list: PackedItems<'_>) -> Result<Trees, OutOfMemory>
    ensures { IfOk result (λ trees. trees ≡ list.entry) }
{
    let mut all = Vec::new(alloc);
    let mut rest = list;
    'items: while let Some(item) = rest.next() {
        all.push(build(alloc, &item)?)?;
    }
    Ok(Trees { all })
}

#[cycle(build)]
fn build_members(alloc: Global, list: PackedMembers<'_>) -> Result<MemberList, OutOfMemory>
    ensures { IfOk result (λ made. made ≡ list.entry) }
{
    let mut all = Vec::new(alloc);
    list.sorted();
    let mut rest = list;
    'members: while let Some((name, value)) = rest.next() {
        let name = Text::from_str(alloc, name)?;
        let value = build(alloc, &value)?;
        all.push(Member { name, value })?;
    }
    Ok(MemberList { all })
}
