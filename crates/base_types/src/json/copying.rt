ghost use Rattle.std.specs.Prelude.{◌≡◌, IfOk};

use crate::foundation::OutOfMemory;
use crate::json::tree::{Member, MemberList, Node, Tree, Trees};
use std::alloc::Global;

/// The same tree once more.
#[cycle(copy)]
pub fn copy(alloc: Global, tree: &Tree) -> Result<Tree, OutOfMemory>
    ensures { IfOk result (λ made. made ≡ tree.now) }
{
    let node = match &tree.node {
        Node::Null => Node::Null,
        Node::Flag(flag) => Node::Flag(*flag),
        Node::Whole(number) => Node::Whole(*number),
        Node::Words(text) => Node::Words(text.clone()?),
        Node::Items(list) => Node::Items(copy_items(alloc, list)?),
        Node::Members(list) => Node::Members(copy_members(alloc, list)?),
    };
    Ok(Tree { node })
}

#[cycle(copy)]
fn copy_items(alloc: Global, list: &Trees) -> Result<Trees, OutOfMemory>
    ensures { IfOk result (λ made. made ≡ list.now) }
{
    let mut all = Vec::with_capacity(alloc, list.all.len())?;
    for item in &list.all {
        all.push(copy(alloc, item)?)?;
    }
    Ok(Trees { all })
}

#[cycle(copy)]
fn copy_members(alloc: Global, list: &MemberList) -> Result<MemberList, OutOfMemory>
    ensures { IfOk result (λ made. made ≡ list.now) }
{
    let mut all = Vec::with_capacity(alloc, list.all.len())?;
    for member in &list.all {
        let name = member.name.clone()?;
        let value = copy(alloc, &member.value)?;
        all.push(Member { name, value })?;
    }
    Ok(MemberList { all })
}
