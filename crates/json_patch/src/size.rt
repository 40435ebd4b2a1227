ghost use Rattle.std.specs.Prelude.{◌≡◌, ◌-◌, ◌^◌, min};
ghost use Rattle.base_types.specs.Meaning.{kids_of, fields_of};
ghost use Rattle.json_patch.specs.Limits.{depth, kids_depth, fields_depth, values, kids_values, fields_values};

use crate::draft::{Chunk, Chunks, Draft, DraftMembers, DraftNode, MemberChunk};

/// How large a document is. The numbers stop at 2^64 - 1.
#[derive(Clone, Copy)]
pub struct Size {
    /// How many values there are, the document itself among them.
    pub values: u64,
    /// How many containers stand one inside another.
    pub depth: u64,
}

#[cycle(size_of)]
pub fn size_of(tree: &Draft) -> Size
    ensures values { result.values ≡ min (values tree.now) (2 ^ 64 - 1) }
    ensures depth { result.depth ≡ min (depth tree.now) (2 ^ 64 - 1) }
{
    let inside = match &tree.node {
        DraftNode::Null | DraftNode::Flag(_) | DraftNode::Whole(_) | DraftNode::Words(_) => {
            return Size {
                values: 1,
                depth: 0,
            };
        }
        DraftNode::Items(list) => size_of_items(list),
        DraftNode::Members(list) => size_of_members(list),
    };
    Size {
        values: inside.values.saturating_add(1),
        depth: inside.depth.saturating_add(1),
    }
}

#[cycle(size_of)]
fn size_of_items(list: &Chunks) -> Size
    ensures values { result.values ≡ min (kids_values (kids_of list.now)) (2 ^ 64 - 1) }
    ensures depth { result.depth ≡ min (kids_depth (kids_of list.now)) (2 ^ 64 - 1) }
{
    let mut values = 0u64;
    let mut depth = 0u64;
    for part in &list.parts {
        let size = size_of_part(part);
        values = values.saturating_add(size.values);
        depth = depth.max(size.depth);
    }
    Size { values, depth }
}

#[cycle(size_of)]
fn size_of_part(part: &Chunk) -> Size
    ensures values { result.values ≡ min (kids_values (kids_of part.now)) (2 ^ 64 - 1) }
    ensures depth { result.depth ≡ min (kids_depth (kids_of part.now)) (2 ^ 64 - 1) }
{
    let mut values = 0u64;
    let mut depth = 0u64;
    for item in &part.all {
        let size = size_of(item);
        values = values.saturating_add(size.values);
        depth = depth.max(size.depth);
    }
    Size { values, depth }
}

#[cycle(size_of)]
fn size_of_members(list: &DraftMembers) -> Size
    ensures values { result.values ≡ min (fields_values (fields_of list.now)) (2 ^ 64 - 1) }
    ensures depth { result.depth ≡ min (fields_depth (fields_of list.now)) (2 ^ 64 - 1) }
{
    let mut values = 0u64;
    let mut depth = 0u64;
    for part in &list.parts {
        let size = size_of_member_part(part);
        values = values.saturating_add(size.values);
        depth = depth.max(size.depth);
    }
    Size { values, depth }
}

#[cycle(size_of)]
fn size_of_member_part(part: &MemberChunk) -> Size
    ensures values { result.values ≡ min (fields_values (fields_of part.now)) (2 ^ 64 - 1) }
    ensures depth { result.depth ≡ min (fields_depth (fields_of part.now)) (2 ^ 64 - 1) }
{
    let mut values = 0u64;
    let mut depth = 0u64;
    for member in &part.all {
        let size = size_of(&member.value);
        values = values.saturating_add(size.values);
        depth = depth.max(size.depth);
    }
    Size { values, depth }
}
