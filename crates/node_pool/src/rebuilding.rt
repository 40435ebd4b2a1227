ghost use Rattle.std.specs.Prelude.{◌≡◌, ◌<◌, ◌≤◌, Some, length, slice_get, map, IfOk};
ghost use Rattle.std.specs.List.{AllByRecursion};
ghost use Rattle.std.specs.List.Sorted.{IsStrictlySortedBy};
ghost use Rattle.std.specs.Ordering.{nat_cmp};
ghost use Rattle.std.specs.Cmp.Lexicographic.{slice_cmp};
ghost use Rattle.node_pool.specs.Within.{looked_up, told, name_of, IsFieldWithin};

use crate::form::Form;
use crate::store::Store;
use base_types::json::{Member, MemberList, Node, Tree, Trees};
use base_types::{OutOfMemory, Text};
use std::alloc::Global;

/// The tree of a number, as a tree of its own.
#[cycle(rebuild)]
pub fn rebuild(alloc: Global, store: &Store, number: u32) -> Result<Tree, OutOfMemory>
    requires { number < length store.now.trees }
    ensures { IfOk result (λ tree. slice_get store.now.trees number ≡ Some tree) }
{
    let Some(level) = store.level(number) else {
        unreachable!();
    };
    match &level.form {
        Form::Null => Ok(Tree { node: Node::Null }),
        Form::Flag(flag) => Ok(Tree {
            node: Node::Flag(*flag),
        }),
        Form::Whole(whole) => Ok(Tree {
            node: Node::Whole(*whole),
        }),
        Form::Words(text) => Ok(Tree {
            node: Node::Words(text.clone()?),
        }),
        Form::Items(numbers) => Ok(Tree {
            node: Node::Items(rebuild_items(alloc, store, numbers, number)?),
        }),
        Form::Members(numbers) => Ok(Tree {
            node: Node::Members(rebuild_members(alloc, store, numbers, number)?),
        }),
    }
}

// The trees of these numbers, which are all below the bound.
#[cycle(rebuild)]
fn rebuild_items(
    alloc: Global,
    store: &Store,
    numbers: &Vec<u32>,
    bound: u32,
) -> Result<Trees, OutOfMemory>
    requires within { AllByRecursion (λ k. k < bound) numbers.now.items }
    requires bound { bound ≤ length store.now.trees }
    ensures { IfOk result
        (λ list. map (slice_get store.now.trees) numbers.now.items ≡ map Some list) }
{
    let mut all = Vec::with_capacity(alloc, numbers.len())?;
    for number in numbers {
        all.push(rebuild(alloc, store, *number)?)?;
    }
    Ok(Trees { all })
}

// The members of these numbers, of which those of the values are all below the bound.
#[cycle(rebuild)]
fn rebuild_members(
    alloc: Global,
    store: &Store,
    numbers: &Vec<(usize, u32)>,
    bound: u32,
) -> Result<MemberList, OutOfMemory>
    requires within { AllByRecursion (IsFieldWithin store.now.names bound) numbers.now.items }
    requires sorted { IsStrictlySortedBy (slice_cmp nat_cmp)
        (map (name_of store.now.names) numbers.now.items) }
    requires bound { bound ≤ length store.now.trees }
    ensures { IfOk result (λ list. map (looked_up store.now.names store.now.trees) numbers.now.items
        ≡ map told list) }
{
    let mut all = Vec::with_capacity(alloc, numbers.len())?;
    for (name, value) in numbers {
        let name = Text::from_str(alloc, store.name(*name))?;
        let value = rebuild(alloc, store, *value)?;
        all.push(Member { name, value })?;
    }
    Ok(MemberList { all })
}
