ghost use Rattle.std.specs.Prelude.{◌≡◌, ◌↔◌, Some, slice_get, map, IsTrue};
ghost use Rattle.node_pool.specs.Within.{looked_up, told};

use crate::form::Form;
use crate::store::Store;
use base_types::json::{Member, MemberList, Node, Tree, Trees};

/// Whether the tree of a number is this tree.
#[cycle(equals)]
pub fn equals(store: &Store, number: u32, tree: &Tree) -> bool
    ensures { IsTrue result ↔ (slice_get store.now.trees number ≡ Some tree.now) }
{
    let Some(level) = store.level(number) else {
        return false;
    };
    match (&level.form, &tree.node) {
        (Form::Null, Node::Null) => true,
        (Form::Flag(a), Node::Flag(b)) => *a == *b,
        (Form::Whole(a), Node::Whole(b)) => *a == *b,
        (Form::Words(a), Node::Words(b)) => *a == *b,
        (Form::Items(a), Node::Items(b)) => equal_items(store, a, b),
        (Form::Members(a), Node::Members(b)) => equal_members(store, a, b),
        _ => false,
    }
}

#[cycle(equals)]
fn equal_items(store: &Store, numbers: &Vec<u32>, list: &Trees) -> bool
    ensures { IsTrue result
        ↔ (map (slice_get store.now.trees) numbers.now.items ≡ map Some list.now) }
{
    if numbers.len() != list.all.len() {
        return false;
    }
    for i in 0..numbers.len() {
        if !equals(store, numbers[i], &list.all[i]) {
            return false;
        }
    }
    true
}

#[cycle(equals)]
fn equal_members(store: &Store, numbers: &Vec<(usize, u32)>, list: &MemberList) -> bool
    ensures { IsTrue result
        ↔ (map (looked_up store.now.names store.now.trees) numbers.now.items ≡ map told list.now) }
{
    if numbers.len() != list.all.len() {
        return false;
    }
    for i in 0..numbers.len() {
        if !equal_member(store, numbers[i], &list.all[i]) {
            return false;
        }
    }
    true
}

#[cycle(equals)]
fn equal_member(store: &Store, number: (usize, u32), member: &Member) -> bool
    ensures { IsTrue result ↔ (looked_up store.now.names store.now.trees number ≡ told member.now) }
{
    let (name, value) = number;
    store.name(name) == member.name.as_str() && equals(store, value, &member.value)
}
