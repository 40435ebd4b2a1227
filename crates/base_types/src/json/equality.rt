ghost use Rattle.std.specs.Prelude.{◌≡◌, ◌↔◌, IsTrue};

use crate::json::tree::{Member, MemberList, Node, Tree, Trees};

/// Whether two trees are the same JSON value.
#[cycle(equal)]
pub fn equal(a: &Tree, b: &Tree) -> bool
    ensures { IsTrue result ↔ (a.now ≡ b.now) }
{
    match (&a.node, &b.node) {
        (Node::Null, Node::Null) => true,
        (Node::Flag(x), Node::Flag(y)) => *x == *y,
        (Node::Whole(x), Node::Whole(y)) => *x == *y,
        (Node::Words(x), Node::Words(y)) => *x == *y,
        (Node::Items(x), Node::Items(y)) => equal_items(x, y),
        (Node::Members(x), Node::Members(y)) => equal_members(x, y),
        _ => false,
    }
}

#[cycle(equal)]
fn equal_items(a: &Trees, b: &Trees) -> bool
    ensures { IsTrue result ↔ (a.now ≡ b.now) }
{
    if a.all.len() != b.all.len() {
        return false;
    }
    for i in 0..a.all.len() {
        if !equal(&a.all[i], &b.all[i]) {
            return false;
        }
    }
    true
}

#[cycle(equal)]
fn equal_members(a: &MemberList, b: &MemberList) -> bool
    ensures { IsTrue result ↔ (a.now ≡ b.now) }
{
    if a.all.len() != b.all.len() {
        return false;
    }
    for i in 0..a.all.len() {
        if !equal_member(&a.all[i], &b.all[i]) {
            return false;
        }
    }
    true
}

#[cycle(equal)]
fn equal_member(a: &Member, b: &Member) -> bool
    ensures { IsTrue result ↔ (a.now ≡ b.now) }
{
    a.name == b.name && equal(&a.value, &b.value)
}

impl PartialEq for Tree {
    ghost use Rattle.base_types.specs.Same.{same, same-equiv};
    ghost use Rattle.std.specs.Cmp.{partial_equiv_from_equiv};

    ghost eq = { same };

    ghost laws = { partial_equiv_from_equiv same-equiv };

    fn eq(&self, other: &Tree) -> bool {
        equal(self, other)
    }
}

impl Eq for Tree {
    ghost use Rattle.base_types.specs.Same.{same-equiv};

    ghost laws = { same-equiv };
}
