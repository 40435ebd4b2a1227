ghost use Rattle.std.specs.Prelude.{◌≡◌, ◌↔◌, IsTrue, Some};
ghost use Rattle.base_types.specs.Meaning.{kids_of, fields_of};
ghost use Rattle.path_shape.specs.Forms.{thin, thin_kids, thin_fields, left_of};
ghost use Rattle.path_shape.specs.Walk.{form};
ghost use Rattle.path_shape.specs.Merge.{IsTurn};

use crate::part::{Part, are_silent_from, is_silent};
use base_types::json::{Member, MemberList, Node, Tree, Trees};
use std::cmp::Ordering;

/// Whether the same is left of two parts.
pub fn is_same(x: Part<'_>, y: Part<'_>) -> bool
    ensures { IsTrue result ↔ (form x.entry ≡ form y.entry) }
{
    match (x, y) {
        (Part::Member(a), Part::Member(b)) => is_same_value(a, b),
        (Part::Item(a), Part::Item(b)) => is_same_tree(a, b),
        (Part::Member(a), Part::Item(b)) => is_value_of(a, b),
        (Part::Item(a), Part::Member(b)) => is_value_of(b, a),
        (x, y) => x.is_absent() && y.is_absent(),
    }
}

fn is_value_of(value: &Tree, tree: &Tree) -> bool
    ensures { IsTrue result ↔ (left_of value.now ≡ Some (thin tree.now)) }
{
    if is_silent(value) {
        return false;
    }
    is_same_tree(value, tree)
}

/// Whether the same is left of two members with these values.
#[cycle(sameness)]
fn is_same_value(x: &Tree, y: &Tree) -> bool
    ensures { IsTrue result ↔ (left_of x.now ≡ left_of y.now) }
{
    match (&x.node, &y.node) {
        (Node::Flag(a), Node::Flag(b)) => *a == *b,
        (Node::Whole(a), Node::Whole(b)) => *a == *b,
        (Node::Words(a), Node::Words(b)) => *a == *b,
        (Node::Items(a), Node::Items(b)) => are_same_items(a, b),
        (Node::Members(a), Node::Members(b)) => are_same_members(a, b),
        _ => is_silent(x) && is_silent(y),
    }
}

#[cycle(sameness)]
fn is_same_tree(x: &Tree, y: &Tree) -> bool
    ensures { IsTrue result ↔ (thin x.now ≡ thin y.now) }
{
    match (&x.node, &y.node) {
        (Node::Null, Node::Null) => true,
        (Node::Flag(a), Node::Flag(b)) => *a == *b,
        (Node::Whole(a), Node::Whole(b)) => *a == *b,
        (Node::Words(a), Node::Words(b)) => *a == *b,
        (Node::Items(a), Node::Items(b)) => are_same_items(a, b),
        (Node::Members(a), Node::Members(b)) => are_same_members(a, b),
        _ => false,
    }
}

#[cycle(sameness)]
fn are_same_items(x: &Trees, y: &Trees) -> bool
    ensures { IsTrue result ↔ (thin_kids (kids_of x.now) ≡ thin_kids (kids_of y.now)) }
{
    if x.all.len() != y.all.len() {
        return false;
    }
    for i in 0..x.all.len() {
        if !is_same_tree(&x.all[i], &y.all[i]) {
            return false;
        }
    }
    true
}

// What the next members of two lists are to each other.
enum Turn {
    Both,
    First,
    Second,
    Differ,
}

#[cycle(sameness)]
fn turn_at(x: &Member, y: &Member) -> Turn
    ensures { IsTurn x.now y.now result }
{
    match x.name.as_str().cmp(y.name.as_str()) {
        Ordering::Equal => {
            if is_same_value(&x.value, &y.value) {
                Turn::Both
            } else {
                Turn::Differ
            }
        }
        Ordering::Less => {
            if is_silent(&x.value) {
                Turn::First
            } else {
                Turn::Differ
            }
        }
        Ordering::Greater => {
            if is_silent(&y.value) {
                Turn::Second
            } else {
                Turn::Differ
            }
        }
    }
}

#[cycle(sameness)]
fn are_same_members(x: &MemberList, y: &MemberList) -> bool
    ensures { IsTrue result ↔ (thin_fields (fields_of x.now) ≡ thin_fields (fields_of y.now)) }
{
    let mut i = 0;
    let mut j = 0;
    'merge: while i < x.all.len() && j < y.all.len() {
        match turn_at(&x.all[i], &y.all[j]) {
            Turn::Both => {
                i += 1;
                j += 1;
            }
            Turn::First => i += 1,
            Turn::Second => j += 1,
            Turn::Differ => return false,
        }
    }
    if !are_silent_from(x, i) {
        return false;
    }
    are_silent_from(y, j)
}
