ghost use Rattle.std.specs.Prelude.{◌≡◌, ◌↔◌, IsTrue, false, Some, option_map, if◌then◌else◌};
ghost use Rattle.base_types.specs.Parts.{lookup, member_of};
ghost use Rattle.base_types.specs.Meaning.{Meaning, kids_of, fields_of, flag, whole, words, items, members, Kids};
ghost use Rattle.base_types.specs.Meaning.{Fields};
ghost use Rattle.path_shape.specs.Agreement.{Holds};
ghost use Rattle.path_shape.specs.Forms.{says_nothing, thin, thin_kids, thin_fields, left_of, is_held_by};
ghost use Rattle.path_shape.specs.Forms.{is_held_by_child, are_held_in_turn};
ghost use Rattle.path_shape.specs.Walk.{form, whole as tree_of};
ghost use Rattle.path_shape.specs.Holding.{IsHolding, is_missing, object_or_null};

use crate::part::{Part, is_empty_list, is_silent};
use base_types::Text;
use base_types::json::{MemberList, Node, Tree, Trees};

/// How an answer stands to what is asked at a place.
#[derive(Clone, Copy)]
enum Holding {
    /// Nothing is asked.
    Silent,
    Held,
    Missing,
}

/// Whether nothing is asked at a place, or the answer holds it.
pub fn is_held(asked: Part<'_>, answered: Part<'_>) -> bool
    ensures { IsTrue result ↔ Holds (form answered.entry) (form asked.entry) }
{
    match asked {
        Part::Absent => true,
        Part::Member(tree) => is_value_held(tree, answered),
        Part::Item(tree) => is_tree_held(tree, answered),
    }
}

fn is_value_held(asked: &Tree, answered: Part<'_>) -> bool
    ensures { IsTrue result ↔ Holds (form answered.entry) (left_of asked.now) }
{
    !is_missing(holding_of(asked, tree_in(answered)))
}

fn is_tree_held(asked: &Tree, answered: Part<'_>) -> bool
    ensures { IsTrue result ↔ Holds (form answered.entry) (Some (thin asked.now)) }
{
    match answered {
        Part::Absent => false,
        Part::Member(tree) => {
            if is_silent(tree) {
                return false;
            }
            is_item_held(asked, tree)
        }
        Part::Item(tree) => is_item_held(asked, tree),
    }
}

fn tree_in<'a>(part: Part<'a>) -> Option<&'a Tree>
    ensures { option_map (λ t. t.now) result ≡ tree_of part.entry }
{
    match part {
        Part::Absent => None,
        Part::Member(tree) => Some(tree),
        Part::Item(tree) => Some(tree),
    }
}

fn items_in<'a>(tree: Option<&'a Tree>) -> Option<&'a Trees>
    ensures { (ts : Kids) → is_held_by_child (items ts) (option_map (λ t. thin t.now) tree.entry)
        ≡ is_held_by_child (items ts) (option_map
        (λ us. items (thin_kids (kids_of us.now))) result) }
{
    match tree {
        None => None,
        Some(tree) => match &tree.node {
            Node::Items(list) => Some(list),
            _ => None,
        },
    }
}

fn members_in<'a>(tree: Option<&'a Tree>) -> Option<&'a MemberList>
    ensures { (ms : Fields) → is_held_by_child (members ms)
        (option_map (λ t. thin t.now) tree.entry) ≡ is_held_by_child (members ms)
        (option_map members (option_map (λ ns. thin_fields (fields_of ns.now)) result)) }
{
    match tree {
        None => None,
        Some(tree) => match &tree.node {
            Node::Members(list) => Some(list),
            _ => None,
        },
    }
}

// The value of a member of an object that may be absent.
fn value_in<'a>(list: Option<&'a MemberList>, name: &str) -> Option<&'a Tree>
    ensures { (t : Meaning) → says_nothing t ≡ false → is_held_by_child t
        (option_map (λ v. thin v.now) result) ≡ is_held_by_child t
        (member_of name.now (object_or_null (option_map (λ ns. thin_fields (fields_of ns.now))
        list.entry))) }
{
    match list {
        None => None,
        Some(list) => member_value(list, name),
    }
}

fn member_value<'a>(list: &'a MemberList, name: &str) -> Option<&'a Tree>
    ensures { (t : Meaning) → says_nothing t ≡ false → is_held_by_child t
        (option_map (λ v. thin v.now) result) ≡ is_held_by_child t
        (lookup name.now (thin_fields (fields_of list.now))) }
{
    let _all = &list.all;
    list.get(name)
}

fn is_missing(holding: Holding) -> bool
    ensures { result ≡ is_missing holding }
{
    match holding {
        Holding::Missing => true,
        Holding::Silent => false,
        Holding::Held => false,
    }
}

fn held_if(test: bool) -> Holding
    ensures { result ≡ (if test then Holding.Held else Holding.Missing) }
{
    if test {
        Holding::Held
    } else {
        Holding::Missing
    }
}

fn is_flag(tree: Option<&Tree>, test: bool) -> bool
    ensures { result ≡ is_held_by_child (flag test) (option_map (λ t. thin t.now) tree.entry) }
{
    match tree {
        None => false,
        Some(tree) => match &tree.node {
            Node::Flag(other) => test == *other,
            _ => false,
        },
    }
}

fn is_number(tree: Option<&Tree>, number: i128) -> bool
    ensures { result ≡ is_held_by_child (whole number) (option_map (λ t. thin t.now) tree.entry) }
{
    match tree {
        None => false,
        Some(tree) => match &tree.node {
            Node::Whole(other) => number == *other,
            _ => false,
        },
    }
}

fn is_text(tree: Option<&Tree>, text: &Text) -> bool
    ensures { result ≡ is_held_by_child (words text.now) (option_map (λ t. thin t.now) tree.entry) }
{
    match tree {
        None => false,
        Some(tree) => match &tree.node {
            Node::Words(other) => *text == *other,
            _ => false,
        },
    }
}

#[cycle(holdings)]
fn holding_of(asked: &Tree, answered: Option<&Tree>) -> Holding
    ensures { IsHolding (thin asked.now) (option_map (λ t. thin t.now) answered.entry) result }
{
    match &asked.node {
        Node::Null => Holding::Silent,
        Node::Flag(flag) => held_if(is_flag(answered, *flag)),
        Node::Whole(number) => held_if(is_number(answered, *number)),
        Node::Words(text) => held_if(is_text(answered, text)),
        Node::Items(list) => {
            if is_empty_list(list) {
                return Holding::Silent;
            }
            match items_in(answered) {
                None => Holding::Missing,
                Some(other) => held_if(are_held_in_turn(list, other)),
            }
        }
        Node::Members(list) => members_holding(list, members_in(answered)),
    }
}

#[cycle(holdings)]
fn is_item_held(asked: &Tree, answered: &Tree) -> bool
    ensures { result ≡ is_held_by (thin asked.now) (thin answered.now) }
{
    match (&asked.node, &answered.node) {
        (Node::Null, Node::Null) => true,
        (Node::Flag(x), Node::Flag(y)) => *x == *y,
        (Node::Whole(x), Node::Whole(y)) => *x == *y,
        (Node::Words(x), Node::Words(y)) => *x == *y,
        (Node::Items(x), Node::Items(y)) => are_held_in_turn(x, y),
        (Node::Members(x), Node::Members(y)) => !is_missing(members_holding(x, Some(y))),
        _ => false,
    }
}

#[cycle(holdings)]
fn are_held_in_turn(asked: &Trees, answered: &Trees) -> bool
    ensures { result ≡ are_held_in_turn (thin_kids (kids_of asked.now))
        (thin_kids (kids_of answered.now)) }
{
    if asked.all.len() != answered.all.len() {
        return false;
    }
    for i in 0..asked.all.len() {
        if !is_item_held(&asked.all[i], &answered.all[i]) {
            return false;
        }
    }
    true
}

#[cycle(holdings)]
fn members_holding(asked: &MemberList, answered: Option<&MemberList>) -> Holding
    ensures { IsHolding (members (thin_fields (fields_of asked.now))) (option_map members
        (option_map (λ ns. thin_fields (fields_of ns.now)) answered.entry)) result }
{
    let mut silent = true;
    for member in &asked.all {
        match holding_of(&member.value, value_in(answered, member.name.as_str())) {
            Holding::Silent => {}
            Holding::Held => silent = false,
            Holding::Missing => return Holding::Missing,
        }
    }
    if silent {
        Holding::Silent
    } else {
        Holding::Held
    }
}
