ghost use Rattle.std.specs.Prelude.{◌≡◌, drop, is_some, is_none};
ghost use Rattle.base_types.specs.Meaning.{kids_of, fields_of, items};
ghost use Rattle.base_types.specs.Parts.{lookup};
ghost use Rattle.base_types.specs.Pointers.{child_of};
ghost use Rattle.path_shape.specs.Forms.{says_nothing, has_no_kids, has_no_fields, thin, thin_kids, thin_fields};
ghost use Rattle.path_shape.specs.Forms.{child_in, left_root};
ghost use Rattle.path_shape.specs.Walk.{form, whole};

use base_types::json::{MemberList, Node, Tree, Trees};

/// A part of a thin form, of which the tree itself is kept.
#[derive(Clone, Copy)]
pub enum Part<'a> {
    Absent,
    /// A member's value. The thin form lacks it where nothing is left of it.
    Member(&'a Tree),
    /// An item of a list. It stays.
    Item(&'a Tree),
}

/// Whether null, an empty object or an empty list is left of a tree.
#[cycle(silence)]
pub fn is_silent(tree: &Tree) -> bool
    ensures { result ≡ says_nothing (thin tree.now) }
{
    match &tree.node {
        Node::Null => true,
        Node::Items(list) => is_empty_list(list),
        Node::Members(list) => are_silent(list),
        _ => false,
    }
}

pub fn is_empty_list(list: &Trees) -> bool
    ensures { result ≡ has_no_kids (thin_kids (kids_of list.now)) }
{
    match list.all.as_slice() {
        [] => true,
        [_, ..] => false,
    }
}

#[cycle(silence)]
fn are_silent(list: &MemberList) -> bool
    ensures { result ≡ has_no_fields (thin_fields (fields_of list.now)) }
{
    for member in &list.all {
        if !is_silent(&member.value) {
            return false;
        }
    }
    true
}

/// Whether all members from an index on leave nothing.
pub fn are_silent_from(list: &MemberList, index: usize) -> bool
    ensures { result ≡ has_no_fields (thin_fields (fields_of (drop index list.now))) }
{
    for i in index..list.all.len() {
        if !is_silent(&list.all[i].value) {
            return false;
        }
    }
    true
}

impl<'a> Part<'a> {
    pub fn is_absent(self) -> bool
        ensures { result ≡ is_none (form self.entry) }
    {
        match self {
            Part::Absent => true,
            Part::Member(tree) => is_silent(tree),
            Part::Item(_) => false,
        }
    }

    /// The member of a name, or the item of an index (RFC 6901 section 4).
    pub fn child(self, token: &str) -> Part<'a>
        ensures form { form result ≡ child_in token.now (form self.entry) }
        ensures whole { whole result ≡ child_in token.now (whole self.entry) }
    {
        match self {
            Part::Absent => Part::Absent,
            Part::Member(tree) => child_of(tree, token),
            Part::Item(tree) => child_of(tree, token),
        }
    }

    pub fn has_child(self, token: &str) -> bool
        ensures { result ≡ is_some (child_in token.now (whole self.entry)) }
    {
        match self.child(token) {
            Part::Absent => false,
            Part::Member(_) => true,
            Part::Item(_) => true,
        }
    }

    /// The root of an object; another tree counts as an empty one.
    pub fn root(tree: &'a Tree) -> Part<'a>
        ensures { form result ≡ left_root tree.now }
    {
        match &tree.node {
            Node::Members(_) => Part::Member(tree),
            _ => Part::Absent,
        }
    }
}

fn child_of<'a>(tree: &'a Tree, token: &str) -> Part<'a>
    ensures form { form result ≡ child_of token.now (thin tree.now) }
    ensures whole { whole result ≡ child_of token.now tree.now }
{
    match &tree.node {
        Node::Items(list) => item_of(list, token),
        Node::Members(list) => member_of(list, token),
        _ => Part::Absent,
    }
}

fn item_of<'a>(list: &'a Trees, token: &str) -> Part<'a>
    ensures form { form result ≡ child_of token.now (items (thin_kids (kids_of list.now))) }
    ensures whole { whole result ≡ child_of token.now (items (kids_of list.now)) }
{
    match list.item(token) {
        Some(item) => Part::Item(item),
        None => Part::Absent,
    }
}

/// The value of a member.
pub fn member_of<'a>(list: &'a MemberList, name: &str) -> Part<'a>
    ensures form { form result ≡ lookup name.now (thin_fields (fields_of list.now)) }
    ensures whole { whole result ≡ lookup name.now (fields_of list.now) }
{
    let _all = &list.all;
    match list.get(name) {
        Some(value) => Part::Member(value),
        None => Part::Absent,
    }
}
