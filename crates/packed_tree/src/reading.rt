ghost use Rattle.std.specs.Prelude.{◌≡◌, ◌++◌, ◌∷◌, [], IsTrue, ◌↔◌, IfOk, IfNone, option_map, option_to_list};
ghost use Rattle.base_types.specs.Meaning.{fields_of};
ghost use Rattle.base_types.specs.Names.{AreSorted};
ghost use Rattle.base_types.specs.Parts.{lookup, member_of, is_null, whole_of, text_of, items_of, members_of};
ghost use Rattle.base_types.specs.Texts.{text_at, non_empty, filled_at, revision_at};
ghost use Rattle.packed_tree.specs.Decoding.{decode};
ghost use Rattle.packed_tree.specs.Encoding.{encode};
ghost use Rattle.packed_tree.specs.Showing.{meaning_of};
ghost use Rattle.packed_tree.specs.Sound.{IsSound, IsPacked};

use crate::building::build;
use crate::framing::cut;
use crate::scalars::{below_zero, not_below_zero, str_of};
use base_types::json::Tree;
use base_types::{OutOfMemory, Revision, revision_of};
use std::alloc::Global;
use std::marker::Model;

/// A JSON value within a packed one. Contracts see it as a `Meaning`.
#[derive(Drop)]
pub struct PackedRef<'a> {
    bytes: &'a [u8],
}

/// The items of a packed array that are still to be read.
#[derive(Drop)]
pub struct PackedItems<'a> {
    bytes: &'a [u8],
}

/// The members of a packed object that are still to be read, in the order of their names.
#[derive(Drop)]
pub struct PackedMembers<'a> {
    bytes: &'a [u8],
}

impl<'a> Model for PackedRef<'a> {
    ghost use Rattle.base_types.specs.Meaning.{Meaning};
    ghost use Rattle.base_types.specs.Code.{coded_meaning};
    ghost use Rattle.packed_tree.specs.Decoding.{decode};
    ghost use Rattle.packed_tree.specs.Sound.{IsPacked};

    ghost Value = { Meaning };

    ghost coded = { coded_meaning };

    ghost view = { λ r. decode r.bytes.now };

    ghost invariant = { λ r. IsPacked r.bytes.now };
}

impl<'a> Model for PackedItems<'a> {
    ghost use Rattle.std.specs.Prelude.{List};
    ghost use Rattle.std.specs.Coded.{coded_list};
    ghost use Rattle.base_types.specs.Meaning.{Meaning, kids_list};
    ghost use Rattle.base_types.specs.Code.{coded_meaning};
    ghost use Rattle.packed_tree.specs.Decoding.{kids_in};
    ghost use Rattle.packed_tree.specs.Sound.{AreKidsPacked};

    ghost Value = { List Meaning };

    ghost coded = { coded_list coded_meaning };

    ghost view = { λ r. kids_list (kids_in r.bytes.now) };

    ghost invariant = { λ r. AreKidsPacked r.bytes.now };
}

impl<'a> Model for PackedMembers<'a> {
    ghost use Rattle.std.specs.Prelude.{List, ℕ};
    ghost use Rattle.std.specs.Coded.{coded_list, coded×};
    ghost use Rattle.base_types.specs.Meaning.{Meaning, fields_list};
    ghost use Rattle.base_types.specs.Code.{coded_meaning, coded_bytes};
    ghost use Rattle.packed_tree.specs.Decoding.{fields_in};
    ghost use Rattle.packed_tree.specs.Sound.{AreFieldsPacked};

    ghost Value = { List (List ℕ × Meaning) };

    ghost coded = { coded_list (coded× coded_bytes coded_meaning) };

    ghost view = { λ r. fields_list (fields_in r.bytes.now) };

    ghost invariant = { λ r. AreFieldsPacked r.bytes.now };
}

/// One level of a packed value.
#[derive(Drop)]
pub enum Shown<'a> {
    Null,
    Flag(bool),
    Whole(i128),
    Words(&'a str),
    Items(PackedItems<'a>),
    Members(PackedMembers<'a>),
}

// The value of these bytes.
pub(crate) fn reader(bytes: &[u8]) -> PackedRef<'_>
    requires { IsPacked bytes.now }
    ensures { result ≡ decode bytes.entry.now }
{
    PackedRef { bytes }
}

// One level of the value of these bytes.
fn level_of(bytes: &[u8]) -> Shown<'_>
    requires { IsPacked bytes.now }
    ensures { meaning_of result ≡ decode bytes.entry.now }
{
    match bytes {
        [] => Shown::Null,
        [tag, rest @ ..] => tagged_level(*tag, rest),
    }
}

// What a byte in front, and those behind it, show.
fn tagged_level(tag: u8, rest: &[u8]) -> Shown<'_>
    requires { IsPacked (tag ∷ rest.now) }
    ensures { meaning_of result ≡ decode (tag ∷ rest.entry.now) }
{
    match tag {
        1 => Shown::Flag(false),
        2 => Shown::Flag(true),
        3 => Shown::Whole(not_below_zero(rest)),
        4 => Shown::Whole(below_zero(rest)),
        5 => Shown::Words(str_of(rest)),
        6 => Shown::Items(PackedItems { bytes: rest }),
        7 => Shown::Members(PackedMembers { bytes: rest }),
        _ => Shown::Null,
    }
}

fn non_empty(text: &str) -> Option<&str>
    ensures { option_map (λ text. text.now) result ≡ non_empty text.entry.now }
{
    if text.is_empty() { None } else { Some(text) }
}

impl<'a> PackedRef<'a> {
    /// What the value is, and what it holds.
    pub fn show(&self) -> Shown<'a>
        ensures { meaning_of result ≡ self.now }
    {
        level_of(self.bytes)
    }

    /// The value of an object's member.
    pub fn member(&self, name: &str) -> Option<PackedRef<'a>>
        ensures { result ≡ member_of name.now self.now }
    {
        match self.show() {
            Shown::Members(list) => list.get(name),
            _ => None,
        }
    }

    /// The text of a member that is a text.
    pub fn text_at(&self, name: &str) -> Option<&'a str>
        ensures { option_map (λ text. text.now) result ≡ text_at name.now self.now }
    {
        self.member(name)?.as_text()
    }

    /// The text of a member, where it has at least one byte.
    pub fn filled_at(&self, name: &str) -> Option<&'a str>
        ensures { option_map (λ text. text.now) result ≡ filled_at name.now self.now }
    {
        non_empty(self.text_at(name)?)
    }

    /// The revision that the text of a member spells.
    pub fn revision_at(&self, name: &str) -> Option<Revision>
        ensures { result ≡ revision_at name.now self.now }
    {
        revision_of(self.text_at(name)?)
    }

    pub fn is_null(&self) -> bool
        ensures { result ≡ is_null self.now }
    {
        matches!(self.show(), Shown::Null)
    }

    pub fn as_whole(&self) -> Option<i128>
        ensures { result ≡ whole_of self.now }
    {
        match self.show() {
            Shown::Whole(number) => Some(number),
            _ => None,
        }
    }

    pub fn as_text(&self) -> Option<&'a str>
        ensures { option_map (λ s. s.now) result ≡ text_of self.now }
    {
        match self.show() {
            Shown::Words(text) => Some(text),
            _ => None,
        }
    }

    pub fn as_items(&self) -> Option<PackedItems<'a>>
        ensures { result ≡ items_of self.now }
    {
        match self.show() {
            Shown::Items(list) => Some(list),
            _ => None,
        }
    }

    pub fn as_members(&self) -> Option<PackedMembers<'a>>
        ensures { result ≡ members_of self.now }
    {
        match self.show() {
            Shown::Members(list) => Some(list),
            _ => None,
        }
    }

    /// The bytes that stand for the value.
    pub(crate) fn as_bytes(&self) -> &'a [u8]
        ensures value { result.now ≡ encode self.now }
        ensures sound { IsSound self.now }
    {
        self.bytes
    }

    /// The tree of this value.
    pub fn tree(&self, alloc: Global) -> Result<Tree, OutOfMemory>
        ensures { IfOk result (λ tree. tree ≡ self.now) }
    {
        build(alloc, self)
    }
}

impl<'a> PackedItems<'a> {
    pub fn is_empty(&self) -> bool
        ensures { IsTrue result ↔ (self.now ≡ []) }
    {
        self.bytes.is_empty()
    }

    /// The next item.
    pub fn next(&mut self) -> Option<PackedRef<'a>>
        ensures item { self.old ≡ option_to_list result ++ self.new }
        ensures none { IfNone result (self.old ≡ []) }
    {
        if self.bytes.is_empty() {
            return None;
        }
        let (item, rest) = cut(self.bytes);
        self.bytes = rest;
        Some(PackedRef { bytes: item })
    }
}

impl<'a> PackedMembers<'a> {
    /// The next member: its name and its value.
    pub fn next(&mut self) -> Option<(&'a str, PackedRef<'a>)>
        ensures member { self.old ≡ option_to_list (option_map (λ m. (m.0.now, m.1)) result)
            ++ self.new }
        ensures none { IfNone result (self.old ≡ []) }
    {
        if self.bytes.is_empty() {
            return None;
        }
        let (name, behind) = cut(self.bytes);
        let (value, rest) = cut(behind);
        self.bytes = rest;
        Some((str_of(name), PackedRef { bytes: value }))
    }

    /// The value of the member of a name.
    pub fn get(&self, name: &str) -> Option<PackedRef<'a>>
        ensures { result ≡ lookup name.now (fields_of self.now) }
    {
        let mut rest = PackedMembers { bytes: self.bytes };
        'members: while let Some((key, value)) = rest.next() {
            if key == name {
                return Some(value);
            }
        }
        None
    }

    /// The names are in order. It does nothing.
    pub fn sorted(&self)
        ensures { AreSorted self.now }
    {
        let _bytes = &self.bytes;
    }
}
