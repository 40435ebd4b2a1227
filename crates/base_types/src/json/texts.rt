ghost use Rattle.std.specs.Prelude.{◌≡◌, IfOk, option_map};
ghost use Rattle.base_types.specs.Parts.{member_of};
ghost use Rattle.base_types.specs.Texts.{text_at, non_empty, filled_at, revision_at};
ghost use Rattle.base_types.specs.Texts.{items_or_none, texts_in, texts_of, texts_at};

use crate::foundation::{OutOfMemory, Text, Texts};
use crate::json::tree::Tree;
use crate::kubernetes::{Revision, revision_of};
use std::alloc::Global;

// The texts of these trees, where each is a text.
fn copied(alloc: Global, trees: &[Tree]) -> Result<Option<Texts>, OutOfMemory>
    ensures { IfOk result (λ found. found ≡ texts_in trees.now) }
{
    let mut texts = Texts::new(alloc);
    for tree in trees {
        let Some(text) = tree.as_text() else {
            return Ok(None);
        };
        texts.push(text.clone()?)?;
    }
    Ok(Some(texts))
}

fn non_empty(text: &Text) -> Option<&Text>
    ensures { option_map (λ text. text.now) result ≡ non_empty text.now }
{
    if text.is_empty() { None } else { Some(text) }
}

// The items of a list that may be missing or null.
fn items_or_none<'a>(member: Option<&'a Tree>) -> Option<&'a [Tree]>
    ensures { option_map (λ trees. trees.now) result ≡ items_or_none
        (option_map (λ tree. tree.now) member.entry) }
{
    match member {
        None => Some(&[]),
        Some(tree) if tree.is_null() => Some(&[]),
        Some(tree) => Some(tree.as_items()?.all.as_slice()),
    }
}

impl Tree {
    /// The text of a member that is a text.
    pub fn text_at(&self, name: &str) -> Option<&Text>
        ensures { option_map (λ text. text.now) result ≡ text_at name.now self.now }
    {
        self.member(name)?.as_text()
    }

    /// The text of a member, where it has at least one byte.
    pub fn filled_at(&self, name: &str) -> Option<&Text>
        ensures { option_map (λ text. text.now) result ≡ filled_at name.now self.now }
    {
        non_empty(self.text_at(name)?)
    }

    /// The revision that the text of a member spells.
    pub fn revision_at(&self, name: &str) -> Option<Revision>
        ensures { result ≡ revision_at name.now self.now }
    {
        revision_of(self.text_at(name)?.as_str())
    }

    /// The items of a member that is a list; no items where it is missing or null.
    pub fn items_at(&self, name: &str) -> Option<&[Tree]>
        ensures { option_map (λ trees. trees.now) result ≡ items_or_none
            (member_of name.now self.now) }
    {
        items_or_none(self.member(name))
    }

    /// The texts of a list of texts.
    pub fn to_texts(&self, alloc: Global) -> Result<Option<Texts>, OutOfMemory>
        ensures { IfOk result (λ found. found ≡ texts_of self.now) }
    {
        match self.as_items() {
            Some(items) => copied(alloc, items.all.as_slice()),
            None => Ok(None),
        }
    }

    /// The texts of a member that is a list of texts; none where there is no such member.
    pub fn texts_at(&self, alloc: Global, name: &str) -> Result<Option<Texts>, OutOfMemory>
        ensures { IfOk result (λ found. found ≡ texts_at name.now self.now) }
    {
        match self.member(name) {
            Some(value) => value.to_texts(alloc),
            None => Ok(Some(Texts::new(alloc))),
        }
    }
}
