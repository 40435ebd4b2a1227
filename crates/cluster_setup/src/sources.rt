ghost use Rattle.std.specs.Prelude.{◌≡◌, ◌∷◌, List, IfOk, OnOk, option_map};
ghost use Rattle.base_types.specs.Meaning.{Meaning};
ghost use Rattle.cluster_setup.specs.Found.{found_for};
ghost use Rattle.cluster_setup.specs.Indexed.{AreEntries, AreSources, pair_of, source_found};

use crate::documents::Document;
use crate::files::{is_discovery, is_listing};
use crate::finding::FoundResource;
use crate::words::{is_whole_name, listed, word};
use base_types::OutOfMemory;
use base_types::json::Tree;
use std::alloc::Global;
use std::collections::BTreeMap;
use std::marker::Model;

// The first entry of each version and kind of objects.
type Entries<'a> = BTreeMap<(&'a str, &'a str), FoundResource<'a>>;

/// All files, and where each resource is told in them.
#[derive(Drop)]
pub struct Sources<'a> {
    documents: &'a [Document<'a>],
    entries: Entries<'a>,
}

impl<'a> Model for Sources<'a> {
    ghost use Rattle.std.specs.Prelude.{List};
    ghost use Rattle.base_types.specs.Meaning.{Meaning};
    ghost use Rattle.base_types.specs.Code.{coded_meaning};
    ghost use Rattle.std.specs.Coded.{coded_list};
    ghost use Rattle.cluster_setup.specs.Indexed.{AreSources};

    ghost Value = { List Meaning };

    ghost coded = { coded_list coded_meaning };

    ghost view = { λ s. s.documents.now };

    ghost invariant = { λ s. AreSources s.entries s.documents.now };
}

// Puts an entry in front of those behind it in its document.
fn add_entry<'a>(
    entries: &mut Entries<'a>,
    document: &'a Document<'a>,
    entry: &'a Tree,
) -> Result<(), OutOfMemory>
    ensures { OnOk result ((later behind : List Meaning)
        → AreEntries entries.old document.now later behind
        → AreEntries entries.new document.now (entry.now ∷ later) behind) }
{
    if !is_whole_name(word(entry, "name")) {
        return Ok(());
    }
    let names = (word(document.tree(), "groupVersion"), word(entry, "kind"));
    entries.insert(names, FoundResource { document, entry })?;
    Ok(())
}

// Puts what a file tells of resources in front of what the files behind it do.
fn add_document<'a>(
    entries: &mut Entries<'a>,
    document: &'a Document<'a>,
) -> Result<(), OutOfMemory>
    ensures { OnOk result ((behind : List Meaning) → AreSources entries.old behind
        → AreSources entries.new (document.now ∷ behind)) }
{
    let tree = document.tree();
    if !is_discovery(tree) {
        return Ok(());
    }
    let told = listed(tree, "resources");
    for at in (0..told.len()).rev() {
        add_entry(entries, document, &told[at])?;
    }
    Ok(())
}

impl<'a> Sources<'a> {
    /// These files with their map. They are put in from the last to the first, so that the first of a version and
    /// kind stays.
    pub fn new(alloc: Global, documents: &'a [Document<'a>]) -> Result<Sources<'a>, OutOfMemory>
        ensures { IfOk result (λ sources. sources ≡ documents.now) }
    {
        let mut entries = BTreeMap::new(alloc);
        for at in (0..documents.len()).rev() {
            add_document(&mut entries, &documents[at])?;
        }
        Ok(Sources { documents, entries })
    }

    /// The document that has a list's resource in the list's version, and its entry there.
    pub fn source_found(&self, list: &'a Tree) -> Option<FoundResource<'a>>
        ensures { option_map pair_of result ≡ source_found self.now list.now }
    {
        let Some(kind) = word(list, "kind").strip_suffix("List") else {
            return None;
        };
        let names = (word(list, "apiVersion"), kind);
        self.entries.get(&names).copied()
    }

    /// The document and its entry of the resource whose list a file is.
    pub fn found_for(&self, list: &'a Tree) -> Option<FoundResource<'a>>
        ensures { option_map pair_of result ≡ found_for self.now list.now }
    {
        if !is_listing(list) {
            return None;
        }
        self.source_found(list)
    }
}
