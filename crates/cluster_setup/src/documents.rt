ghost use Rattle.std.specs.Prelude.{◌≡◌, IfOk, OnOk, codes};
ghost use Rattle.base_types.specs.Matching.{combined};
ghost use Rattle.cluster_setup.specs.Documents.{NamesAdded};
ghost use Rattle.cluster_setup.specs.Files.{word};
ghost use Rattle.cluster_setup.specs.Making.{is_served};

use crate::words::{listed, word};
use base_types::json::Tree;
use base_types::{OutOfMemory, Text};
use std::alloc::Global;
use std::collections::BTreeSet;
use std::marker::Model;

/// A file with the names of the entries that it has as an `APIResourceList`. There may be thousands, and the
/// subresources of each resource are looked for among them.
#[derive(Drop)]
pub struct Document<'a> {
    tree: &'a Tree,
    names: BTreeSet<Text>,
}

impl<'a> Model for Document<'a> {
    ghost use Rattle.std.specs.Prelude.{codes};
    ghost use Rattle.base_types.specs.Meaning.{Meaning};
    ghost use Rattle.base_types.specs.Code.{coded_meaning};
    ghost use Rattle.cluster_setup.specs.Documents.{AreNames};
    ghost use Rattle.cluster_setup.specs.Files.{listed};

    ghost Value = { Meaning };

    ghost coded = { coded_meaning };

    ghost view = { λ d. d.tree.now };

    ghost invariant = { λ d. AreNames d.names (listed (codes "resources") d.tree.now) };
}

// Puts the name of an entry to those of others.
fn add_name(alloc: Global, names: &mut BTreeSet<Text>, entry: &Tree) -> Result<(), OutOfMemory>
    ensures { OnOk result (NamesAdded names.old names.new (word (codes "name") entry.now)) }
{
    let _added = names.insert(Text::from_str(alloc, word(entry, "name"))?)?;
    Ok(())
}

// The text `RESOURCE/SUBRESOURCE`.
fn combined(alloc: Global, resource: &str, subresource: &str) -> Result<Text, OutOfMemory>
    ensures { IfOk result (λ text. text ≡ combined resource.now subresource.now) }
{
    Ok(Text::from_string(format!(in alloc; "{resource}/{subresource}")?))
}

impl<'a> Document<'a> {
    /// A file with the names of its entries.
    pub fn new(alloc: Global, tree: &'a Tree) -> Result<Document<'a>, OutOfMemory>
        ensures { IfOk result (λ document. document ≡ tree.now) }
    {
        let mut names = BTreeSet::new(alloc);
        let told = listed(tree, "resources");
        for entry in told {
            add_name(alloc, &mut names, entry)?;
        }
        Ok(Document { tree, names })
    }

    /// The file.
    pub fn tree(&self) -> &'a Tree
        ensures { result.now ≡ self.now }
    {
        self.tree
    }

    /// Whether the file has the subresource of a name.
    pub fn is_served(&self, alloc: Global, resource: &str, name: &str) -> Result<bool, OutOfMemory>
        ensures { IfOk result (λ is. is ≡ is_served self.now resource.now name.now) }
    {
        let combined = combined(alloc, resource, name)?;
        Ok(self.names.contains(&combined))
    }
}

/// Files with the names of their entries.
pub fn documents_of<'a>(alloc: Global, trees: &'a [Tree]) -> Result<Vec<Document<'a>>, OutOfMemory>
    ensures { IfOk result (λ documents. documents.items ≡ trees.now) }
{
    let mut documents = Vec::new(alloc);
    for tree in trees {
        documents.push(Document::new(alloc, tree)?)?;
    }
    Ok(documents)
}
