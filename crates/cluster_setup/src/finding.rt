ghost use Rattle.std.specs.Prelude.{◌≡◌, option_map};
ghost use Rattle.cluster_setup.specs.Found.{is_list_of, is_entry_for, entry_in, has_entry, is_of_group, is_elsewhere};

use crate::documents::Document;
use crate::files::is_discovery;
use crate::words::{group_of, is_whole_name, listed, word};
use base_types::json::Tree;

/// The `APIResourceList` that has a resource, and its entry there.
#[derive(Clone, Copy)]
pub struct FoundResource<'a> {
    pub document: &'a Document<'a>,
    pub entry: &'a Tree,
}

// Whether the kind of lists is the kind with `List` behind it.
fn is_list_of(kind: &str, list_kind: &str) -> bool
    ensures { result ≡ is_list_of kind.now list_kind.now }
{
    match list_kind.strip_prefix(kind) {
        Some(rest) => rest == "List",
        None => false,
    }
}

// Whether an entry is that of the resource whose list this is.
fn is_entry_for(list: &Tree, entry: &Tree) -> bool
    ensures { result ≡ is_entry_for list.now entry.now }
{
    is_whole_name(word(entry, "name")) && is_list_of(word(entry, "kind"), word(list, "kind"))
}

fn entry_in<'a>(list: &Tree, document: &'a Tree) -> Option<&'a Tree>
    ensures { option_map (λ entry. entry.now) result ≡ entry_in list.now document.now }
{
    listed(document, "resources")
        .iter()
        .find(|entry| is_entry_for(list, entry))
}

fn has_entry(list: &Tree, document: &Tree) -> bool
    ensures { result ≡ has_entry list.now document.now }
{
    is_discovery(document) && entry_in(list, document).is_some()
}

fn is_of_group(list: &Tree, document: &Tree) -> bool
    ensures { result ≡ is_of_group list.now document.now }
{
    has_entry(list, document)
        && group_of(word(document, "groupVersion")) == group_of(word(list, "apiVersion"))
}

/// Whether a document has the list's resource in some version.
pub fn is_elsewhere(trees: &[Tree], list: &Tree) -> bool
    ensures { result ≡ is_elsewhere trees.now list.now }
{
    trees.iter().any(|document| is_of_group(list, document))
}
