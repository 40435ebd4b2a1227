ghost use Rattle.std.specs.Prelude.{◌≡◌, option_map, is_some};
ghost use Rattle.base_types.specs.Parts.{member_of};
ghost use Rattle.cluster_setup.specs.Files.{is_discovery, has_items, is_listing, has_remaining, has_more};
ghost use Rattle.cluster_setup.specs.Files.{list_revision, start_word};

use crate::words::{metadata_word, word};
use base_types::Revision;
use base_types::json::Tree;

/// Whether a file has the resources that the API server has of a group's version.
pub fn is_discovery(tree: &Tree) -> bool
    ensures { result ≡ is_discovery tree.now }
{
    word(tree, "kind") == "APIResourceList"
}

fn has_items(tree: &Tree) -> bool
    ensures { result ≡ has_items tree.now }
{
    tree.member("items").is_some() && tree.items_at("items").is_some()
}

/// Whether a file is a list of objects.
pub fn is_listing(tree: &Tree) -> bool
    ensures { result ≡ is_listing tree.now }
{
    !is_discovery(tree) && tree.member("metadata").is_some() && has_items(tree)
}

fn has_remaining(tree: &Tree) -> bool
    ensures { result ≡ has_remaining tree.now }
{
    match tree.member("metadata") {
        Some(metadata) => metadata.member("remainingItemCount").is_some(),
        None => false,
    }
}

/// Whether more pages follow a list.
pub fn has_more(tree: &Tree) -> bool
    ensures { result ≡ has_more tree.now }
{
    !metadata_word(tree, "continue").is_empty() || has_remaining(tree)
}

/// The revision at which a list was read.
pub fn list_revision(tree: &Tree) -> Option<Revision>
    ensures { result ≡ list_revision tree.now }
{
    tree.member("metadata")?.revision_at("resourceVersion")
}

/// The text of the first list's revision.
pub fn start_word(trees: &[Tree]) -> Option<&str>
    ensures { option_map (λ text. text.now) result ≡ start_word trees.now }
{
    let list = trees.iter().find(|tree| is_listing(tree))?;
    Some(metadata_word(list, "resourceVersion"))
}
