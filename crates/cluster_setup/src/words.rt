ghost use Rattle.std.specs.Prelude.{◌≡◌, option_map};
ghost use Rattle.std.specs.List.{before_first, after_first};
ghost use Rattle.cluster_setup.specs.Files.{or_empty, word, or_no_items, listed, metadata_word, is_slash, group_of};
ghost use Rattle.cluster_setup.specs.Files.{version_of, is_whole_name};

use base_types::Text;
use base_types::json::Tree;

fn or_empty(text: Option<&Text>) -> &str
    ensures { result.now ≡ or_empty (option_map (λ text. text.now) text.entry) }
{
    match text {
        Some(text) => text.as_str(),
        None => "",
    }
}

/// The text of a member; the empty one where there is no such text.
pub fn word<'a>(tree: &'a Tree, name: &str) -> &'a str
    ensures { result.now ≡ word name.now tree.now }
{
    or_empty(tree.text_at(name))
}

fn or_no_items(trees: Option<&[Tree]>) -> &[Tree]
    ensures { result.now ≡ or_no_items (option_map (λ trees. trees.now) trees.entry) }
{
    match trees {
        Some(trees) => trees,
        None => &[],
    }
}

/// The items of a member that is a list; none where there is no such list.
pub fn listed<'a>(tree: &'a Tree, name: &str) -> &'a [Tree]
    ensures { result.now ≡ listed name.now tree.now }
{
    or_no_items(tree.items_at(name))
}

/// The text of a member of its `metadata`.
pub fn metadata_word<'a>(tree: &'a Tree, name: &str) -> &'a str
    ensures { result.now ≡ metadata_word name.now tree.now }
{
    match tree.member("metadata") {
        Some(metadata) => or_empty(metadata.text_at(name)),
        None => "",
    }
}

// The text up to the first slash, and what stands behind it.
fn cut(text: &str) -> (&str, &str)
    ensures front { result.0.now ≡ before_first is_slash text.now }
    ensures behind { result.1.now ≡ after_first is_slash text.now }
{
    match text.split_once('/') {
        Some(parts) => parts,
        None => (text, ""),
    }
}

/// The group of `GROUP/VERSION`; the core group's is left out with its slash.
pub fn group_of(text: &str) -> &str
    ensures { result.now ≡ group_of text.now }
{
    let (front, behind) = cut(text);
    if behind.is_empty() { "" } else { front }
}

/// The version of `GROUP/VERSION`.
pub fn version_of(text: &str) -> &str
    ensures { result.now ≡ version_of text.now }
{
    let (front, behind) = cut(text);
    if behind.is_empty() { front } else { behind }
}

/// Whether a name is RESOURCE, as opposed to RESOURCE/SUBRESOURCE.
pub fn is_whole_name(name: &str) -> bool
    ensures { result ≡ is_whole_name name.now }
{
    let (_front, behind) = cut(name);
    behind.is_empty()
}
