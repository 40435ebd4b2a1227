ghost use Rattle.std.specs.Prelude.{◌≡◌, ◌<◌, ◌+◌, ◌&&◌, ◌∷◌, List, Some, length, is_some, bytes_eq, codes};
ghost use Rattle.std.specs.Prelude.{[], IfOk, OnOk, option_map, slice_get};
ghost use Rattle.base_types.specs.Meaning.{Meaning};
ghost use Rattle.cluster_setup.specs.Files.{is_listing, list_revision, metadata_word, or_empty, start_word};
ghost use Rattle.cluster_setup.specs.Found.{is_listed_again};
ghost use Rattle.cluster_setup.specs.Indexed.{AreListed, IsFirstWrong, is_listed_twice, refined};
ghost use Rattle.cluster_setup.specs.Refusing.{list_fault, file_fault, first_refused};

use crate::documents::{Document, documents_of};
use crate::fault::{FileFault, SetupRefusal};
use crate::files::{has_more, is_discovery, is_listing, list_revision, start_word};
use crate::finding::is_elsewhere;
use crate::sources::Sources;
use crate::words::{group_of, metadata_word, word};
use base_types::OutOfMemory;
use base_types::json::Tree;
use std::alloc::Global;
use std::collections::BTreeSet;

// The groups and kinds of lists.
type Listed<'a> = BTreeSet<(&'a str, &'a str)>;

// Whether a list was read at the revision of this text.
fn is_at(start: &str, list: &Tree) -> bool
    ensures { result ≡ (is_some (list_revision list.now)
        && bytes_eq (metadata_word (codes "resourceVersion") list.now) start.now) }
{
    list_revision(list).is_some() && metadata_word(list, "resourceVersion") == start
}

// The text of the first list's revision; the empty one where there is no list.
fn start_of(trees: &[Tree]) -> &str
    ensures { result.now ≡ or_empty (start_word trees.now) }
{
    match start_word(trees) {
        Some(start) => start,
        None => "",
    }
}

// What is wrong with a list; it is told whether a file behind it is a list of the same resource. Of a resource that no
// document has in the list's version it isn't looked for whether one has it in another.
fn list_fault<'a>(
    sources: &Sources<'a>,
    start: &str,
    again: bool,
    list: &'a Tree,
) -> Option<FileFault>
    requires { start.now ≡ or_empty (start_word sources.now) }
    ensures { (later : List Meaning) → again ≡ is_listed_again later list.now
        → option_map (refined sources.now list.now) result ≡ list_fault sources.now later list.now }
{
    if has_more(list) {
        return Some(FileFault::Pages);
    }
    if sources.source_found(list).is_none() {
        return Some(FileFault::Unknown);
    }
    if again {
        return Some(FileFault::Twice);
    }
    if is_at(start, list) {
        None
    } else {
        Some(FileFault::Revision)
    }
}

// What is wrong with a file; it is told whether it is a list, as is a file behind it, of one resource.
fn file_fault<'a>(
    sources: &Sources<'a>,
    start: &str,
    again: bool,
    tree: &'a Tree,
) -> Option<FileFault>
    requires { start.now ≡ or_empty (start_word sources.now) }
    ensures { (later : List Meaning) → again ≡ is_listed_twice later tree.now
        → option_map (refined sources.now tree.now) result ≡ file_fault sources.now later tree.now }
{
    if is_discovery(tree) {
        return None;
    }
    if is_listing(tree) {
        list_fault(sources, start, again, tree)
    } else {
        Some(FileFault::Kind)
    }
}

// Puts a file in front of those behind it. Says whether it is a list of which a file behind it is another.
fn add_listed<'a>(behind: &mut Listed<'a>, tree: &'a Tree) -> Result<bool, OutOfMemory>
    ensures again { IfOk result (λ again. (later : List Meaning) → AreListed behind.old later
        → again ≡ is_listed_twice later tree.now) }
    ensures listed { OnOk result ((later : List Meaning) → AreListed behind.old later
        → AreListed behind.new (tree.now ∷ later)) }
{
    if !is_listing(tree) {
        return Ok(false);
    }
    let names = (group_of(word(tree, "apiVersion")), word(tree, "kind"));
    let added = behind.insert(names)?;
    Ok(!added)
}

// Where the first file stands with which something is wrong, and what; no list was looked at before.
fn first_among<'a>(
    sources: &Sources<'a>,
    behind: &mut Listed<'a>,
    trees: &'a [Tree],
) -> Result<Option<(usize, FileFault)>, OutOfMemory>
    requires told { sources.now ≡ trees.now }
    requires none { AreListed behind.old [] }
    ensures { IfOk result (IsFirstWrong trees.now 0) }
{
    let start = start_of(trees);
    let mut first = None;
    for at in (0..trees.len()).rev() {
        let tree = &trees[at];
        let again = add_listed(behind, tree)?;
        if let Some(code) = file_fault(sources, start, again, tree) {
            first = Some((at, code));
        }
    }
    Ok(first)
}

// The same, of files with the names of their entries.
fn first_told<'a>(
    alloc: Global,
    documents: &'a [Document<'a>],
    trees: &'a [Tree],
) -> Result<Option<(usize, FileFault)>, OutOfMemory>
    requires { documents.now ≡ trees.now }
    ensures { IfOk result (IsFirstWrong trees.now 0) }
{
    let sources = Sources::new(alloc, documents)?;
    let mut behind = BTreeSet::new(alloc);
    first_among(&sources, &mut behind, trees)
}

// The first file with which something is wrong.
fn first_wrong(alloc: Global, trees: &[Tree]) -> Result<Option<(usize, FileFault)>, OutOfMemory>
    ensures { IfOk result (IsFirstWrong trees.now 0) }
{
    let documents = documents_of(alloc, trees)?;
    first_told(alloc, documents.as_slice(), trees)
}

// What is wrong with a file, looked for among all files: some document may have a resource in another version.
fn refined(trees: &[Tree], tree: &Tree, code: FileFault) -> FileFault
    ensures { result ≡ refined trees.now tree.now code }
{
    match code {
        FileFault::Unknown if is_elsewhere(trees, tree) => FileFault::Version,
        _ => code,
    }
}

// Why the file at a place is refused. Of this file alone it is looked for among all others what is wrong.
fn refused_at(trees: &[Tree], at: usize, code: FileFault) -> SetupRefusal
    requires { at < length trees.now }
    ensures { (tree : Meaning) → slice_get trees.now at ≡ Some tree
        → result ≡ SetupRefusal.File (at + 1) (refined trees.now tree code) }
{
    let number = at + 1;
    let code = refined(trees, &trees[at], code);
    SetupRefusal::File { number, code }
}

/// The first file with which something is wrong.
pub fn first_refused(alloc: Global, trees: &[Tree]) -> Result<Option<SetupRefusal>, OutOfMemory>
    ensures { IfOk result (λ refused. refused ≡ first_refused trees.now trees.now) }
{
    match first_wrong(alloc, trees)? {
        Some((at, code)) => Ok(Some(refused_at(trees, at, code))),
        None => Ok(None),
    }
}
