ghost use Rattle.std.specs.Prelude.{◌≡◌, IfOk, OnOk};
ghost use Rattle.base_types.specs.Meaning.{fields_of};
ghost use Rattle.cluster_setup.specs.Shown.{setup_from};
ghost use Rattle.cluster_setup.specs.Making.{start_tree, with_lag};
ghost use Rattle.cluster_setup.specs.Parts.{with_content, with_lists, with_start};

use crate::building::{flag, object, put, said, whole};
use crate::documents::{Document, documents_of};
use crate::entries::entries_in;
use crate::objects::objects_in;
use crate::sources::Sources;
use base_types::OutOfMemory;
use base_types::json::{MemberList, Tree, copy};
use std::alloc::Global;

/// By how many nanoseconds an authorizer's caches may be behind (`lagNanos`): a second.
const LAG: i128 = 1_000_000_000;

/// What a setup is made of.
#[derive(Clone, Copy)]
pub struct Given<'a> {
    /// The start's revision.
    pub revision: &'a str,
    pub time: &'a str,
    pub policy: &'a Tree,
    pub trees: &'a [Tree],
    pub authorize: bool,
}

fn start_tree(alloc: Global, revision: &str, time: &str) -> Result<Tree, OutOfMemory>
    ensures { IfOk result (λ tree. tree ≡ start_tree revision.now time.now) }
{
    let fields = said(alloc, &[("revision", revision), ("time", time)])?;
    Ok(object(fields))
}

// Says how far an authorizer's caches may be behind, where decisions are judged.
fn add_lag(alloc: Global, fields: &mut MemberList, authorize: bool) -> Result<(), OutOfMemory>
    ensures { OnOk result (fields_of fields.new ≡ with_lag authorize (fields_of fields.old)) }
{
    if authorize {
        put(alloc, fields, "lagNanos", whole(LAG))?;
    }
    Ok(())
}

// Says where a log begins, and whether decisions are judged.
fn add_start(alloc: Global, fields: &mut MemberList, given: Given<'_>) -> Result<(), OutOfMemory>
    ensures { OnOk result (fields_of fields.new ≡ with_start given.entry.revision.now
        given.entry.time.now given.entry.authorize (fields_of fields.old)) }
{
    put(alloc, fields, "version", whole(1))?;
    let start = start_tree(alloc, given.revision, given.time)?;
    put(alloc, fields, "start", start)?;
    put(alloc, fields, "authorize", flag(given.authorize))?;
    add_lag(alloc, fields, given.authorize)
}

// Says what is tracked, and what was there, by where resources are told.
fn add_found<'a>(
    alloc: Global,
    fields: &mut MemberList,
    sources: &Sources<'a>,
    trees: &'a [Tree],
    shown: &'a [Tree],
) -> Result<(), OutOfMemory>
    ensures { OnOk result (fields_of fields.new
        ≡ with_lists sources.now trees.now shown.now (fields_of fields.old)) }
{
    let entries = entries_in(alloc, sources, trees)?;
    put(alloc, fields, "resources", entries)?;
    let objects = objects_in(alloc, sources, shown)?;
    put(alloc, fields, "snapshot", objects)
}

// Says what is tracked, and what was there, by all files.
fn add_told<'a>(
    alloc: Global,
    fields: &mut MemberList,
    documents: &'a [Document<'a>],
    trees: &'a [Tree],
    shown: &'a [Tree],
) -> Result<(), OutOfMemory>
    ensures { OnOk result (fields_of fields.new
        ≡ with_lists documents.now trees.now shown.now (fields_of fields.old)) }
{
    let sources = Sources::new(alloc, documents)?;
    add_found(alloc, fields, &sources, trees, shown)
}

// Says what is recorded, what is tracked, and what was there.
fn add_content<'a>(
    alloc: Global,
    fields: &mut MemberList,
    given: Given<'a>,
    shown: &'a [Tree],
) -> Result<(), OutOfMemory>
    ensures { OnOk result (fields_of fields.new ≡ with_content given.entry.policy.now
        given.entry.trees.now shown.now (fields_of fields.old)) }
{
    put(alloc, fields, "policy", copy(alloc, given.policy)?)?;
    let documents = documents_of(alloc, given.trees)?;
    add_told(alloc, fields, documents.as_slice(), given.trees, shown)
}

/// The setup of all files' resources, with the objects of some of them.
pub fn setup_tree<'a>(
    alloc: Global,
    given: Given<'a>,
    shown: &'a [Tree],
) -> Result<Tree, OutOfMemory>
    ensures { IfOk result (λ tree. tree ≡ setup_from given.entry shown.now) }
{
    let mut fields = said(alloc, &[("kind", "PastSetup")])?;
    add_start(alloc, &mut fields, given)?;
    add_content(alloc, &mut fields, given, shown)?;
    Ok(object(fields))
}
