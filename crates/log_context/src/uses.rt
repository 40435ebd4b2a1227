ghost use Rattle.std.specs.Prelude.{◌≡◌, ◌++◌, ◌∷◌, [], List, Some, IfOk, OnOk};
ghost use Rattle.std.specs.BTreeMap.{Updates, get};
ghost use Rattle.clouds.specs.Kept.{text_order};
ghost use Rattle.object_past.specs.declared.version.Version.{Version as Recorded};
ghost use Rattle.log_context.specs.Histories.{history_of};
ghost use Rattle.log_context.specs.Uses.{AreUses, AreUsesOf, is_used_below};

use crate::context::Context;
use base_types::{OutOfMemory, Revision, Text};
use object_past::Version;
use std::alloc::Global;
use std::collections::BTreeMap;

type Revisions = BTreeMap<Text, u64>;

/// At which revision each uid comes first in a history: the least of a version that has it. A context doesn't keep it;
/// it is for those who try other objects before a write.
#[derive(Drop)]
pub struct FirstUses {
    pub(crate) revisions: Revisions,
}

/// Whether a version below the revision has the uid.
pub fn is_used(uses: &Revisions, revision: Revision, uid: &Text) -> bool
    ensures { result ≡ is_used_below (get text_order uses.now uid.now) revision }
{
    match uses.get(uid) {
        Some(first) => *first < revision.get(),
        None => false,
    }
}

fn put_use(uses: &mut Revisions, uid: &Text, revision: u64) -> Result<(), OutOfMemory>
    ensures { OnOk result (Updates text_order uses.old uses.new uid.now (Some revision)) }
{
    let copy = uid.clone()?;
    let _later = uses.insert(copy, revision)?;
    Ok(())
}

fn add_use(uses: &mut Revisions, version: &Version) -> Result<(), OutOfMemory>
    ensures { OnOk result ((versions : List Recorded) → AreUses versions uses.old
        → AreUses (versions ++ version.now ∷ []) uses.new) }
{
    if is_used(uses, version.revision, &version.uid) {
        return Ok(());
    }
    put_use(uses, &version.uid, version.revision.get())
}

// Where the uid of each version comes first.
fn uses_of(alloc: Global, versions: &[Version]) -> Result<Revisions, OutOfMemory>
    ensures { IfOk result (AreUses versions.now) }
{
    let mut uses = Revisions::new(alloc);
    for version in versions {
        add_use(&mut uses, version)?;
    }
    Ok(uses)
}

impl FirstUses {
    /// Where each uid comes first in the history of a context.
    pub fn of(alloc: Global, context: &Context) -> Result<FirstUses, OutOfMemory>
        ensures { IfOk result (AreUsesOf (history_of context.now)) }
    {
        let revisions = uses_of(alloc, context.versions())?;
        Ok(FirstUses { revisions })
    }
}
