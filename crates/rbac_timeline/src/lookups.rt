ghost use Rattle.std.specs.Prelude.{IfOk, List};
ghost use Rattle.rbac_timeline.specs.declared.version.RbacEnd.{RbacEnd};
ghost use Rattle.rbac_timeline.specs.Indexed.{IsIndexed, mentions_of};
ghost use Rattle.rbac_timeline.specs.Kept.{AreGaps};
ghost use Rattle.rbac_timeline.specs.Nameless.{AreLows};
ghost use Rattle.rbac_timeline.specs.Reigning.{AreReigning};
ghost use Rattle.rbac_timeline.specs.Unsure.{AreUnsure};

use crate::history::Removals;
use crate::index::Index;
use crate::nameless::Nameless;
use crate::reign_index::ReignIndex;
use crate::unsure::Unsure;
use crate::version::RbacVersion;
use base_types::OutOfMemory;
use clouds::{Clouds, OpaqueSpan};
use std::alloc::Global;

/// What a decision looks bindings and places up in, and the index of bindings by subject, which `bindings_of` gives.
#[derive(Drop)]
pub struct Lookups {
    pub index: Index,
    pub nameless: Nameless,
    pub unsure: Unsure,
    pub reigns: ReignIndex,
}

// What bindings are looked up in.
fn bindings_of(
    alloc: Global,
    versions: &[RbacVersion],
    spans: &[OpaqueSpan],
    clouds: &Clouds,
) -> Result<(Index, Unsure), OutOfMemory>
    ensures index { IfOk result (λ made. IsIndexed made.0 (mentions_of versions.now)) }
    ensures unsure { IfOk result (λ made. AreUnsure clouds.now versions.now spans.now made.1) }
{
    let index = Index::of(alloc, versions)?;
    let unsure = Unsure::of(alloc, versions, spans, clouds)?;
    Ok((index, unsure))
}

// The creates without a name, and how long versions are there.
fn reigns_of(
    alloc: Global,
    versions: &[RbacVersion],
    spans: &[OpaqueSpan],
    removals: &Removals,
) -> Result<(Nameless, ReignIndex), OutOfMemory>
    ensures nameless { IfOk result (λ made. AreLows made.0 spans.now) }
    ensures reigns { IfOk result (λ made. (ends : List RbacEnd) → AreGaps removals.now ends
        → AreReigning made.1 versions.now ends) }
{
    let nameless = Nameless::of(alloc, spans)?;
    let reigns = ReignIndex::of(alloc, versions, removals)?;
    Ok((nameless, reigns))
}

impl Lookups {
    /// Of the versions and the unrecorded writes.
    pub fn of(
        alloc: Global,
        versions: &[RbacVersion],
        spans: &[OpaqueSpan],
        clouds: &Clouds,
        removals: &Removals,
    ) -> Result<Lookups, OutOfMemory>
        ensures index { IfOk result (λ made. IsIndexed made.index (mentions_of versions.now)) }
        ensures nameless { IfOk result (λ made. AreLows made.nameless spans.now) }
        ensures unsure { IfOk result (λ made. AreUnsure clouds.now versions.now spans.now
            made.unsure) }
        ensures reigns { IfOk result (λ made. (ends : List RbacEnd) → AreGaps removals.now ends
            → AreReigning made.reigns versions.now ends) }
    {
        let (nameless, reigns) = reigns_of(alloc, versions, spans, removals)?;
        let Ok((index, unsure)) = bindings_of(alloc, versions, spans, clouds) else {
            drop(nameless);
            drop(reigns);
            return Err(OutOfMemory);
        };
        Ok(Lookups {
            index,
            nameless,
            unsure,
            reigns,
        })
    }
}
