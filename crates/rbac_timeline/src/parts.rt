ghost use Rattle.std.specs.Prelude.{◌≡◌, [], IfOk, List, map};
ghost use Rattle.rbac_timeline.specs.declared.version.RbacEnd.{RbacEnd};
ghost use Rattle.rbac_timeline.specs.Indexed.{IsIndexed, mentions_of};
ghost use Rattle.rbac_timeline.specs.Kept.{AreGaps, AreStored};
ghost use Rattle.rbac_timeline.specs.Known.{key_revision, known_of, writes_of};
ghost use Rattle.rbac_timeline.specs.Nameless.{AreLows};
ghost use Rattle.rbac_timeline.specs.Parts.{ArePartsOf};
ghost use Rattle.rbac_timeline.specs.Reigning.{AreReigning};
ghost use Rattle.rbac_timeline.specs.Unsure.{AreUnsure};

use crate::history::{Histories, Removals, histories_of, removals_of};
use crate::lookups::Lookups;
use crate::version::{RbacEnd, RbacEnds, RbacVersion, RbacVersions};
use base_types::{OutOfMemory, Texts};
use clouds::{Clouds, KeyRevision, OpaqueSpan, OpaqueSpans};
use std::alloc::Global;

/// What a timeline keeps besides the histories.
#[derive(Drop)]
pub struct Parts {
    pub bypass: Texts,
    pub removals: Removals,
    pub clouds: Clouds,
    pub lookups: Lookups,
}

fn key_revisions(alloc: Global, versions: &[RbacVersion]) -> Result<Vec<KeyRevision>, OutOfMemory>
    ensures { IfOk result (λ revisions. revisions.items ≡ map key_revision versions.now) }
{
    let mut revisions = Vec::new(alloc);
    for version in versions {
        revisions.push(KeyRevision {
            key: version.key.clone()?,
            revision: version.revision,
        })?;
    }
    Ok(revisions)
}

// What the unrecorded writes hide, where each version shows its object again.
fn clouds_of(
    alloc: Global,
    versions: &[RbacVersion],
    spans: &[OpaqueSpan],
) -> Result<Clouds, OutOfMemory>
    ensures { IfOk result (λ clouds. clouds ≡ writes_of (known_of versions.now [] spans.now)) }
{
    let revisions = key_revisions(alloc, versions)?;
    let clouds = Clouds::build(alloc, spans, revisions.as_slice())?;
    Ok(clouds)
}

fn copied(texts: &Texts) -> Result<Texts, OutOfMemory>
    ensures { IfOk result (λ copy. copy ≡ texts.now) }
{
    Ok(texts.clone()?)
}

// The groups and the removals.
fn few_parts(
    alloc: Global,
    ends: &[RbacEnd],
    bypass: &Texts,
) -> Result<(Texts, Removals), OutOfMemory>
    ensures bypass { IfOk result (λ made. made.0 ≡ bypass.now) }
    ensures removals { IfOk result (λ made. AreGaps made.1 ends.now) }
{
    let bypass = copied(bypass)?;
    let removals = removals_of(alloc, ends)?;
    Ok((bypass, removals))
}

// What the versions and the unrecorded writes are looked up in.
fn found_parts(
    alloc: Global,
    versions: &[RbacVersion],
    spans: &[OpaqueSpan],
    removals: &Removals,
) -> Result<(Clouds, Lookups), OutOfMemory>
    ensures clouds { IfOk result (λ made. made.0 ≡ writes_of (known_of versions.now [] spans.now)) }
    ensures index { IfOk result (λ made. IsIndexed made.1.index (mentions_of versions.now)) }
    ensures nameless { IfOk result (λ made. AreLows made.1.nameless spans.now) }
    ensures unsure { IfOk result (λ made. AreUnsure made.0 versions.now spans.now made.1.unsure) }
    ensures reigns { IfOk result (λ made. (ends : List RbacEnd) → AreGaps removals.now ends
        → AreReigning made.1.reigns versions.now ends) }
{
    let clouds = clouds_of(alloc, versions, spans)?;
    let Ok(lookups) = Lookups::of(alloc, versions, spans, &clouds, removals) else {
        drop(clouds);
        return Err(OutOfMemory);
    };
    Ok((clouds, lookups))
}

// Of the versions, the removals, the unrecorded writes and the groups. What is largest is made last, so that
// little has to be let go where there is no memory.
fn parts_of(
    alloc: Global,
    versions: &[RbacVersion],
    ends: &[RbacEnd],
    spans: &[OpaqueSpan],
    bypass: &Texts,
) -> Result<Parts, OutOfMemory>
    ensures { IfOk result (ArePartsOf versions.now ends.now spans.now bypass.now) }
{
    let (bypass, removals) = few_parts(alloc, ends, bypass)?;
    let Ok((clouds, lookups)) = found_parts(alloc, versions, spans, &removals) else {
        drop(bypass);
        drop(removals);
        return Err(OutOfMemory);
    };
    Ok(Parts {
        bypass,
        removals,
        clouds,
        lookups,
    })
}

// With the histories; the parts are let go where these find no memory.
fn with_histories(
    alloc: Global,
    versions: RbacVersions,
    parts: Parts,
) -> Result<(Histories, Parts), OutOfMemory>
    ensures stored { IfOk result (λ made. AreStored made.0 versions) }
    ensures parts { IfOk result (λ made. made.1 ≡ parts) }
{
    let Ok(histories) = histories_of(alloc, versions) else {
        drop(parts);
        return Err(OutOfMemory);
    };
    Ok((histories, parts))
}

/// Of what is known of the history, which is let go but for the versions that are kept.
pub fn all_parts(
    alloc: Global,
    versions: RbacVersions,
    ends: RbacEnds,
    spans: OpaqueSpans,
    bypass: &Texts,
) -> Result<(Histories, Parts), OutOfMemory>
    ensures stored { IfOk result (λ made. AreStored made.0 versions) }
    ensures parts { IfOk result (λ made. ArePartsOf versions ends spans bypass.now made.1) }
{
    let made = parts_of(
        alloc,
        versions.as_slice(),
        ends.as_slice(),
        spans.as_slice(),
        bypass,
    );
    drop(ends);
    drop(spans);
    let Ok(parts) = made else {
        drop(versions);
        return Err(OutOfMemory);
    };
    with_histories(alloc, versions, parts)
}
