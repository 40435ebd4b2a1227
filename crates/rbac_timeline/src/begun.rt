ghost use Rattle.std.specs.Prelude.{◌≡◌, ◌<◌, ◌≤◌, ℕ, ⊤, Contains, List, length, IfOk, IfSome, MatchOption};
ghost use Rattle.std.specs.Prelude.{slice_index_or};
ghost use Rattle.rbac_timeline.specs.declared.version.RbacEnd.{RbacEnd};
ghost use Rattle.rbac_timeline.specs.Kept.{AreGaps, IsRemovalOf};
ghost use Rattle.rbac_timeline.specs.Reigning.{AreBegun, LastsUpto, reign_of};
ghost use Rattle.rbac_timeline.specs.Unsure.{last_place};

use crate::history::{Gap, Removals};
use crate::reigns::Reign;
use crate::version::RbacVersion;
use base_types::{ObjectKey, OutOfMemory};
use std::alloc::Global;

/// A version, and a place behind which it isn't there.
#[derive(Clone, Copy)]
pub struct Begun<'a> {
    pub version: &'a RbacVersion,
    pub last: u64,
}

impl<'a> Begun<'a> {
    /// From where the version began.
    pub fn reign(&self) -> Result<Reign, OutOfMemory>
        ensures { IfOk result (λ reign. reign ≡ reign_of self.now) }
    {
        Ok(Reign {
            key: self.version.key.clone()?,
            first: self.version.revision.get(),
            last: self.last,
        })
    }
}

// The last place before the next version, if it is one of the key.
fn before_next(version: &RbacVersion, next: Option<&RbacVersion>) -> u64
    ensures { (place : ℕ) → place ≤ last_place → MatchOption next.entry ⊤
        (λ n. n.now.key ≡ version.now.key
        → n.now.revision ≤ place → n.now.revision ≤ version.now.revision) → place ≤ result }
{
    let Some(next) = next else {
        return u64::MAX;
    };
    let revision = next.revision.get();
    if next.key != version.key || revision <= version.revision.get() {
        return u64::MAX;
    }
    revision - 1
}

// The last place at which the object may be there, as far as its removal says.
fn before_end(gap: Option<Gap>) -> u64
    ensures { (place : ℕ) → place ≤ last_place → MatchOption gap ⊤ (λ gap. place < gap.high)
        → place ≤ result }
{
    match gap {
        Some(gap) => gap.high.saturating_sub(1),
        None => u64::MAX,
    }
}

fn removal_of(removals: &Removals, key: &ObjectKey, last: u64) -> Option<Gap>
    ensures { (ends : List RbacEnd) → AreGaps removals.now ends
        → IsRemovalOf ends key.now last result }
{
    match removals.get(key) {
        Some(gaps) => gaps.behind(last),
        None => None,
    }
}

fn behind(versions: &[RbacVersion], index: usize) -> Option<&RbacVersion>
    requires { index < length versions.now }
    ensures { IfSome result (λ next. Contains versions.now next.now) }
{
    versions.get(index + 1)
}

// One of the versions, which stand in the order of their keys and revisions.
fn begun_at<'a>(versions: &'a [RbacVersion], index: usize, removals: &Removals) -> Begun<'a>
    requires { index < length versions.now }
    ensures version { result.version.now ≡ slice_index_or versions.now index result.version.now }
    ensures last { (ends : List RbacEnd) → AreGaps removals.now ends → LastsUpto versions.now ends
        result.version.now result.last }
{
    let version = &versions[index];
    let next = before_next(version, behind(versions, index));
    let end = before_end(removal_of(removals, &version.key, version.revision.get()));
    Begun {
        version,
        last: next.min(end),
    }
}

fn begun_of<'a>(
    alloc: Global,
    versions: &'a [RbacVersion],
    removals: &Removals,
) -> Result<Vec<Begun<'a>>, OutOfMemory>
    ensures { IfOk result (λ begun. (ends : List RbacEnd) → AreGaps removals.now ends
        → AreBegun versions.now ends begun.items) }
{
    let mut begun = Vec::new(alloc);
    for index in 0..versions.len() {
        begun.push(begun_at(versions, index, removals))?;
    }
    Ok(begun)
}

/// The versions in the order in which they began.
pub fn in_order<'a>(
    alloc: Global,
    versions: &'a [RbacVersion],
    removals: &Removals,
) -> Result<Vec<Begun<'a>>, OutOfMemory>
    ensures { IfOk result (λ begun. (ends : List RbacEnd) → AreGaps removals.now ends
        → AreBegun versions.now ends begun.items) }
{
    let mut begun = begun_of(alloc, versions, removals)?;
    begun.sort_by_key(|one| one.version.revision.get())?;
    Ok(begun)
}
