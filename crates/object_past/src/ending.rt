ghost use Rattle.std.specs.Prelude.{◌≡◌, ◌≢◌, ◌<◌, ◌^◌, length, IfOk, IfSome, IfNone, All, Contains};
ghost use Rattle.std.specs.List.Sorted.{IsPermutation};
ghost use Rattle.object_past.specs.Endings.{ending_of, endings_from, AreEndings, ByLast};

use crate::removal::Removal;
use base_types::OutOfMemory;
use std::alloc::Global;

/// A removal found by the version that it ended.
#[derive(Clone, Copy, PartialEq, Eq)]
pub struct Ending {
    /// The revision of the version.
    pub last: u64,
    /// The position of the removal.
    pub position: u32,
    /// The end of the removal's range.
    pub high: u64,
}

fn ending_of(position: u32, removal: &Removal) -> Ending
    ensures { result ≡ ending_of position removal.now }
{
    Ending {
        last: removal.last.get(),
        position,
        high: removal.range.high,
    }
}

fn listed(alloc: Global, removals: &[Removal]) -> Result<Vec<Ending>, OutOfMemory>
    requires { length removals.now < 2 ^ 32 }
    ensures { IfOk result (λ endings. endings.items ≡ endings_from 0 removals.now) }
{
    let mut endings = Vec::with_capacity(alloc, removals.len())?;
    for (i, removal) in removals.iter().enumerate() {
        endings.push(ending_of(i as u32, removal))?;
    }
    Ok(endings)
}

fn by_last(mut endings: Vec<Ending>) -> Result<Vec<Ending>, OutOfMemory>
    ensures same { IfOk result (λ order. IsPermutation endings.items order.items) }
    ensures order { IfOk result (λ order. ByLast order.items) }
{
    endings.sort_by_key(|ending| ending.last)?;
    Ok(endings)
}

/// The removals by the versions that they ended.
pub fn endings_of(alloc: Global, removals: &[Removal]) -> Result<Vec<Ending>, OutOfMemory>
    requires { length removals.now < 2 ^ 32 }
    ensures { IfOk result (λ endings. AreEndings removals.now endings.items) }
{
    let endings = by_last(listed(alloc, removals)?)?;
    Ok(endings)
}

/// The ending of the version of this revision.
pub fn ending_behind(endings: &[Ending], last: u64) -> Option<Ending>
    requires { ByLast endings.now }
    ensures some { IfSome result (Contains endings.now) }
    ensures last { IfSome result (λ ending. ending.last ≡ last) }
    ensures none { IfNone result (All (λ ending. ending.last ≢ last) endings.now) }
{
    let upto = endings.partition_point(|ending| ending.last <= last);
    if upto == 0 {
        return None;
    }
    let ending = endings[upto - 1];
    if ending.last != last {
        return None;
    }
    Some(ending)
}
