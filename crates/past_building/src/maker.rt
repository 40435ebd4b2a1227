ghost use Rattle.std.specs.Prelude.{◌≡◌, IfOk, count_by, is_none};
ghost use Rattle.past_building.specs.Chosen.{able_maker, finding_at, first_able, first_maker, maker_among, must_have_made};
ghost use Rattle.past_building.specs.Chosen.{shown_by};

use crate::bodies::Bodies;
use crate::making::finding_at;
use base_types::{OutOfMemory, Reason};
use object_past::Maker;
use std::alloc::Global;
use write_groups::LogEvent;

/// What is found of a write of a group behind the versions before it.
#[derive(Clone, Copy)]
pub struct JudgedWrite {
    pub number: u32,
    /// Why it could not have made its revision; None where it could.
    pub making: Option<Reason>,
}

// Whether a write could have made the revision, and couldn't have found it.
fn must_have_made<B: Bodies>(
    alloc: Global,
    bodies: &B,
    events: &[LogEvent],
    one: &JudgedWrite,
) -> Result<bool, OutOfMemory>
    ensures { IfOk result
        (λ must. must ≡ must_have_made (finding_at (B.body bodies.now) events.now) one.now) }
{
    match one.making {
        Some(_) => Ok(false),
        None => Ok(finding_at(alloc, bodies, events, one.number)?.is_some()),
    }
}

// The first that could have made the revision, and couldn't have found it.
fn first_maker<B: Bodies>(
    alloc: Global,
    bodies: &B,
    events: &[LogEvent],
    judged: &[JudgedWrite],
) -> Result<Option<u32>, OutOfMemory>
    ensures { IfOk result
        (λ maker. maker ≡ first_maker (finding_at (B.body bodies.now) events.now) judged.now) }
{
    for one in judged {
        if must_have_made(alloc, bodies, events, one)? {
            return Ok(Some(one.number));
        }
    }
    Ok(None)
}

// The first that could have made the revision.
fn first_able(judged: &[JudgedWrite]) -> Option<u32>
    ensures { result ≡ first_able judged.now }
{
    let one = judged.iter().find(|one| one.making.is_none())?;
    Some(one.number)
}

// How many could have made the revision.
fn able_count(judged: &[JudgedWrite]) -> usize
    ensures { result ≡ count_by (λ one. is_none one.making) judged.now }
{
    judged.iter().filter(|one| one.making.is_none()).count()
}

// Of those that could have made the revision the first that couldn't have found it, else the first. What they could
// have found is asked only where there are several, since it costs the comparing of whole bodies.
fn able_maker<B: Bodies>(
    alloc: Global,
    bodies: &B,
    events: &[LogEvent],
    judged: &[JudgedWrite],
) -> Result<Option<u32>, OutOfMemory>
    ensures { IfOk result
        (λ maker. maker ≡ able_maker (finding_at (B.body bodies.now) events.now) judged.now) }
{
    let able = first_able(judged);
    if able_count(judged) < 2 {
        return Ok(able);
    }
    match first_maker(alloc, bodies, events, judged)? {
        Some(number) => Ok(Some(number)),
        None => Ok(able),
    }
}

/// Who made the revision of a group, `first` being the group's first write.
pub fn maker_among<B: Bodies>(
    alloc: Global,
    bodies: &B,
    events: &[LogEvent],
    judged: &[JudgedWrite],
    first: u32,
    may_be_unrecorded: bool,
) -> Result<Maker, OutOfMemory>
    ensures { IfOk result
        (λ maker. maker ≡ maker_among (finding_at (B.body bodies.now) events.now) judged.now first
        may_be_unrecorded) }
{
    if let Some(number) = able_maker(alloc, bodies, events, judged)? {
        return Ok(Maker::Event(number));
    }
    if may_be_unrecorded {
        return Ok(Maker::Unknown);
    }
    Ok(Maker::Event(first))
}

/// The write whose answer shows the version that the maker left, `first` being the group's first write.
pub fn shown_by(maker: Maker, first: u32) -> u32
    ensures { result ≡ shown_by first maker }
{
    match maker {
        Maker::Event(number) => number,
        Maker::Snapshot | Maker::Unknown => first,
    }
}
