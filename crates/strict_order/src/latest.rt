ghost use Rattle.std.specs.Prelude.{◌≡◌, ◌+◌, ◌<◌, ◌≤◌, List, IfOk, length, map};

use crate::thing::Thing;
use base_types::{Moment, OutOfMemory};
use std::alloc::Global;

/// The latest `lo` among the things up to one of them, in the order of their greatest numbers.
#[derive(Clone, Copy, PartialEq, Eq, PartialOrd, Ord)]
pub struct LatestMark {
    pub number: u128,
    pub lo: Moment,
}

ghost use Rattle.strict_order.specs.declared.thing.Thing.{Thing};
ghost use Rattle.strict_order.specs.Latest.{IsByNumber, IsLatest, IsLatestSoFar, mark_of};
ghost use Rattle.strict_order.specs.Printed.{IsPrinted};

/// Puts at each mark the latest moment up to it.
fn raise(marks: &mut [LatestMark])
    ensures { IsLatestSoFar marks.old marks.new }
{
    for i in 1..marks.len() {
        let before = marks[i - 1].lo;
        let mark = &mut marks[i];
        if mark.lo < before {
            mark.lo = before;
        }
    }
}

/// The things' own moments, by number.
fn by_number(alloc: Global, things: &[Thing]) -> Result<Vec<LatestMark>, OutOfMemory>
    ensures { IfOk result (λ marks. IsByNumber things.now marks.items) }
{
    let mut marks = own_marks(alloc, things)?;
    marks.sort()?;
    Ok(marks)
}

fn own_marks(alloc: Global, things: &[Thing]) -> Result<Vec<LatestMark>, OutOfMemory>
    ensures { IfOk result (λ marks. marks.items ≡ map mark_of things.now) }
{
    let marks = things
        .iter()
        .map(|thing| LatestMark {
            number: thing.greatest,
            lo: thing.lo,
        })
        .collect(alloc)?;
    Ok(marks)
}

/// The marks of all things.
pub fn marks_of(alloc: Global, things: &[Thing]) -> Result<Vec<LatestMark>, OutOfMemory>
    ensures { IfOk result (λ marks. IsLatest things.now marks.items) }
{
    let mut marks = by_number(alloc, things)?;
    raise(&mut marks);
    Ok(marks)
}

/// The first moment that a thing can have: the latest `lo` of its own and of those that come before it.
pub fn first_moment(marks: &[LatestMark], thing: &Thing) -> Moment
    ensures { (things : List Thing) → IsLatest things marks.now
        → IsPrinted things thing.now result }
{
    let before = marks.partition_point(|mark| mark.number < thing.least);
    if before == 0 {
        return thing.lo;
    }
    thing.lo.max(marks[before - 1].lo)
}
