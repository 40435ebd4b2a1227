ghost use Rattle.std.specs.Prelude.{◌≡◌, ◌<◌, ◌≤◌, ◌≤ℤ◌, ◌↔◌, All, AllPairs, Any, IfOk, IsTrue};
ghost use Rattle.std.specs.List.{AllZip};
ghost use Rattle.strict_order.specs.Judged.{IsEarlier, IsFirstSuch};
ghost use Rattle.strict_order.specs.Latest.{IsLatest};
ghost use Rattle.strict_order.specs.Printed.{IsPrinted};
ghost use Rattle.strict_order.specs.Strict.{IsStrict};
ghost use Rattle.strict_order.specs.Things.{Crosses, IsJudgedNoLater};

use crate::latest::{LatestMark, first_moment, marks_of};
use crate::thing::Thing;
use base_types::{Listed, Moment, OutOfMemory};
use std::alloc::Global;

/// A moment for each thing.
pub type MomentList = Listed<Moment>;

/// Whether all things can stand in one list along which neither moments nor numbers fall.
#[derive(Drop, PartialEq, Eq)]
pub enum Moments {
    /// The moments of the things, each the first that it can have.
    Found(MomentList),
    /// The lines of two things: by its numbers the first stands before the second, and by its moments
    /// only after it.
    Crossed { first: u64, second: u64 },
}

/// Whether `a` is judged before `b`, or is `b`.
fn is_judged_no_later(a: &Thing, b: &Thing) -> bool
    ensures { IsTrue result ↔ IsJudgedNoLater a.now b.now }
{
    (a.hi, a.line) <= (b.hi, b.line)
}

/// Whether `a` comes before `b` by its numbers, and only after it by its moments.
fn crosses(a: &Thing, b: &Thing) -> bool
    ensures { IsTrue result ↔ Crosses a.now b.now }
{
    a.greatest < b.least && b.hi < a.lo
}

/// The earlier of two things in the order of judgement.
fn earlier(first: Option<Thing>, next: &Thing) -> Thing
    ensures { IsEarlier first next.now result }
{
    match first {
        Some(first) if is_judged_no_later(&first, next) => first,
        _ => *next,
    }
}

/// The first moment that each thing can have, and the first thing for which that is too late.
fn moments_of(
    alloc: Global,
    things: &[Thing],
    marks: &[LatestMark],
) -> Result<(Vec<Moment>, Option<Thing>), OutOfMemory>
    requires marks { IsLatest things.now marks.now }
    requires moments { All (λ thing. thing.lo.0 ≤ℤ thing.hi.0) things.now }
    ensures printed { IfOk result (λ found. AllZip (IsPrinted things.now) things.now
        found.0.items) }
    ensures late { IfOk result (λ found. IsFirstSuch (λ b. Any (λ a. Crosses a b) things.now)
        things.now found.1) }
{
    let mut moments = Vec::with_capacity(alloc, things.len())?;
    let mut late = None;
    for thing in things {
        let moment = first_moment(marks, thing);
        if thing.hi < moment {
            late = Some(earlier(late, thing));
        }
        moments.push(moment)?;
    }
    Ok((moments, late))
}

/// The first thing that crosses `second`.
fn first_crossing(things: &[Thing], second: &Thing) -> Option<Thing>
    ensures { IsFirstSuch (λ a. Crosses a second.now) things.now result }
{
    let mut crossing = None;
    for thing in things {
        if crosses(thing, second) {
            crossing = Some(earlier(crossing, thing));
        }
    }
    crossing
}

ghost use Rattle.strict_order.specs.Moments.{IsSettled, IsFound};

/// Settles a moment for each thing, or finds two things that can't stand in one list.
pub fn settle_moments(alloc: Global, things: &[Thing]) -> Result<Moments, OutOfMemory>
    requires lines { AllPairs (λ a b. a.line < b.line) things.now }
    requires moments { All (λ thing. thing.lo.0 ≤ℤ thing.hi.0) things.now }
    requires numbers { All (λ thing. thing.least ≤ thing.greatest) things.now }
    ensures settled { IfOk result (IsSettled things.now) }
    ensures strict { IfOk result (λ moments. IsFound moments ↔ IsStrict things.now) }
{
    let marks = marks_of(alloc, things)?;
    let (moments, late) = moments_of(alloc, things, &marks)?;
    let Some(second) = late else {
        return Ok(Moments::Found(Listed::from_vec(moments)));
    };
    let first = first_crossing(things, &second).unwrap();
    Ok(Moments::Crossed {
        first: first.line,
        second: second.line,
    })
}
