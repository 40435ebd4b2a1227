ghost use Rattle.std.specs.Prelude.{◌≡◌, IfOk, map};

use crate::span::Span;
use base_types::{Moment, OutOfMemory};
use std::alloc::Global;

/// A moment at which a span begins or ends, and a revision. Marks are in order by their moments, and at
/// one moment by their revisions.
#[derive(Clone, Copy, PartialEq, Eq, PartialOrd, Ord)]
pub struct SpanMark {
    pub at: Moment,
    pub revision: u64,
}

ghost use Rattle.time_windows.specs.Marks.{start_of, end_of, IsInOrder, IsGreatestSoFar, IsLeastFromThere};
ghost use Rattle.time_windows.specs.Marks.{IsRunningGreatest, IsRunningLeast};

/// The end of each span.
pub fn ends_of(alloc: Global, spans: &[Span]) -> Result<Vec<SpanMark>, OutOfMemory>
    ensures { IfOk result (λ marks. marks.items ≡ map end_of spans.now) }
{
    let marks = spans
        .iter()
        .map(|span| SpanMark {
            at: span.hi,
            revision: span.revision.get(),
        })
        .collect(alloc)?;
    Ok(marks)
}

/// The start of each span.
pub fn starts_of(alloc: Global, spans: &[Span]) -> Result<Vec<SpanMark>, OutOfMemory>
    ensures { IfOk result (λ marks. marks.items ≡ map start_of spans.now) }
{
    let marks = spans
        .iter()
        .map(|span| SpanMark {
            at: span.lo,
            revision: span.revision.get(),
        })
        .collect(alloc)?;
    Ok(marks)
}

fn sorted(mut marks: Vec<SpanMark>) -> Result<Vec<SpanMark>, OutOfMemory>
    ensures { IfOk result (λ order. IsInOrder marks.items order.items) }
{
    marks.sort()?;
    Ok(marks)
}

/// Puts at each mark the greatest revision up to it.
fn raise(marks: &mut [SpanMark])
    ensures { IsGreatestSoFar marks.old marks.new }
{
    for i in 1..marks.len() {
        let before = marks[i - 1].revision;
        let mark = &mut marks[i];
        mark.revision = mark.revision.max(before);
    }
}

/// Puts at each mark the least revision from it on.
fn lower(marks: &mut [SpanMark])
    ensures { IsLeastFromThere marks.old marks.new }
{
    for i in (1..marks.len()).rev() {
        let after = marks[i].revision;
        let mark = &mut marks[i - 1];
        mark.revision = mark.revision.min(after);
    }
}

/// The marks in order, each with the greatest revision up to it.
pub fn running_greatest(marks: Vec<SpanMark>) -> Result<Vec<SpanMark>, OutOfMemory>
    ensures { IfOk result (λ running. IsRunningGreatest marks.items running.items) }
{
    let mut order = sorted(marks)?;
    raise(&mut order);
    Ok(order)
}

/// The marks in order, each with the least revision from it on.
pub fn running_least(marks: Vec<SpanMark>) -> Result<Vec<SpanMark>, OutOfMemory>
    ensures { IfOk result (λ running. IsRunningLeast marks.items running.items) }
{
    let mut order = sorted(marks)?;
    lower(&mut order);
    Ok(order)
}
