ghost use Rattle.std.specs.Prelude.{◌≡◌, ◌<◌, IfOk, All, AllPairs};

use crate::mark::{SpanMark, ends_of, running_greatest, running_least, starts_of};
use crate::span::Span;
use base_types::{Moment, OutOfMemory, Revision};
use std::alloc::Global;
use std::marker::Model;
use std::snapshot::Snapshot;

/// The recorded writes in time. Contracts see the start revision and the spans as they were given.
#[derive(Drop)]
pub struct Windows {
    start: Revision,
    by_hi: Vec<SpanMark>,
    by_lo: Vec<SpanMark>,
    // For contracts alone: they take no memory.
    ends: Snapshot<Vec<SpanMark>>,
    starts: Snapshot<Vec<SpanMark>>,
}

impl Model for Windows {
    ghost use Rattle.time_windows.specs.History.{History};

    ghost Value = { History };

    ghost use Rattle.time_windows.specs.Kept.{IsKept, spans_of};

    ghost view = { λ w. record { start = w.start; spans = spans_of w.ends.value.items w.starts.value.items } };

    ghost invariant = { λ w. IsKept w.start (spans_of w.ends.value.items w.starts.value.items) w.by_hi.items
        w.by_lo.items };
}

impl Windows {
    ghost use Rattle.time_windows.specs.Marks.{IsByHi, IsByLo};
    ghost use Rattle.time_windows.specs.Places.{IsLowest, IsHighest};

    /// Keeps the spans of the recorded writes behind the start revision.
    pub fn build(alloc: Global, start: Revision, spans: &[Span]) -> Result<Windows, OutOfMemory>
        requires rising { AllPairs (λ a b. a.revision < b.revision) spans.now }
        requires above { All (λ span. start < span.revision) spans.now }
        ensures start { IfOk result (λ windows. windows.start ≡ start) }
        ensures spans { IfOk result (λ windows. windows.spans ≡ spans.now) }
    {
        let ends = ends_of(alloc, spans)?;
        let starts = starts_of(alloc, spans)?;
        Ok(Windows {
            start,
            ends: Snapshot::of(&ends),
            starts: Snapshot::of(&starts),
            by_hi: running_greatest(ends)?,
            by_lo: running_least(starts)?,
        })
    }

    /// The greatest revision whose span ended before the moment, or the start revision.
    pub fn lowest(&self, at: Moment) -> u64
        ensures { IsLowest self.now.start self.now.spans at.0 result }
    {
        let ended = self.by_hi.partition_point(|mark| mark.at < at);
        if ended == 0 {
            return self.start.get();
        }
        self.by_hi[ended - 1].revision
    }

    /// One less than the least revision whose span begins after the moment, or the greatest number.
    pub fn highest(&self, at: Moment) -> u64
        ensures { IsHighest self.now.spans at.0 result }
    {
        let begun = self.by_lo.partition_point(|mark| mark.at <= at);
        match self.by_lo.get(begun) {
            Some(mark) => mark.revision - 1,
            None => u64::MAX,
        }
    }

    /// The spans' ends in order, each with the greatest revision up to it.
    pub fn by_hi(&self) -> &[SpanMark]
        ensures { IsByHi self.now.spans result.now }
    {
        self.by_hi.as_slice()
    }

    /// The spans' starts in order, each with the least revision from it on.
    pub fn by_lo(&self) -> &[SpanMark]
        ensures { IsByLo self.now.spans result.now }
    {
        self.by_lo.as_slice()
    }
}
