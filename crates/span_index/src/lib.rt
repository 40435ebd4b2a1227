//! Spans of places in a list, of which those that meet a range are found without a look at the others.
#![tactic(auto)]

ghost use Rattle.std.specs.Prelude.{◌≡◌, ◌+◌, ◌≤◌, ◌++◌, ◌∷◌, [], length, min, max, OnErr, OnOk};
ghost use Rattle.std.specs.Prelude.{◌↔◌, IsTrue};
ghost use Rattle.span_index.specs.Blocks.{AreBlocks, BeginsBlock};
ghost use Rattle.span_index.specs.Meeting.{IsLastMeeting, Meets};

use std::alloc::{AllocError, Global};
use std::marker::Model;

/// The places from `first` to `last`.
#[derive(Clone, Copy)]
pub struct Span {
    pub first: u64,
    pub last: u64,
}

impl Span {
    fn meets(self, low: u64, high: u64) -> bool
        ensures { IsTrue result ↔ Meets low high self }
    {
        self.first <= high && low <= self.last
    }

    // From the first place of both to the last.
    fn hull(self, other: Span) -> Span
        ensures first { result.first ≡ min self.first other.first }
        ensures last { result.last ≡ max self.last other.last }
    {
        Span {
            first: self.first.min(other.first),
            last: self.last.max(other.last),
        }
    }
}

/// A span, with the block of spans that it ends: those from the index `from` on, and the places from the first
/// of theirs to the last.
#[derive(Clone, Copy)]
struct Entry {
    span: Span,
    from: usize,
    hull: Span,
}

// Of a block alone, or of the last two blocks, where they are as long as each other. So a block is a balanced
// tree, and few blocks make up the list.
fn entry_behind(entries: &[Entry], span: Span) -> Entry
    requires { AreBlocks entries.now }
    ensures span { result.span ≡ span }
    ensures block { BeginsBlock entries.now result }
{
    let count = entries.len();
    let alone = Entry {
        span,
        from: count,
        hull: span,
    };
    if count == 0 {
        return alone;
    }
    let last = entries[count - 1];
    if last.from == 0 {
        return alone;
    }
    let before = entries[last.from - 1];
    if count - last.from != last.from - before.from {
        return alone;
    }
    Entry {
        span,
        from: before.from,
        hull: before.hull.hull(last.hull).hull(span),
    }
}

/// Spans in the order in which they were put behind one another.
#[derive(Drop)]
pub struct SpanIndex {
    entries: Vec<Entry>,
}

impl Model for SpanIndex {
    ghost use Rattle.std.specs.Prelude.{List, map};
    ghost use Rattle.span_index.specs.declared.Span.{Span};

    ghost Value = { List Span };

    ghost view = { λ index. map (λ e. e.span) index.entries.items };

    ghost use Rattle.span_index.specs.Blocks.{AreBlocks};

    ghost invariant = { λ index. AreBlocks index.entries.items };
}

impl SpanIndex {
    /// No spans.
    pub fn new(alloc: Global) -> SpanIndex
        ensures { result ≡ [] }
    {
        SpanIndex {
            entries: Vec::new(alloc),
        }
    }

    /// Puts a span behind the others. The search is quick where their first places rise, or fall.
    pub fn push(&mut self, span: Span) -> Result<(), AllocError>
        ensures pushed { OnOk result (self.new ≡ self.old ++ span ∷ []) }
        ensures unchanged { OnErr result (self.new ≡ self.old) }
    {
        let entry = entry_behind(self.entries.as_slice(), span);
        self.entries.push(entry)?;
        Ok(())
    }

    /// The index of the last span among the first `count` that meets the range.
    pub fn last_meeting(&self, count: usize, low: u64, high: u64) -> Option<usize>
        requires { count ≤ length self.now }
        ensures { IsLastMeeting self.now count low high result }
    {
        let mut rest = count;
        'spans: while rest > 0 {
            let entry = self.entries[rest - 1];
            if !entry.hull.meets(low, high) {
                rest = entry.from;
            } else if entry.span.meets(low, high) {
                return Some(rest - 1);
            } else {
                rest -= 1;
            }
        }
        None
    }
}
