ghost use Rattle.std.specs.Prelude.{◌≡◌, ◌<◌, ◌≤◌, ◌++◌, ◌∷◌, [], length, OnOk, slice_index_or};
ghost use Rattle.span_index.specs.Meeting.{IsLastMeeting};
ghost use Rattle.rbac_timeline.specs.Reigns.{span_of, spans_of};

use base_types::{ObjectKey, OutOfMemory};
use span_index::{Span, SpanIndex};
use std::alloc::Global;
use std::marker::Model;

/// The places at which a version of a binding may be there, as far as versions and removals say.
#[derive(Drop)]
pub struct Reign {
    pub key: ObjectKey,
    pub first: u64,
    pub last: u64,
}

impl Reign {
    fn span(&self) -> Span
        ensures { result ≡ span_of self.now }
    {
        Span {
            first: self.first,
            last: self.last,
        }
    }
}

/// Reigns, in the order in which they begin.
#[derive(Drop)]
pub struct Reigns {
    reigns: Vec<Reign>,
    spans: SpanIndex,
}

impl Model for Reigns {
    ghost use Rattle.std.specs.Prelude.{◌≡◌, List};
    ghost use Rattle.rbac_timeline.specs.declared.reigns.Reign.{Reign};
    ghost use Rattle.rbac_timeline.specs.Reigns.{spans_of};

    ghost Value = { List Reign };

    ghost view = { λ r. r.reigns.items };

    ghost invariant = { λ r. r.spans ≡ spans_of r.reigns.items };
}

impl Reigns {
    /// None.
    pub fn new(alloc: Global) -> Reigns
        ensures { result ≡ [] }
    {
        Reigns {
            reigns: Vec::new(alloc),
            spans: SpanIndex::new(alloc),
        }
    }

    /// How many there are.
    pub fn len(&self) -> usize
        ensures { result ≡ length self.now }
    {
        self.reigns.len()
    }

    /// Puts one behind the others.
    pub fn push(&mut self, reign: Reign) -> Result<(), OutOfMemory>
        ensures { OnOk result (self.new ≡ self.old ++ reign ∷ []) }
    {
        let span = reign.span();
        self.reigns.push(reign)?;
        if self.spans.push(span).is_err() {
            drop(self.reigns.pop());
            return Err(OutOfMemory);
        }
        Ok(())
    }

    /// One of them.
    pub fn get(&self, index: usize) -> &Reign
        requires { index < length self.now }
        ensures { result.now ≡ slice_index_or self.now index result.now }
    {
        &self.reigns[index]
    }

    /// The index of the last of the first `count` that meets the range.
    pub fn last_meeting(&self, count: usize, low: u64, high: u64) -> Option<usize>
        requires { count ≤ length self.now }
        ensures { IsLastMeeting (spans_of self.now) count low high result }
    {
        self.spans.last_meeting(count, low, high)
    }
}
