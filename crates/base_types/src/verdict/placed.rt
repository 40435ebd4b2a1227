ghost use Rattle.std.specs.Prelude.{◌≡◌, ◌<◌, [], ◌∷◌, ◌++◌, List, OnOk, OnErr, All, AllPairs};

use crate::foundation::{Listed, OutOfMemory, Text};
use crate::kubernetes::Decision;
use crate::verdict::claim::Reason;
use std::alloc::Global;
use std::marker::Model;

/// Where a placement puts an event's answer.
#[derive(Clone, Copy, Debug, PartialEq, Eq)]
pub enum PlacedAnswer {
    /// The event made this revision.
    Made(u64),
    /// The event's removal took place here.
    Removed(u64),
    /// The answer is right at this place.
    At(u64),
    Nowhere,
}

/// The places of an authorizer's four caches.
#[derive(Clone, Copy, PartialEq, Eq, PartialOrd, Ord)]
pub struct Places {
    pub roles: u64,
    pub cluster_roles: u64,
    pub bindings: u64,
    pub cluster_bindings: u64,
}

/// A judged decision with the places at which it is right.
#[derive(Clone, Copy, PartialEq, Eq)]
pub struct PlacedDecision {
    pub decision: Decision,
    pub places: Places,
}

/// One event's part of a placement.
#[derive(Clone, Copy, PartialEq, Eq)]
pub struct PlacedLine {
    /// The event's line of the log, or the number of a checkpoint.
    pub line: u64,
    pub answer: PlacedAnswer,
    pub decision: Option<PlacedDecision>,
}

/// The placed lines of all events, whose line numbers rise strictly.
#[derive(Drop)]
pub struct Placement {
    lines: Vec<PlacedLine>,
}

impl Model for Placement {
    ghost use Rattle.std.specs.Prelude.{List};
    ghost use Rattle.base_types.specs.declared.verdict.placed.PlacedLine.{PlacedLine};

    ghost Value = { List PlacedLine };

    ghost use Rattle.base_types.specs.Placements.{RisesByLine};

    ghost view = { λ p. p.lines.items };

    ghost invariant = { λ p. RisesByLine p.lines.items };
}

impl Placement {
    ghost use Rattle.base_types.specs.Placements.{RisesByLine};

    pub fn new(alloc: Global) -> Placement
        ensures { result ≡ [] }
    {
        Placement {
            lines: Vec::new(alloc),
        }
    }

    /// Puts a line behind the others. Without memory for it the placement stays.
    pub fn push(&mut self, line: PlacedLine) -> Result<(), OutOfMemory>
        requires { All (λ earlier. earlier.line < line.line) self.old }
        ensures ok { OnOk result (self.new ≡ self.old ++ line ∷ []) }
        ensures err { OnErr result (self.new ≡ self.old) }
    {
        self.lines.push(line)?;
        Ok(())
    }

    pub fn as_slice(&self) -> &[PlacedLine]
        ensures lines { result.now ≡ self.now }
        ensures rising { RisesByLine self.now }
    {
        self.lines.as_slice()
    }
}

/// A write in the window of an event: a recorded revision, or the range of a removal. `line` is that
/// of the event that wrote, and `key` is the text of the object's key.
#[derive(Drop, PartialEq, Eq)]
pub enum WriteLine {
    Made {
        revision: u64,
        line: u64,
        key: Text,
    },
    Removed {
        low: u64,
        high: u64,
        line: u64,
        key: Text,
    },
}

pub type WriteLines = Listed<WriteLine>;

/// What a log comes to: a placement that explains it, or the earliest event that none explains.
#[derive(Drop)]
pub enum Outcome {
    Explained(Placement),
    Unexplained {
        line: u64,
        /// The plain text, which the printing escapes.
        audit_id: Text,
        reason: Reason,
        /// The event's window, or the range of its decision's places for U14.
        low: u64,
        high: u64,
        writes: WriteLines,
    },
}
