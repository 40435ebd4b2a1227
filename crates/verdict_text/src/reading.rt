ghost use Rattle.std.specs.Prelude.{◌≡◌, ◌≢◌, ◌<◌, ◌+◌, ◌↔◌, ℕ, List, [], ◌∷◌, ◌++◌, length, All, IfOk, IfErr};
ghost use Rattle.std.specs.Prelude.{IfSome, IfNone, IsTrue};
ghost use Rattle.base_types.specs.declared.verdict.placed.PlacedLine.{PlacedLine};
ghost use Rattle.verdict_text.specs.Words.{IsNumber, Lacks};
ghost use Rattle.base_types.specs.Placements.{RisesByLine};
ghost use Rattle.verdict_text.specs.Outcome.{count_text, explained_text};
ghost use Rattle.verdict_text.specs.Reading.{IsNext, IsPlacement};
ghost use Rattle.verdict_text.specs.PlacementFaults.{IsCause};

use crate::placed::read_placed;
use crate::words::{after_front, as_text, read_number};
use base_types::{OutOfMemory, PlacedLine, Placement};
use std::alloc::Global;
use thiserror::Error;

/// Why a text isn't read as a placement.
#[derive(Debug, Drop, PartialEq, Eq, Error)]
pub enum PlacementFault {
    /// The first line, from 1, at which the text can't be continued, or at which it breaks off.
    #[error("line {number} doesn't continue a placement")]
    Line { number: u64 },
    #[error("out of memory")]
    OutOfMemory,
}

impl From<OutOfMemory> for PlacementFault {
    ghost use Rattle.verdict_text.specs.declared.reading.PlacementFault.TheVariants as fault;

    ghost from_gives = { λ _ made. made ≡ fault.OutOfMemory };

    fn from(_: OutOfMemory) -> PlacementFault {
        PlacementFault::OutOfMemory
    }
}

/// Reads the text of an explained outcome.
pub fn read_placement(alloc: Global, bytes: &[u8]) -> Result<Placement, PlacementFault>
    ensures ok { IfOk result (λ placement. explained_text placement ≡ bytes.now) }
    ensures placement { IfOk result IsPlacement }
    ensures alone { IfOk result (λ placement. (other : List PlacedLine) → IsPlacement other
        → explained_text other ≡ bytes.now → other ≡ placement) }
    ensures fault { IfErr result (IsCause bytes.now) }
{
    let Some((first, mut rest)) = cut_line(bytes) else {
        return Err(PlacementFault::Line { number: 1 });
    };
    let Some(count) = read_count(first) else {
        return Err(PlacementFault::Line { number: 1 });
    };
    let mut placement = Placement::new(alloc);
    while let Some((line, after)) = cut_line(rest) {
        let Some(placed) = read_next(&placement, count, line) else {
            return Err(fault_behind(&placement));
        };
        placement.push(placed)?;
        rest = after;
    }
    if rest.is_empty() && placement.as_slice().len() as u64 == count {
        Ok(placement)
    } else {
        Err(fault_behind(&placement))
    }
}

// The first line without its newline, and what follows that.
fn cut_line(bytes: &[u8]) -> Option<(&[u8], &[u8])>
    ensures some { IfSome result (λ parts. bytes.now ≡ parts.0.now ++ 10 ∷ parts.1.now) }
    ensures whole { IfSome result (λ parts. Lacks 10 parts.0.now) }
    ensures none { IfNone result (Lacks 10 bytes.now) }
{
    let end = bytes.iter().position(|byte| *byte == b'\n')?;
    let (line, rest) = bytes.split_at(end);
    Some((line, &rest[1..]))
}

// The number of the first line.
fn read_count(line: &[u8]) -> Option<u64>
    ensures some { IfSome result (λ count. line.now ≡ count_text count) }
    ensures fits { IfSome result IsNumber }
    ensures none { IfNone result ((count : ℕ) → IsNumber count → line.now ≢ count_text count) }
{
    read_number(after_front(as_text(line)?, "explained ")?)
}

// The placed line that this line says, where it may follow the lines of the placement.
fn read_next(placement: &Placement, count: u64, line: &[u8]) -> Option<PlacedLine>
    ensures some { IfSome result (IsNext placement.now count line.now) }
    ensures none { IfNone result ((placed : PlacedLine) → ¬
        (IsNext placement.now count line.now placed)) }
{
    let placed = read_placed(as_text(line)?)?;
    let lines = placement.as_slice();
    if (lines.len() as u64) < count && rises_to(lines, placed.line) {
        Some(placed)
    } else {
        None
    }
}

// Whether a line number is above those of the lines.
fn rises_to(lines: &[PlacedLine], number: u64) -> bool
    requires { RisesByLine lines.now }
    ensures { IsTrue result ↔ All (λ earlier. earlier.line < number) lines.now }
{
    match lines.last() {
        Some(before) => before.line < number,
        None => true,
    }
}

// The fault of the line that would follow those of the placement.
fn fault_behind(placement: &Placement) -> PlacementFault
    ensures { result ≡ PlacementFault.Line (length placement.now + 2) }
{
    PlacementFault::Line {
        number: placement.as_slice().len() as u64 + 2,
    }
}
