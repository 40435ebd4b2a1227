ghost use Rattle.std.specs.Prelude.{◌≡◌, ◌≤◌, ◌<◌, ◌-◌, length, take, drop, IfSome, IfNone, slice_index, slice_range};
ghost use Rattle.line_reader.specs.Lines.{newline};
ghost use Rattle.line_reader.specs.Search.{HasNoNewline};
ghost use Rattle.log_sift.specs.Cutting.{BeginsWith};

use line_reader::NEWLINE;

/// Where a line of a log ends, and where the next one begins, as indexes from 0.
#[derive(Clone, Copy)]
pub struct LineBreak {
    /// Behind the last byte of the line.
    pub end: usize,
    /// Behind its newline, where it has one.
    pub next: usize,
}

// The first newline from an index on.
fn find_newline(log: &[u8], from: usize) -> Option<usize>
    requires { from ≤ length log.now }
    ensures some { IfSome result (λ at. (from ≤ at) × (at < length log.now)
        × (slice_index log.now at ≡ newline)
        × HasNoNewline (take (at - from) (drop from log.now))) }
    ensures none { IfNone result (HasNoNewline (drop from log.now)) }
{
    let ahead = log[from..].iter().position(|byte| *byte == NEWLINE)?;
    Some(from + ahead)
}

/// Cuts the line off that begins at an index.
pub fn cut_line(log: &[u8], start: usize) -> LineBreak
    requires { start < length log.now }
    ensures line { (start ≤ result.end) × (result.end ≤ length log.now) }
    ensures next { (start < result.next) × (result.next ≤ length log.now) }
    ensures begins { BeginsWith (drop start log.now) (slice_range log.now start result.end)
        (slice_range log.now start result.next) (drop result.next log.now) }
{
    match find_newline(log, start) {
        Some(end) => LineBreak { end, next: end + 1 },
        None => LineBreak {
            end: log.len(),
            next: log.len(),
        },
    }
}
