ghost use Rattle.std.specs.Prelude.{◌≡◌, ◌≢◌, ◌<◌, ◌≤◌, ◌↔◌, false, length, IfOk, IfErr, IsTrue, OnOk};
ghost use Rattle.log_intake.specs.declared.batch.BatchEnd.TheVariants as ended;
ghost use Rattle.log_intake.specs.Batches.{line_values, GathersBatch, GivesLast, GivesRest, HoldsOpen, IsStopAt};
ghost use Rattle.log_intake.specs.Batches.{ReadsPiece, fed_with};

use crate::stop::LogStop;
use base_types::OutOfMemory;
use edge_io::{Desk, DeskFailed};
use line_reader::{Line, LineFault, LineReader};
use std::alloc::Global;

/// So many bytes of a log are read.
const MOST_INPUT: usize = 1_099_511_627_776;

/// A batch ends where so many bytes were taken: 20 pieces. So it has less than 21, and three batches, of which one is
/// kept, one decoded and one gathered, less than 63.
const BATCH: usize = 1_310_720;

/// How the bytes of a batch end.
#[derive(Clone, Copy)]
pub enum BatchEnd {
    /// More may come.
    GoesOn,
    /// The input ended.
    Ended,
    /// A read failed.
    Failed,
    /// A line is too long.
    LineTooLong,
    /// A byte came behind the limit of the input.
    InputTooLong,
}

impl BatchEnd {
    pub fn goes_on(self) -> bool
        ensures { IsTrue result ↔ (self ≡ ended.GoesOn) }
    {
        matches!(self, BatchEnd::GoesOn)
    }

    /// What is answered to a log whose lines up to here refuse nothing.
    pub fn answer(self) -> Result<(), LogStop>
        requires { self ≢ ended.GoesOn }
        ensures whole { OnOk result (self ≡ ended.Ended) }
        ensures stopped { IfErr result (IsStopAt self) }
    {
        match self {
            BatchEnd::GoesOn => unreachable!(),
            BatchEnd::Ended => Ok(()),
            BatchEnd::Failed => Err(LogStop::ReadFault),
            BatchEnd::LineTooLong => Err(LogStop::LineTooLong),
            BatchEnd::InputTooLong => Err(LogStop::TooLong),
        }
    }
}

/// Lines of a log that are decoded together.
#[derive(Drop)]
pub struct Batch {
    pub lines: Vec<Line>,
    pub end: BatchEnd,
    /// How many bytes of the log were taken up to its end.
    pub taken: usize,
}

/// What came of one read.
#[derive(Clone, Copy)]
struct Piece {
    end: BatchEnd,
    taken: usize,
}

/// Takes the bytes of a batch and gives its lines; `taken` bytes of the log came before.
pub fn gather<D: Desk>(
    alloc: Global,
    desk: &mut D,
    name: &str,
    reader: &mut LineReader,
    taken: usize,
    buffer: &mut [u8],
) -> Result<Batch, OutOfMemory>
    requires some { 0 < length buffer.old }
    requires piece { length buffer.old ≤ 65536 }
    requires within { taken ≤ MOST_INPUT }
    requires going { HoldsOpen reader.old }
    ensures { GathersBatch (D.left desk.old) (D.left desk.new) name.now (D.faults desk.old)
        (D.faults desk.new)
        reader.old reader.new taken result }
{
    let mut lines = Vec::new(alloc);
    let mut at = taken;
    'pieces: loop {
        let piece = take_piece(desk, name, buffer, reader, &mut lines, at)?;
        at = piece.taken;
        if !piece.end.goes_on() {
            return Ok(Batch {
                lines,
                end: piece.end,
                taken: at,
            });
        }
        if at - taken >= BATCH {
            return Ok(Batch {
                lines,
                end: BatchEnd::GoesOn,
                taken: at,
            });
        }
        if at == MOST_INPUT {
            return Ok(Batch {
                lines,
                end: BatchEnd::GoesOn,
                taken: at,
            });
        }
    }
}

// Makes one read, and gives the lines that wait then.
fn take_piece<D: Desk>(
    desk: &mut D,
    name: &str,
    buffer: &mut [u8],
    reader: &mut LineReader,
    lines: &mut Vec<Line>,
    taken: usize,
) -> Result<Piece, OutOfMemory>
    requires some { 0 < length buffer.old }
    requires piece { length buffer.old ≤ 65536 }
    requires within { taken ≤ MOST_INPUT }
    requires going { HoldsOpen reader.old }
    ensures reads { ReadsPiece (D.left desk.old) (D.left desk.new) name.now (D.faults desk.old)
        (D.faults desk.new) reader.old reader.new (line_values lines.old.items)
        (line_values lines.new.items) taken result }
    ensures buffer { length buffer.new ≡ length buffer.old }
{
    let count = match desk.read(name, buffer) {
        Ok(count) => count,
        Err(DeskFailed) => {
            return Ok(Piece {
                end: BatchEnd::Failed,
                taken,
            });
        }
    };
    if count == 0 {
        give_last(reader, lines)?;
        return Ok(Piece {
            end: BatchEnd::Ended,
            taken,
        });
    }
    let within = count.min(MOST_INPUT - taken);
    if !give_fed(reader, &buffer[..within], lines)? {
        return Ok(Piece {
            end: BatchEnd::LineTooLong,
            taken: taken + within,
        });
    }
    if within < count {
        return Ok(Piece {
            end: BatchEnd::InputTooLong,
            taken: taken + within,
        });
    }
    Ok(Piece {
        end: BatchEnd::GoesOn,
        taken: taken + within,
    })
}

// Feeds a piece and gives the lines that wait then; false says that the line behind them is too long.
fn give_fed(
    reader: &mut LineReader,
    piece: &[u8],
    lines: &mut Vec<Line>,
) -> Result<bool, OutOfMemory>
    requires piece { length piece.now ≤ 65536 }
    requires going { HoldsOpen reader.old }
    ensures gives { IfOk result (λ fits. GivesRest fits (fed_with reader.old piece.now) reader.new
        (line_values lines.old.items) (line_values lines.new.items)) }
    ensures going { OnOk result (reader.new.ended ≡ false) }
{
    reader.feed(piece)?;
    give_lines(reader, lines)
}

// Gives the last line, where no newline ends it.
fn give_last(reader: &mut LineReader, lines: &mut Vec<Line>) -> Result<(), OutOfMemory>
    requires { HoldsOpen reader.old }
    ensures { OnOk result
        (GivesLast reader.old (line_values lines.old.items) (line_values lines.new.items)) }
{
    reader.end();
    // The line that had begun isn't too long.
    let _fits = give_lines(reader, lines)?;
    Ok(())
}

// Gives the lines that wait; false says that the line behind them is too long.
fn give_lines(reader: &mut LineReader, lines: &mut Vec<Line>) -> Result<bool, OutOfMemory>
    ensures gives { IfOk result
        (λ fits. GivesRest fits reader.old reader.new (line_values lines.old.items)
        (line_values lines.new.items)) }
    ensures ended { reader.new.ended ≡ reader.old.ended }
{
    'lines: loop {
        match reader.next_line() {
            Ok(Some(line)) => lines.push(line)?,
            Ok(None) => return Ok(true),
            Err(LineFault::TooLong { .. }) => return Ok(false),
            Err(LineFault::OutOfMemory) => return Err(OutOfMemory),
        }
    }
}
