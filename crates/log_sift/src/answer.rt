use audit_event::Malformed;
use base_types::Listed;

/// Why a line is left out.
#[derive(Clone, Copy)]
pub enum LeftCause {
    /// It has more than 16,777,216 bytes.
    LineTooLong,
    /// The rule that the first of its events that breaks one breaks first.
    Rule(Malformed),
}

/// What becomes of a line of a log.
#[derive(Clone, Copy)]
pub enum Fate {
    /// It is blank and not too long, and stays.
    Blank,
    /// Its events break no rule, and it stays. Events that repeat a kept one stay in its text.
    Stays,
    /// It is left out.
    Left(LeftCause),
}

/// A line that is left out.
#[derive(Clone, Copy)]
pub struct LeftLine {
    /// The number of the line, from 1. All lines are counted, blank ones too; an EventList counts once.
    pub line: u64,
    pub cause: LeftCause,
}

/// Lines that are left out, by their numbers.
pub type LeftLines = Listed<LeftLine>;

/// Bytes of a log that stay: those from `start` on and before `end`, as indexes from 0.
#[derive(Clone, Copy)]
pub struct Stretch {
    pub start: usize,
    pub end: usize,
}

/// Stretches of a log, in its order.
pub type Stretches = Listed<Stretch>;

/// What becomes of a log's lines.
#[derive(Drop)]
pub struct Sifting {
    /// The lines that stay, each with its newline; the last line of a log may lack it. Lines that stay side by side
    /// are one stretch.
    pub stays: Stretches,
    /// The lines that are left out.
    pub left: LeftLines,
    /// How many lines stay that aren't blank.
    pub kept: u64,
}
