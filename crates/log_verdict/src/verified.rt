use context_intake::Refusal;
use serial_machine::Checked;

/// What a placement comes to by a setup and a log.
#[derive(Clone, Copy)]
pub enum Verified {
    /// The setup or the log tells nothing.
    Refused(Refusal),
    /// The placement has more than 1,073,741,824 bytes.
    TooLong,
    /// The first line, by its number from 1, at which the text can't be continued to that of a placement.
    Misspelt { line: u64 },
    Judged(Checked),
}
