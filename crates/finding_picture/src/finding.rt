use base_types::{Reason, Text, WriteLine};

/// What is told of an event that no placement explains, as in `Outcome::Unexplained`.
#[derive(Clone, Copy)]
pub struct Finding<'a> {
    /// The event's line of the log, or the number of a checkpoint.
    pub line: u64,
    pub audit_id: &'a Text,
    pub reason: Reason,
    /// The event's window, or the range of its decision's places for U14.
    pub low: u64,
    pub high: u64,
    /// The writes there.
    pub writes: &'a [WriteLine],
}
