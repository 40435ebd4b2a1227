use base_types::Moment;

/// A write or a read that stands at a moment of its event and at a number in the sequence of writes and
/// the gaps between them: the write of revision m is the number 2m, the gap after it 2m + 1.
#[derive(Clone, Copy, PartialEq, Eq)]
pub struct Thing {
    /// The line of the event in the log.
    pub line: u64,
    /// The first moment that the event may have.
    pub lo: Moment,
    /// The last moment that it may have.
    pub hi: Moment,
    /// The least number that it may have.
    pub least: u128,
    /// The greatest number that it may have, 2^66 where there is no end.
    pub greatest: u128,
}
