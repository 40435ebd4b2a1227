use base_types::Reason;
use write_groups::LogEvent;

/// An event that is judged.
#[derive(Clone, Copy)]
pub struct Case<'a> {
    pub number: u32,
    pub event: &'a LogEvent,
    /// Why a write could not have made its revision, or could not have found it.
    pub fault: Option<Reason>,
}
