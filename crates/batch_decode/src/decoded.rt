use audit_event::{Events, Malformed};
use base_types::{Listed, Shared};

/// Why the items of a line were read no further.
#[derive(Clone, Copy, Debug, PartialEq, Eq)]
pub struct ItemFault {
    /// The item's number in its list, from 0; 0 for a line that isn't a list.
    pub index: u64,
    /// The first rule that it breaks.
    pub code: Malformed,
}

/// What a line of a log holds.
#[derive(Drop, PartialEq, Eq)]
pub struct Decoded {
    /// The events before the first broken one. Their `line` is their number in the list, from 0.
    pub events: Events,
    /// How many numbers of the log the line takes: one for each item of an EventList, and one for an
    /// empty EventList and for each other line.
    pub taken: u64,
    /// The first broken item.
    pub fault: Option<ItemFault>,
}

impl Shared for Decoded {}

/// What lines hold, in their order.
pub type DecodedList = Listed<Decoded>;
