/// How many events are drawn at most. Each has at most two marks.
pub const EVENT_LIMIT: usize = 500;

/// How many versions, removals and unrecorded writes are drawn and listed at most. With the events these are 2,000
/// marks on a page.
pub const VERSION_LIMIT: usize = 600;

pub const REMOVAL_LIMIT: usize = 200;

pub const UNRECORDED_LIMIT: usize = 200;

/// How many objects that changed are listed at most.
pub const CHANGE_LIMIT: usize = 20;

// Of all drawings of a page.
const _: () = prove!(2 * EVENT_LIMIT + VERSION_LIMIT + REMOVAL_LIMIT + UNRECORDED_LIMIT <= 2_000);
