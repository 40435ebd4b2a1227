/// How many writes of the window are drawn at most over the line of revisions.
pub const MOST_MARKS: usize = 800;

/// How many versions of the event's object are drawn at most below it.
pub const MOST_SEGMENTS: usize = 400;

/// How many writes of the window are drawn at most over the line of time.
pub const MOST_BARS: usize = 800;

/// How many writes of the window are listed at most.
pub const MOST_WRITES: usize = 2_000;

/// How many versions of the event's object are listed at most, in one table with its removals.
pub const MOST_VERSIONS: usize = 1_800;

/// How many removals, unrecorded writes, and roles and bindings that came or went are listed at most.
pub const MOST_ROWS: usize = 200;

// Of all drawings of a page, and of one table.
const _: () = prove!(MOST_MARKS + MOST_SEGMENTS + MOST_BARS <= 2_000);

const _: () = prove!(MOST_VERSIONS + MOST_ROWS <= 2_000);
