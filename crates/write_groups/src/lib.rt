//! The log as the model of history sees it: its events with their windows, the order of judgement, and the writes that
//! were answered with one revision, with the moments between which that revision was written.
#![tactic(auto)]

mod event;
mod groups;
mod hidden;
mod order;
mod spans;
mod window;

pub use event::{
    Item, Items, Listing, LogEvent, LogEvents, Preconditions, Reading, Shown, line_at,
};
pub use groups::{Group, Groups, Numbers, groups_of};
pub use hidden::{Hidden, Hiding};
pub use order::order_of;
pub use spans::spans_of;
pub use window::{Window, highest, lowest, window_of};
