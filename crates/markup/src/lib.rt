//! HTML pages of which each text that comes from the input stands escaped: the frame of a page, places in its
//! drawings, and moments.
#![tactic(auto)]

mod calendar;
mod drawing;
mod escaping;
mod frame;
mod limits;
mod moments;

pub use drawing::{Axis, position_law};
pub use escaping::{EscapedText, escaped_law};
pub use frame::{push_begin, push_end};
pub use limits::{first_of, push_rest};
pub use moments::{moment_at, push_moment};
