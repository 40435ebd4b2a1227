//! From moments of the wall clock to revisions: what had ended before a moment, and what had not begun.
#![tactic(auto)]

mod mark;
mod span;
mod windows;

pub use mark::SpanMark;
pub use span::Span;
pub use windows::Windows;
