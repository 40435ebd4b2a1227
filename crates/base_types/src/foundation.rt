//! Texts, bytes and lists, want of memory, what threads may share, and the escaping of texts.
mod escaping;
mod listed;
mod memory;
mod shared;
mod text;

pub use escaping::escape;
pub(crate) use escaping::{append_escaped, unescape};
pub use listed::Listed;
pub use memory::OutOfMemory;
pub use shared::Shared;
pub use text::{Bytes, Text, Texts};
