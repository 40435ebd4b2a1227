use std::marker::{Send, Sync};

/// What threads may share, and send to one another. A crate that owns such a type says so by an `impl`, which the
/// compiler takes only where each field may be shared and sent.
pub trait Shared: Send + Sync {}
