use base_types::{Moment, Revision};

/// The moments between which a recorded write took place.
#[derive(Clone, Copy, PartialEq, Eq)]
pub struct Span {
    pub revision: Revision,
    pub lo: Moment,
    pub hi: Moment,
}
