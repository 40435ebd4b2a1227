//! The words of the Kubernetes API: the key of an object, resource versions, the attributes of a request, and how rules
//! match them.
mod key;
mod matching;
mod request;
mod revision;

pub use key::{Cover, CoverName, ObjectKey, covers, exact_key, key_text, read_key, same_key};
pub use matching::{has_text, is_combined, path_matches};
pub use request::{
    Decision, Level, Pair, Pairs, PolicyLevel, Possible, RequestAttrs, Stage, StageSet, User,
};
pub use revision::{Moment, Revision, read_revision, revision_of};
