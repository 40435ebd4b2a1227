ghost use Rattle.std.specs.Prelude.{◌≡◌, option_map, slice_get};

use base_types::{Listed, ObjectKey, Range, Revision, Text};

/// The removal of an incarnation, whose last version has the revision `last`. Its place isn't recorded: it is one of
/// the range.
#[derive(Drop)]
pub struct Removal {
    pub key: ObjectKey,
    /// `metadata.uid`
    pub uid: Text,
    pub last: Revision,
    pub range: Range,
}

/// Removals by the numbers of their events.
pub type Removals = Listed<Removal>;

/// The removal at this position.
pub fn removal_at(removals: &[Removal], position: u32) -> Option<&Removal>
    ensures { option_map (λ removal. removal.now) result ≡ slice_get removals.now position }
{
    removals.get(position as usize)
}
