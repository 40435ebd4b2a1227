ghost use Rattle.std.specs.Prelude.{◌↔◌, IsTrue, Some, None};
ghost use Rattle.local_bounds.specs.Sights.{IsSeen, AreMetBy};
ghost use Rattle.history_model.specs.Right.{IsShown};
ghost use Rattle.object_past.specs.Modelled.{version_of};
ghost use Rattle.write_groups.specs.Modelled.{item_of};

use object_past::Version;
use write_groups::{Item, Preconditions};

/// What an answer says of one object.
#[derive(Clone, Copy)]
pub enum Sight<'a> {
    /// It was absent.
    Gone,
    /// It was present.
    There,
    /// It was this one.
    Shown(&'a Item),
    /// It didn't meet the preconditions; where these ask for a uid, it may have been absent.
    Refused(&'a Preconditions),
    /// What can't have been.
    Nowhere,
}

/// Whether the version is the item.
pub fn is_shown(item: &Item, version: &Version) -> bool
    ensures { IsTrue result ↔ IsShown (item_of item.now) (Some (version_of version.now)) }
{
    version.revision == item.revision && version.uid == item.uid && version.node == item.node
}

/// Whether a version meets the preconditions.
pub fn are_met(asked: &Preconditions, version: &Version) -> bool
    ensures { IsTrue result ↔ AreMetBy asked.now version.now }
{
    asked.are_met(version.revision, &version.uid)
}

impl<'a> Sight<'a> {
    /// Whether the absent object fits.
    pub fn takes_none(self) -> bool
        ensures { IsTrue result ↔ IsSeen self.entry None }
    {
        match self {
            Sight::Gone => true,
            Sight::There => false,
            Sight::Shown(_) => false,
            Sight::Refused(asked) => asked.uid.is_some(),
            Sight::Nowhere => false,
        }
    }

    /// Whether the version fits.
    pub fn takes(self, version: &Version) -> bool
        ensures { IsTrue result ↔ IsSeen self.entry (Some (version_of version.now)) }
    {
        match self {
            Sight::Gone => false,
            Sight::There => true,
            Sight::Shown(item) => is_shown(item, version),
            Sight::Refused(asked) => !are_met(asked, version),
            Sight::Nowhere => false,
        }
    }
}
