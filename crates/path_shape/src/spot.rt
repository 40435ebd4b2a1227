ghost use Rattle.std.specs.Prelude.{◌≡◌, ◌↔◌, IsTrue};
ghost use Rattle.path_shape.specs.Agreement.{Holds, HasKind, FitsClosed, FitsOpen};
ghost use Rattle.path_shape.specs.Forms.{child_in};
ghost use Rattle.path_shape.specs.Walk.{form};

use crate::holding::is_held;
use crate::kind::is_same_kind;
use crate::part::Part;
use crate::sameness::is_same;
use crate::shape::FieldClass;

/// What stands at one path of the three trees.
#[derive(Clone, Copy)]
pub struct Spot<'a> {
    /// Whether there is an old object.
    pub had: bool,
    pub old: Part<'a>,
    pub asked: Part<'a>,
    pub answered: Part<'a>,
}

impl<'a> Spot<'a> {
    pub fn child(self, token: &str) -> Spot<'a>
        ensures had { result.had ≡ self.entry.had }
        ensures old { form result.old ≡ child_in token.now (form self.entry.old) }
        ensures asked { form result.asked ≡ child_in token.now (form self.entry.asked) }
        ensures answered { form result.answered ≡ child_in token.now (form self.entry.answered) }
    {
        Spot {
            had: self.had,
            old: self.old.child(token),
            asked: self.asked.child(token),
            answered: self.answered.child(token),
        }
    }
}

fn has_kind(asked: Part<'_>, answered: Part<'_>) -> bool
    ensures { IsTrue result ↔ HasKind (form answered.entry) (form asked.entry) }
{
    is_same_kind(asked, answered) || asked.is_absent()
}

/// Whether a spot at a closed path fits its class.
pub fn fits_closed(class: FieldClass, spot: Spot<'_>) -> bool
    ensures { IsTrue result ↔ FitsClosed class spot.entry.had (form spot.entry.old)
        (form spot.entry.asked) (form spot.entry.answered) }
{
    match class {
        FieldClass::Asked => is_same(spot.asked, spot.answered),
        FieldClass::Owned => true,
        FieldClass::Kept => {
            if !spot.had {
                return true;
            }
            is_same(spot.old, spot.answered)
        }
        FieldClass::Defaulted => is_held(spot.asked, spot.answered),
    }
}

/// Whether a spot at an open path fits its class, its children aside.
pub fn fits_open(class: FieldClass, spot: Spot<'_>) -> bool
    ensures { IsTrue result ↔ FitsOpen class spot.entry.had (form spot.entry.old)
        (form spot.entry.asked) (form spot.entry.answered) }
{
    match class {
        FieldClass::Asked => is_same_kind(spot.asked, spot.answered),
        FieldClass::Owned => true,
        FieldClass::Kept => {
            if !spot.had {
                return true;
            }
            is_same_kind(spot.old, spot.answered)
        }
        FieldClass::Defaulted => has_kind(spot.asked, spot.answered),
    }
}
