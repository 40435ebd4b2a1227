ghost use Rattle.std.specs.Prelude.{◌≡◌, ◌&&◌};

/// Whether something may grant a request, and whether it grants it for certain.
#[derive(Clone, Copy)]
pub struct GrantExtent {
    pub may: bool,
    pub must: bool,
}

impl GrantExtent {
    pub const NOTHING: GrantExtent = GrantExtent {
        may: false,
        must: false,
    };

    pub const UNSURE: GrantExtent = GrantExtent {
        may: true,
        must: false,
    };

    /// For certain, or not at all.
    pub fn certain(grants: bool) -> GrantExtent
        ensures may { result.may ≡ grants }
        ensures must { result.must ≡ grants }
    {
        GrantExtent {
            may: grants,
            must: grants,
        }
    }

    /// What both grant.
    pub fn and(self, other: GrantExtent) -> GrantExtent
        ensures may { result.may ≡ (self.may && other.may) }
        ensures must { result.must ≡ (self.must && other.must) }
    {
        GrantExtent {
            may: self.may && other.may,
            must: self.must && other.must,
        }
    }
}
