ghost use Rattle.std.specs.Prelude.{◌≡◌, IfOk, IfErr, option_map};
ghost use Rattle.std.specs.Ordering.{nat_cmp};
ghost use Rattle.std.specs.Cmp.Lexicographic.{slice_cmp};
ghost use Rattle.base_types.specs.Meaning.{fields_of};
ghost use Rattle.base_types.specs.Parts.{lookup};
ghost use Rattle.base_types.specs.Names.{AreSorted};
ghost use Rattle.base_types.specs.Search.{IsNamedAt, IsPlaceFor};

use crate::json::tree::{Member, MemberList, Tree};
use std::cmp::Ordering;

impl MemberList {
    /// The position of the member of a name, or else the position at which it would stand.
    pub fn find(&self, name: &str) -> Result<usize, usize>
        ensures found { IfOk result (IsNamedAt name.now self.now) }
        ensures place { IfErr result (IsPlaceFor name.now self.now) }
        ensures sorted { AreSorted self.now }
    {
        self.all.binary_search_by(
            |member: &Member| -> Ordering
                ensures { result ≡ slice_cmp nat_cmp member.now.0 name.entry.now }
            { member.name.as_str().cmp(name) },
        )
    }

    /// The value of the member of a name.
    pub fn get(&self, name: &str) -> Option<&Tree>
        ensures { option_map (λ t. t.now) result ≡ lookup name.now (fields_of self.now) }
    {
        match self.find(name) {
            Ok(at) => Some(&self.all[at].value),
            Err(_) => None,
        }
    }
}
