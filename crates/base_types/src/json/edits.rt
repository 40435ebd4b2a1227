ghost use Rattle.std.specs.Prelude.{◌≡◌, IfOk, OnOk, OnErr};
ghost use Rattle.base_types.specs.Edits.{put};
ghost use Rattle.base_types.specs.Meaning.{fields_of};
ghost use Rattle.base_types.specs.Names.{AreSorted};
ghost use Rattle.base_types.specs.Parts.{lookup};
ghost use Rattle.base_types.specs.Stored.{fields_without};

use crate::foundation::{OutOfMemory, Text};
use crate::json::tree::{Member, MemberList, Tree};
use std::mem;

impl MemberList {
    /// Puts a value at a name and answers the value that it takes the place of. Without memory the list
    /// stays as it was, and name and value are dropped.
    pub fn put(&mut self, name: Text, value: Tree) -> Result<Option<Tree>, OutOfMemory>
        ensures put { OnOk result (fields_of self.new ≡ put name value (fields_of self.old)) }
        ensures old { IfOk result (λ old. old ≡ lookup name (fields_of self.old)) }
        ensures err { OnErr result (self.new ≡ self.old) }
        ensures sorted { AreSorted self.old }
    {
        match self.find(name.as_str()) {
            Ok(at) => {
                let member = &mut self.all[at];
                Ok(Some(mem::replace(&mut member.value, value)))
            }
            Err(at) => {
                self.all.insert(at, Member { name, value })?;
                Ok(None)
            }
        }
    }

    /// Takes the member of a name out and answers its value.
    pub fn take(&mut self, name: &str) -> Option<Tree>
        ensures left { fields_of self.new ≡ fields_without name.now (fields_of self.old) }
        ensures taken { result ≡ lookup name.now (fields_of self.old) }
        ensures sorted { AreSorted self.old }
    {
        match self.find(name) {
            Ok(at) => {
                let Member { name: _, value } = self.all.remove(at);
                Some(value)
            }
            Err(_) => None,
        }
    }
}
