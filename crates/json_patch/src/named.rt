ghost use Rattle.std.specs.Prelude.{◌≡◌, IfOk, OnOk, option_map};
ghost use Rattle.base_types.specs.Edits.{put};
ghost use Rattle.base_types.specs.Meaning.{fields_of};
ghost use Rattle.base_types.specs.Names.{AreSorted};
ghost use Rattle.base_types.specs.Parts.{lookup};
ghost use Rattle.base_types.specs.Stored.{fields_without};

use crate::draft::{Draft, DraftMember, DraftMembers};
use crate::members::{find, insert, remove_at};
use base_types::{OutOfMemory, Text};
use std::alloc::Global;
use std::mem;

impl DraftMembers {
    /// The value of the member of a name.
    pub fn get(&self, name: &str) -> Option<&Draft>
        ensures { option_map (λ t. t.now) result ≡ lookup name.now (fields_of self.now) }
    {
        match find(&self.parts, name) {
            Ok(place) => {
                let part = &self.parts[place.part];
                let member = &part.all[place.offset];
                Some(&member.value)
            }
            Err(_) => None,
        }
    }

    /// Puts a value at a name and answers the value that it takes the place of. Without memory the members may
    /// be lost, and name and value are dropped.
    pub fn put(
        &mut self,
        alloc: Global,
        name: Text,
        value: Draft,
    ) -> Result<Option<Draft>, OutOfMemory>
        ensures put { OnOk result (fields_of self.new ≡ put name value (fields_of self.old)) }
        ensures old { IfOk result (λ old. old ≡ lookup name (fields_of self.old)) }
        ensures sorted { AreSorted self.old }
    {
        match find(&self.parts, name.as_str()) {
            Ok(place) => {
                let part = &mut self.parts[place.part];
                let member = &mut part.all[place.offset];
                Ok(Some(mem::replace(&mut member.value, value)))
            }
            Err(place) => {
                // without chunks while they change, the members are in order also where there is no memory
                let mut parts = mem::replace(&mut self.parts, Vec::new(alloc));
                insert(alloc, &mut parts, place, DraftMember { name, value })?;
                self.parts = parts;
                Ok(None)
            }
        }
    }

    /// Takes the member of a name out and answers its value.
    pub fn take(&mut self, name: &str) -> Option<Draft>
        ensures left { fields_of self.new ≡ fields_without name.now (fields_of self.old) }
        ensures taken { result ≡ lookup name.now (fields_of self.old) }
        ensures sorted { AreSorted self.old }
    {
        match find(&self.parts, name) {
            Ok(place) => {
                let DraftMember { name: _, value } = remove_at(&mut self.parts, place);
                Some(value)
            }
            Err(_) => None,
        }
    }
}
