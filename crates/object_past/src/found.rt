ghost use Rattle.std.specs.Prelude.{◌≡◌, ◌++◌, OnOk};
ghost use Rattle.object_past.specs.Indexed.{IsGrown, high_of, nothing, position_of};

use crate::ending::Ending;
use crate::entry::Entry;
use crate::incarnation::{Incarnation, extend};
use crate::version::Version;
use base_types::OutOfMemory;
use std::alloc::Global;
use std::marker::Model;

/// What is found by one key.
#[derive(Drop)]
pub struct FoundByKey {
    entries: Vec<Entry>,
    incarnations: Vec<Incarnation>,
    // Where the ranges of its removals end: from there to its next version the object is absent.
    gone: Vec<u64>,
}

impl Model for FoundByKey {
    ghost use Rattle.object_past.specs.Indexed.{FoundByKey};

    ghost Value = { FoundByKey };

    ghost view = { λ f. record {
      entries = f.entries.items;
      incarnations = f.incarnations.items;
      gone =
          f.gone.items;
    } };
}

fn position_of(ending: Option<Ending>) -> Option<u32>
    ensures { result ≡ position_of ending }
{
    ending.map(|ending| ending.position)
}

fn add_gone(gone: &mut Vec<u64>, ending: Option<Ending>) -> Result<(), OutOfMemory>
    ensures { OnOk result (gone.new.items ≡ gone.old.items ++ high_of ending) }
{
    if let Some(ending) = ending {
        gone.push(ending.high)?;
    }
    Ok(())
}

impl FoundByKey {
    pub fn new(alloc: Global) -> FoundByKey
        ensures { result ≡ nothing }
    {
        FoundByKey {
            entries: Vec::new(alloc),
            incarnations: Vec::new(alloc),
            gone: Vec::new(alloc),
        }
    }

    /// Takes the version at this position, which may have been ended.
    pub fn add(
        &mut self,
        position: u32,
        version: &Version,
        ending: Option<Ending>,
    ) -> Result<(), OutOfMemory>
        ensures { OnOk result (IsGrown position version.now ending self.old self.new) }
    {
        self.entries.push(Entry {
            revision: version.revision.get(),
            position,
        })?;
        extend(&mut self.incarnations, version, position_of(ending))?;
        add_gone(&mut self.gone, ending)?;
        Ok(())
    }

    pub fn entries(&self) -> &[Entry]
        ensures { result.now ≡ self.now.entries }
    {
        self.entries.as_slice()
    }

    pub fn incarnations(&self) -> &[Incarnation]
        ensures { result.now ≡ self.now.incarnations }
    {
        self.incarnations.as_slice()
    }

    pub fn gone(&self) -> &[u64]
        ensures { result.now ≡ self.now.gone }
    {
        self.gone.as_slice()
    }
}
