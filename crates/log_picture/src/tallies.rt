ghost use Rattle.std.specs.Prelude.{◌≡◌, ◌<◌, ◌^◌, IfOk, OnOk};
ghost use Rattle.log_picture.specs.Changes.{is_recorded};
ghost use Rattle.log_picture.specs.Tallied.{AreFew, AreTallied, CountsOne, one, one_more};

use base_types::{ObjectKey, OutOfMemory, Revision};
use object_past::{Maker, Version};
use std::alloc::Global;
use std::collections::BTreeMap;

/// What recorded writes did to an object.
#[derive(Clone, Copy, Drop)]
pub struct Tally {
    /// How many versions they gave it.
    pub count: usize,
    /// The revision of the first of these.
    pub first: u64,
    /// That of the last.
    pub last: u64,
}

/// What recorded writes did to each object that they changed, under its key.
pub type Tallies = BTreeMap<ObjectKey, Tally>;

impl Tally {
    fn one(revision: Revision) -> Tally
        ensures { result ≡ one revision }
    {
        Tally {
            count: 1,
            first: revision.get(),
            last: revision.get(),
        }
    }

    // Counts a version behind the others.
    fn add(&mut self, revision: Revision)
        requires { self.now.count < 2 ^ 63 }
        ensures { self.new ≡ one_more self.old revision }
    {
        self.count += 1;
        self.last = revision.get();
    }
}

fn is_recorded(maker: Maker) -> bool
    ensures { result ≡ is_recorded maker }
{
    match maker {
        Maker::Snapshot => false,
        Maker::Event(_) => true,
        Maker::Unknown => false,
    }
}

fn count_version(tallies: &mut Tallies, version: &Version) -> Result<(), OutOfMemory>
    requires { AreFew tallies.now }
    ensures { OnOk result (CountsOne version.now tallies.old tallies.new) }
{
    if !is_recorded(version.maker) {
        return Ok(());
    }
    match tallies.get_mut(&version.key) {
        Some(tally) => {
            tally.add(version.revision);
            return Ok(());
        }
        None => {
            let first = Tally::one(version.revision);
            let _none = tallies.insert(version.key.clone()?, first)?;
        }
    }
    Ok(())
}

/// Counts what recorded writes did to each object.
pub fn tallies_of(alloc: Global, versions: &[Version]) -> Result<Tallies, OutOfMemory>
    ensures { IfOk result (λ tallies. AreTallied versions.now tallies) }
{
    let mut tallies = BTreeMap::new(alloc);
    for version in versions {
        count_version(&mut tallies, version)?;
    }
    Ok(tallies)
}
