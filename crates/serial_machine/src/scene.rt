ghost use Rattle.std.specs.Prelude.{◌≡◌, ◌↔◌, IsTrue, option_map};
ghost use Rattle.history_model.specs.Clouds.{IsClouded};
ghost use Rattle.history_model.specs.States.{latest};
ghost use Rattle.object_past.specs.Modelled.{maker_of, version_of};
ghost use Rattle.serial_machine.specs.Held.{has_no_maker, unmade};
ghost use Rattle.serial_machine.specs.Stepping.{scene_objects};
ghost use Rattle.log_context.specs.Histories.{history_of};

use crate::machine::Machine;
use base_types::ObjectKey;
use log_context::Context;
use object_past::{Maker, Version};

/// What a step is judged on: the objects of a machine, and in front of them the versions without a maker that come
/// behind its last step and up to a place.
#[derive(Clone, Copy)]
pub struct Scene<'a> {
    pub context: &'a Context,
    pub machine: &'a Machine,
    pub upto: u64,
}

/// Whether nobody of the log made the version.
pub fn has_no_maker(maker: Maker) -> bool
    ensures { result ≡ has_no_maker (maker_of maker) }
{
    match maker {
        Maker::Snapshot => false,
        Maker::Event(_) => false,
        Maker::Unknown => true,
    }
}

// The key's latest version that has no maker, behind the one place and not behind the other.
fn last_unmade<'a>(
    context: &'a Context,
    key: &ObjectKey,
    low: u64,
    high: u64,
) -> Option<&'a Version>
    ensures { option_map (λ v. version_of v.now) result
        ≡ latest (unmade (history_of context.now) low high) key.now high }
{
    // For the proof alone, as for a machine's start.
    let _log = context.log();
    let mut place = high;
    while low < place {
        let Some(version) = context.latest(key, place) else {
            return None;
        };
        let revision = version.revision.get();
        if revision <= low {
            return None;
        }
        if has_no_maker(version.maker) {
            return Some(version);
        }
        place = revision - 1;
    }
    None
}

impl<'a> Scene<'a> {
    /// The object of the key.
    pub fn object(self, key: &ObjectKey) -> Option<&'a Version>
        ensures { option_map (λ v. version_of v.now) result ≡ scene_objects self.entry key.now }
    {
        match last_unmade(self.context, key, self.machine.place, self.upto) {
            Some(version) => Some(version),
            None => self.machine.object(self.context, key),
        }
    }

    /// Whether nothing is known of the key's object at the place.
    pub fn is_clouded(self, key: &ObjectKey, place: u64) -> bool
        ensures { IsTrue result ↔ IsClouded (history_of self.entry.context.now) key.now place }
    {
        self.context.clouds().clouded(key, place)
    }
}
