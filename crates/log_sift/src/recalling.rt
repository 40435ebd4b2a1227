ghost use Rattle.std.specs.Prelude.{◌≡◌, ◌↔◌, IsTrue};
ghost use Rattle.std.specs.Option.{option_copied};
ghost use Rattle.indexmap.specs.IndexMap.{get};
ghost use Rattle.log_sift.specs.Recalling.{Compares};

use crate::answer::LeftCause;
use audit_event::{Event, Malformed};
use base_types::{Stage, Text};
use hash_seed::Seeded;
use indexmap::IndexMap;

/// What an event is kept under: one stage of one request.
#[derive(Drop, PartialEq, Eq, Hash)]
pub struct EventIdentity {
    pub audit_id: Text,
    pub stage: Stage,
}

/// The kept events, each under its identity, in the order in which they were kept. They are compared where they are, so
/// that no line is decoded twice.
pub type KeptEvents = IndexMap<EventIdentity, Event, Seeded>;

/// The kept event of an identity.
pub fn kept_of<'a>(kept: &'a KeptEvents, identity: &EventIdentity) -> Option<&'a Event>
    ensures { option_copied result ≡ get (⟦<EventIdentity as PartialEq>⟧.eq) kept.now identity.now }
{
    kept.get(identity)
}

fn is_same(a: &Event, b: &Event) -> bool
    ensures { IsTrue result ↔ (a.now ≡ b.now) }
{
    a == b
}

/// Why an event isn't kept behind an earlier one of its request and stage; nothing where it repeats that one.
pub fn compare(earlier: &Event, mut event: Event) -> Option<LeftCause>
    ensures { Compares earlier.now event result }
{
    // All but the number is compared.
    event.line = earlier.line;
    if is_same(earlier, &event) {
        return None;
    }
    Some(LeftCause::Rule(Malformed::M12))
}
