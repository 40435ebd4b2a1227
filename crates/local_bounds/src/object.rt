ghost use Rattle.std.specs.Prelude.{◌⊎◌};
ghost use Rattle.history_model.specs.Bounding.{SomewhereIn};
ghost use Rattle.history_model.specs.Clouds.{IsClouded};
ghost use Rattle.history_model.specs.Histories.{History};
ghost use Rattle.history_model.specs.States.{state};
ghost use Rattle.local_bounds.specs.Asked.{IsKeyAsking};
ghost use Rattle.local_bounds.specs.Known.{IsKnownBy};
ghost use Rattle.local_bounds.specs.Sights.{IsSeen};

use crate::asking::KeyDemand;
use crate::known::Known;
use crate::seen::seen_within;
use crate::sight::Sight;
use base_types::ObjectKey;
use write_groups::Window;

/// What is asked, so that somewhere in the window the key is clouded, or the object is so.
pub fn object_asking(
    known: Known<'_>,
    key: &ObjectKey,
    sight: Sight<'_>,
    window: Window,
) -> KeyDemand
    ensures { (h : History) → IsKnownBy known.entry.past.now known.entry.clouds.now h
        → IsKeyAsking h key.now (λ choice. SomewhereIn window.low window.high
        (λ x. IsClouded h key.now x ⊎ IsSeen sight.entry (state h choice x key.now))) result }
{
    if known.clouds.meets(key, window.low, window.high).is_some() {
        return KeyDemand::Free;
    }
    seen_within(known.past, key, sight, window)
}
