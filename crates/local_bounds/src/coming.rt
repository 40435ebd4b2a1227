ghost use Rattle.std.specs.Prelude.{option_map};
ghost use Rattle.history_model.specs.Histories.{History};
ghost use Rattle.local_bounds.specs.Known.{IsPastOf};
ghost use Rattle.local_bounds.specs.Coming.{IsComer};
ghost use Rattle.object_past.specs.Modelled.{version_of};

use base_types::ObjectKey;
use object_past::{Past, Version};

/// The key's last version with a revision from `low` to `high`.
pub fn last_comer<'a>(past: &'a Past, key: &ObjectKey, low: u64, high: u64) -> Option<&'a Version>
    ensures { (h : History) → IsPastOf past.now h → IsComer h key.now low high
        (option_map (λ v. version_of v.now) result) }
{
    let Some(version) = past.latest(key, high) else {
        return None;
    };
    if version.revision.get() < low {
        return None;
    }
    Some(version)
}
