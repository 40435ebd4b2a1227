ghost use Rattle.std.specs.Prelude.{IfOk};
ghost use Rattle.history_model.specs.Bounding.{Shows, Lacks};
ghost use Rattle.history_model.specs.Histories.{History};
ghost use Rattle.local_bounds.specs.Demands.{IsDemandAsking};
ghost use Rattle.local_bounds.specs.Known.{IsKnownBy, HasSelectors};
ghost use Rattle.write_groups.specs.Modelled.{item_of};

use crate::asking::KeyDemand;
use crate::known::{Known, Listable};
use crate::seen::seen_at;
use crate::sight::Sight;
use crate::standing::standing_at;
use base_types::{ObjectKey, OutOfMemory};
use write_groups::Item;

/// What is asked, so that the list of this number rightly shows the item at the place.
pub fn shown_asking<L: Listable>(
    known: Known<'_>,
    lists: &L,
    number: u32,
    place: u64,
    item: &Item,
) -> Result<KeyDemand, OutOfMemory>
    ensures { IfOk result
        (λ asking. (h : History) → IsKnownBy known.entry.past.now known.entry.clouds.now h
        → HasSelectors (L.listable lists.now) h
        → IsDemandAsking h number place (Shows (item_of item.now)) asking) }
{
    if known.clouds.clouded(&item.key, place) {
        return Ok(KeyDemand::Free);
    }
    let listable = lists.is_listable(number, item.node)?;
    if !listable {
        return Ok(KeyDemand::Never);
    }
    Ok(seen_at(known.past, &item.key, Sight::Shown(item), place))
}

/// What is asked, so that the whole list of this number rightly lacks the key at the place.
pub fn lacked_asking<L: Listable>(
    known: Known<'_>,
    lists: &L,
    number: u32,
    place: u64,
    key: &ObjectKey,
) -> Result<KeyDemand, OutOfMemory>
    ensures { IfOk result
        (λ asking. (h : History) → IsKnownBy known.entry.past.now known.entry.clouds.now h
        → HasSelectors (L.listable lists.now) h
        → IsDemandAsking h number place (Lacks key.now) asking) }
{
    if known.clouds.clouded(key, place) {
        return Ok(KeyDemand::Free);
    }
    let standing = standing_at(known.past, key, place);
    let Some(version) = standing.version() else {
        return Ok(standing.ask(true, false));
    };
    let listable = lists.is_listable(number, version.node)?;
    Ok(standing.ask(true, !listable))
}
