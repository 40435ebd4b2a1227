ghost use Rattle.std.specs.Prelude.{◌≡◌, IfOk, map};
ghost use Rattle.history_model.specs.Bounding.{SomewhereIn, Shows, Lacks};
ghost use Rattle.history_model.specs.Histories.{History};
ghost use Rattle.history_model.specs.Right.{IsListRight};
ghost use Rattle.history_model.specs.States.{state};
ghost use Rattle.local_bounds.specs.Asked.{IsAsking};
ghost use Rattle.local_bounds.specs.Demands.{AreAsked, AreAskedOfList};
ghost use Rattle.local_bounds.specs.Keys.{AreKeysOf};
ghost use Rattle.local_bounds.specs.Known.{IsPastOf, IsKnownBy, HasSelectors};
ghost use Rattle.local_bounds.specs.Lacked.{AreLacked};
ghost use Rattle.object_past.specs.Among.{keys_at};
ghost use Rattle.write_groups.specs.Modelled.{item_of, listing_of};

use crate::asking::{BoundDemand, KeyDemand};
use crate::demand::{lacked_asking, shown_asking};
use crate::gathering::together;
use crate::keys::distinct_keys;
use crate::known::{Known, Listable};
use base_types::{ObjectKey, OutOfMemory};
use object_past::{Past, keys_without};
use std::alloc::Global;
use write_groups::{Item, Listing, Window};

// What is asked for each of the items.
fn shown_askings<L: Listable>(
    alloc: Global,
    known: Known<'_>,
    lists: &L,
    number: u32,
    place: u64,
    items: &[Item],
) -> Result<Vec<KeyDemand>, OutOfMemory>
    ensures { IfOk result
        (λ askings. (h : History) → IsKnownBy known.entry.past.now known.entry.clouds.now h
        → HasSelectors (L.listable lists.now) h
        → AreAsked h number place (map (λ item. Shows (item_of item)) items.now) askings.items) }
{
    let mut askings = Vec::with_capacity(alloc, items.len())?;
    for item in items {
        let asking = shown_asking(known, lists, number, place, item)?;
        askings.push(asking)?;
    }
    Ok(askings)
}

// What is asked for each of the keys, which the list lacks.
fn lacked_askings<L: Listable>(
    alloc: Global,
    known: Known<'_>,
    lists: &L,
    number: u32,
    place: u64,
    keys: &[&ObjectKey],
) -> Result<Vec<KeyDemand>, OutOfMemory>
    ensures { IfOk result
        (λ askings. (h : History) → IsKnownBy known.entry.past.now known.entry.clouds.now h
        → HasSelectors (L.listable lists.now) h
        → AreAsked h number place (map (λ key. Lacks key.now) keys.now) askings.items) }
{
    let mut askings = Vec::with_capacity(alloc, keys.len())?;
    for key in keys {
        let asking = lacked_asking(known, lists, number, place, *key)?;
        askings.push(asking)?;
    }
    Ok(askings)
}

// The keys that a whole list lacks, of those that ever had an object; the shown ones are those of its items, in order.
fn lacked_keys<'a>(
    alloc: Global,
    past: &'a Past,
    listing: &Listing,
    shown: &[&ObjectKey],
) -> Result<Vec<&'a ObjectKey>, OutOfMemory>
    requires { AreKeysOf listing.now.items shown.now }
    ensures { IfOk result
        (λ keys. (h : History) → IsPastOf past.now h → AreLacked h (listing_of listing.now)
        (keys_at keys.items)) }
{
    if !listing.whole {
        return Ok(Vec::new(alloc));
    }
    let scope = past.scope(&listing.group, &listing.resource, &listing.namespace);
    keys_without(alloc, scope, shown)
}

// What is asked for each item of a list, and behind that for each key that it lacks; the shown keys are those of its
// items, in order.
fn key_askings<L: Listable>(
    alloc: Global,
    known: Known<'_>,
    lists: &L,
    number: u32,
    listing: &Listing,
    shown: &[&ObjectKey],
) -> Result<Vec<KeyDemand>, OutOfMemory>
    requires { AreKeysOf listing.now.items shown.now }
    ensures { IfOk result
        (λ askings. (h : History) → IsKnownBy known.entry.past.now known.entry.clouds.now h
        → HasSelectors (L.listable lists.now) h
        → AreAskedOfList h number (listing_of listing.now) askings.items) }
{
    let place = listing.revision.get();
    let lacked = lacked_keys(alloc, known.past, listing, shown)?;
    let mut askings = shown_askings(alloc, known, lists, number, place, listing.items.as_slice())?;
    let mut others = lacked_askings(alloc, known, lists, number, place, &lacked)?;
    askings.append(&mut others)?;
    Ok(askings)
}

/// What a list asks.
pub fn list_asking<L: Listable>(
    alloc: Global,
    known: Known<'_>,
    lists: &L,
    window: Window,
    number: u32,
    listing: &Listing,
) -> Result<BoundDemand, OutOfMemory>
    ensures { IfOk result
        (λ asking. (h : History) → IsKnownBy known.entry.past.now known.entry.clouds.now h
        → HasSelectors (L.listable lists.now) h
        → IsAsking h (λ choice. SomewhereIn window.low window.high (λ x. IsListRight h number
        (listing_of listing.now) x (state h choice x))) asking) }
{
    let place = listing.revision.get();
    if place < window.low || window.high < place {
        return Ok(BoundDemand::Never);
    }
    let Some(shown) = distinct_keys(alloc, listing.items.as_slice())? else {
        return Ok(BoundDemand::Never);
    };
    let askings = key_askings(alloc, known, lists, number, listing, &shown)?;
    together(alloc, &askings)
}
