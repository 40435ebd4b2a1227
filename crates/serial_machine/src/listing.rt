ghost use Rattle.std.specs.Prelude.{◌↔◌, IfOk, IsTrue, All};
ghost use Rattle.history_model.specs.Right.{IsLacked, IsListed, IsListRight};
ghost use Rattle.serial_machine.specs.Held.{HasRooms};
ghost use Rattle.serial_machine.specs.Stepping.{scene_objects};
ghost use Rattle.log_context.specs.Histories.{history_of};
ghost use Rattle.write_groups.specs.Modelled.{item_of, listing_of};

use crate::replies::is_shown;
use crate::scene::Scene;
use crate::shown::{shown_keys, unshown_keys};
use base_types::{ObjectKey, OutOfMemory};
use write_groups::{Item, Listing};

// Whether the list of this number rightly shows the item.
fn is_listed(scene: Scene<'_>, number: u32, place: u64, item: &Item) -> Result<bool, OutOfMemory>
    ensures { IfOk result (λ right. IsTrue right
        ↔ IsListed (history_of scene.entry.context.now) number place (item_of item.now)
        (scene_objects scene.entry item.now.key)) }
{
    if scene.is_clouded(&item.key, place) {
        return Ok(true);
    }
    if !is_shown(item, scene.object(&item.key)) {
        return Ok(false);
    }
    scene.context.is_listable(number, item.node)
}

// Whether the whole list of this number rightly lacks the key.
fn is_lacked(
    scene: Scene<'_>,
    number: u32,
    place: u64,
    key: &ObjectKey,
) -> Result<bool, OutOfMemory>
    ensures { IfOk result (λ right. IsTrue right
        ↔ IsLacked (history_of scene.entry.context.now) number place key.now
        (scene_objects scene.entry key.now)) }
{
    if scene.is_clouded(key, place) {
        return Ok(true);
    }
    let Some(version) = scene.object(key) else {
        return Ok(true);
    };
    Ok(!scene.context.is_listable(number, version.node)?)
}

// Whether the list rightly shows each of the items.
fn are_listed(
    scene: Scene<'_>,
    number: u32,
    place: u64,
    items: &[Item],
) -> Result<bool, OutOfMemory>
    ensures { IfOk result (λ right. IsTrue right
        ↔ All (λ item. IsListed (history_of scene.entry.context.now) number place (item_of item)
        (scene_objects scene.entry item.key)) items.now) }
{
    for item in items {
        if !is_listed(scene, number, place, item)? {
            return Ok(false);
        }
    }
    Ok(true)
}

// Whether the list rightly lacks each of the keys.
fn are_lacked(
    scene: Scene<'_>,
    number: u32,
    place: u64,
    keys: &[&ObjectKey],
) -> Result<bool, OutOfMemory>
    ensures { IfOk result (λ right. IsTrue right
        ↔ All (λ key. IsLacked (history_of scene.entry.context.now) number place key.now
        (scene_objects scene.entry key.now)) keys.now) }
{
    for key in keys {
        if !is_lacked(scene, number, place, *key)? {
            return Ok(false);
        }
    }
    Ok(true)
}

/// Whether the list that the event of this number was answered with is right at the place.
pub fn is_list_right(
    scene: Scene<'_>,
    number: u32,
    place: u64,
    listing: &Listing,
) -> Result<bool, OutOfMemory>
    requires { HasRooms (history_of scene.context.now) scene.machine.now.objects }
    ensures { IfOk result (λ right. IsTrue right
        ↔ IsListRight (history_of scene.entry.context.now) number (listing_of listing.now) place
        (scene_objects scene.entry)) }
{
    if place != listing.revision.get() {
        return Ok(false);
    }
    let alloc = scene.machine.alloc;
    let Some(shown) = shown_keys(alloc, listing.items.as_slice())? else {
        return Ok(false);
    };
    if !are_listed(scene, number, place, listing.items.as_slice())? {
        return Ok(false);
    }
    if !listing.whole {
        return Ok(true);
    }
    let lacked = unshown_keys(alloc, scene.context.past(), listing, &shown)?;
    are_lacked(scene, number, place, &lacked)
}
