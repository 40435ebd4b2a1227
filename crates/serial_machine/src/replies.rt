ghost use Rattle.std.specs.Prelude.{◌≡◌, ◌↔◌, ◌⊎◌, ℕ, Some, None, IfOk, IsNone, IsSome, IsTrue, option_map};
ghost use Rattle.history_model.specs.Clouds.{IsClouded};
ghost use Rattle.history_model.specs.Machine as model;
ghost use Rattle.history_model.specs.Histories.{IsEvent};
ghost use Rattle.history_model.specs.Making.{MeetsConditions};
ghost use Rattle.history_model.specs.Right.{IsRefused, IsRight, IsShown, answer_code};
ghost use Rattle.history_model.specs.States.{Map};
ghost use Rattle.history_model.specs.Words.{At, word};
ghost use Rattle.object_past.specs.Modelled.{version_of};
ghost use Rattle.serial_machine.specs.Held.{HasRooms};
ghost use Rattle.serial_machine.specs.Stepping.{IsVerdictOn, scene_objects};
ghost use Rattle.log_context.specs.Histories.{history_of};
ghost use Rattle.write_groups.specs.Modelled.{answer_of, conditions_of, event_of, item_of};

use crate::listing::is_list_right;
use crate::scene::Scene;
use base_types::{ObjectKey, OutOfMemory, Reason};
use log_context::Context;
use object_past::Version;
use write_groups::{Item, LogEvent, Preconditions, Shown};

// Whether the version is the item.
fn is_item(item: &Item, version: &Version) -> bool
    ensures { IsTrue result ↔ IsShown (item_of item.now) (Some (version_of version.now)) }
{
    version.revision == item.revision && version.uid == item.uid && version.node == item.node
}

/// Whether the object is the item.
pub fn is_shown(item: &Item, found: Option<&Version>) -> bool
    ensures { IsTrue result ↔ IsShown (item_of item.now)
        (option_map (λ v. version_of v.now) found.entry) }
{
    match found {
        Some(version) => is_item(item, version),
        None => false,
    }
}

// Whether the version meets the preconditions.
fn is_met(asked: &Preconditions, version: &Version) -> bool
    ensures { IsTrue result ↔ MeetsConditions (conditions_of asked.now)
        (Some (version_of version.now)) }
{
    asked.are_met(version.revision, &version.uid)
}

// Whether the request was rightly refused for the object.
fn is_refused(asked: &Preconditions, found: Option<&Version>) -> bool
    ensures { IsTrue result ↔ IsRefused (conditions_of asked.now)
        (option_map (λ v. version_of v.now) found.entry) }
{
    match found {
        Some(version) => !is_met(asked, version),
        None => asked.uid.is_some(),
    }
}

// Whether a write found its revision, or its key is clouded. `fault` is why it couldn't have found it.
fn is_found(scene: Scene<'_>, item: &Item, place: u64, fault: Option<Reason>) -> bool
    ensures { IsTrue result ↔ (IsClouded (history_of scene.entry.context.now) item.now.key place
        ⊎ (IsShown (item_of item.now) (scene_objects scene.entry item.now.key) × (fault ≡ None))) }
{
    if scene.is_clouded(&item.key, place) {
        return true;
    }
    if fault.is_some() {
        return false;
    }
    is_shown(item, scene.object(&item.key))
}

// Whether the object is the item, or its key is clouded.
fn is_seen(scene: Scene<'_>, item: &Item, place: u64) -> bool
    ensures { IsTrue result ↔ (IsClouded (history_of scene.entry.context.now) item.now.key place
        ⊎ IsShown (item_of item.now) (scene_objects scene.entry item.now.key)) }
{
    if scene.is_clouded(&item.key, place) {
        return true;
    }
    is_shown(item, scene.object(&item.key))
}

// Whether there is no object, or the key is clouded.
fn is_absent(scene: Scene<'_>, key: &ObjectKey, place: u64) -> bool
    ensures { IsTrue result ↔ (IsClouded (history_of scene.entry.context.now) key.now place
        ⊎ IsNone (scene_objects scene.entry key.now)) }
{
    if scene.is_clouded(key, place) {
        return true;
    }
    scene.object(key).is_none()
}

// Whether there is an object, or the key is clouded.
fn is_present(scene: Scene<'_>, key: &ObjectKey, place: u64) -> bool
    ensures { IsTrue result ↔ (IsClouded (history_of scene.entry.context.now) key.now place
        ⊎ IsSome (scene_objects scene.entry key.now)) }
{
    if scene.is_clouded(key, place) {
        return true;
    }
    scene.object(key).is_some()
}

// Whether the request was rightly refused for the object, or the key is clouded.
fn is_other(scene: Scene<'_>, key: &ObjectKey, place: u64, asked: &Preconditions) -> bool
    ensures { IsTrue result ↔ (IsClouded (history_of scene.entry.context.now) key.now place
        ⊎ IsRefused (conditions_of asked.now) (scene_objects scene.entry key.now)) }
{
    if scene.is_clouded(key, place) {
        return true;
    }
    is_refused(asked, scene.object(key))
}

// Whether the answer is right at the place.
fn is_right(
    scene: Scene<'_>,
    number: u32,
    event: &LogEvent,
    place: u64,
) -> Result<bool, OutOfMemory>
    requires known { IsEvent (history_of scene.context.now) number (event_of event.now) }
    requires placed { word (history_of scene.context.now) number (event_of event.now) ≡ At }
    requires rooms { HasRooms (history_of scene.context.now) scene.machine.now.objects }
    ensures { IfOk result (λ right. IsTrue right
        ↔ IsRight (history_of scene.entry.context.now) number (event_of event.now) place
        (scene_objects scene.entry)) }
{
    match &event.answer {
        Shown::Made { item, created: _ } => {
            let fault = scene.context.fault(number);
            Ok(is_found(scene, item, place, fault))
        }
        Shown::Removed { key, uid: _ } => Ok(scene.is_clouded(key, place)),
        Shown::Opaque { cover: _ } => Ok(true),
        Shown::Saw { item } => Ok(is_seen(scene, item, place)),
        Shown::SawNone { key } => Ok(is_absent(scene, key, place)),
        Shown::SawSome { key } => Ok(is_present(scene, key, place)),
        Shown::SawOther { key } => Ok(is_other(scene, key, place, &event.preconditions)),
        Shown::Listed { listing } => is_list_right(scene, number, place, listing),
        Shown::Free => Ok(true),
        Shown::Aside => Ok(true),
    }
}

// The code of an answer that isn't right.
fn code_of(answer: &Shown) -> Reason
    ensures { result ≡ answer_code (answer_of answer.now) }
{
    match answer {
        Shown::Made {
            item: _,
            created: _,
        } => Reason::U10,
        Shown::Removed { key: _, uid: _ } => Reason::U9,
        Shown::Opaque { cover: _ } => Reason::U10,
        Shown::Saw { item: _ } => Reason::U10,
        Shown::SawNone { key: _ } => Reason::U11,
        Shown::SawSome { key: _ } => Reason::U12,
        Shown::SawOther { key: _ } => Reason::U12,
        Shown::Listed { listing: _ } => Reason::U13,
        Shown::Free => Reason::U10,
        Shown::Aside => Reason::U10,
    }
}

// The least code of an answer that isn't right: a write that couldn't have found its revision tells why.
fn wrong_code(context: &Context, number: u32, event: &LogEvent) -> Reason
    requires known { IsEvent (history_of context.now) number (event_of event.now) }
    requires placed { word (history_of context.now) number (event_of event.now) ≡ At }
    ensures { (place : ℕ) (map : Map) → (IsRight (history_of context.now) number
        (event_of event.now) place map → ⊥)
        → IsVerdictOn (history_of context.now) map (model.Reply number (event_of event.now) place)
        (Some result) }
{
    match context.fault(number) {
        Some(code) => code,
        None => code_of(&event.answer),
    }
}

/// The least code why the event's answer isn't right at the place.
pub fn reply_verdict(
    scene: Scene<'_>,
    number: u32,
    event: &LogEvent,
    place: u64,
) -> Result<Option<Reason>, OutOfMemory>
    requires known { IsEvent (history_of scene.context.now) number (event_of event.now) }
    requires placed { word (history_of scene.context.now) number (event_of event.now) ≡ At }
    requires rooms { HasRooms (history_of scene.context.now) scene.machine.now.objects }
    ensures { IfOk result (IsVerdictOn (history_of scene.entry.context.now)
        (scene_objects scene.entry) (model.Reply number (event_of event.now) place)) }
{
    if is_right(scene, number, event, place)? {
        return Ok(None);
    }
    Ok(Some(wrong_code(scene.context, number, event)))
}
