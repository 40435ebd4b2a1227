ghost use Rattle.std.specs.Prelude.{◌≡◌, ◌↔◌, ◌-◌, ℕ, IfOk, IsTrue, Contains};
ghost use Rattle.history_model.specs.Clouds.{IsCloudedWithin};
ghost use Rattle.history_model.specs.Machine as model;
ghost use Rattle.history_model.specs.Machine.{MayRemove, MeetsPreconditions};
ghost use Rattle.object_past.specs.Modelled.{recorded, version_of};
ghost use Rattle.serial_machine.specs.Held.{HasRooms};
ghost use Rattle.serial_machine.specs.Stepping.{IsOfHistory, IsVerdictOn, scene_objects, step_of};
ghost use Rattle.log_context.specs.Histories.{history_of};
ghost use Rattle.log_context.specs.Uses.{AreUsesOf};
ghost use Rattle.write_groups.specs.Met.{asks_uid};
ghost use Rattle.write_groups.specs.Modelled.{event_of};

use crate::replies::reply_verdict;
use crate::scene::Scene;
use crate::step::{Step, event_at};
use base_types::{ObjectKey, OutOfMemory, Range, Reason, Revision, Text};
use log_context::Context;
use object_past::{Maker, Removal, Version};
use write_groups::LogEvent;

// Why the version's maker can't have made it of the object before it.
fn put_verdict(scene: Scene<'_>, version: &Version) -> Result<Option<Reason>, OutOfMemory>
    requires known { Contains (history_of scene.context.now).versions (version_of version.now) }
    requires uses { AreUsesOf (history_of scene.context.now) scene.machine.now.uses }
    ensures { IfOk result (IsVerdictOn (history_of scene.entry.context.now)
        (scene_objects scene.entry) (model.Put (version_of version.now))) }
{
    // For the proof alone, as for a machine's start.
    let _log = scene.context.log();
    match version.maker {
        Maker::Event(number) => {
            let before = scene.object(&version.key);
            let machine = scene.machine;
            scene
                .context
                .making_fault(machine.alloc, &machine.uses, number, before)
        }
        Maker::Snapshot => Ok(None),
        Maker::Unknown => Ok(None),
    }
}

fn is_wanted_uid(wanted: &Option<Text>, uid: &Text) -> bool
    ensures { result ≡ asks_uid wanted.now uid.now }
{
    match wanted {
        Some(wanted) => *wanted == *uid,
        None => true,
    }
}

// Whether the key is clouded from the place before the range to its end.
fn is_clouded_about(context: &Context, key: &ObjectKey, range: Range) -> bool
    ensures { IsTrue result ↔ IsCloudedWithin (history_of context.now) key.now (range.low - 1)
        range.high }
{
    let low = range.low.saturating_sub(1);
    context.clouds().meets(key, low, range.high).is_some()
}

// Whether the removal has its preconditions, where the object that it removes has this revision.
fn meets_preconditions(
    context: &Context,
    event: &LogEvent,
    removal: &Removal,
    last: Revision,
) -> bool
    ensures { IsTrue result ↔ MeetsPreconditions (history_of context.now) (event_of event.now)
        (recorded removal.now) last }
{
    if !is_wanted_uid(&event.preconditions.uid, &removal.uid) {
        return false;
    }
    let Some(wanted) = event.preconditions.revision else {
        return true;
    };
    wanted == last || is_clouded_about(context, &removal.key, removal.range)
}

// Whether the object that is there is the one to remove.
fn may_remove(scene: Scene<'_>, event: &LogEvent, removal: &Removal) -> bool
    ensures { IsTrue result ↔ MayRemove (history_of scene.entry.context.now) (event_of event.now)
        (recorded removal.now) (scene_objects scene.entry removal.now.key) }
{
    let Some(version) = scene.object(&removal.key) else {
        return false;
    };
    if version.uid != removal.uid {
        return false;
    }
    meets_preconditions(scene.context, event, removal, version.revision)
}

// Why the removal doesn't have the object of the key to remove.
fn remove_verdict(scene: Scene<'_>, removal: &Removal) -> Option<Reason>
    ensures { (place : ℕ) → IsVerdictOn (history_of scene.entry.context.now)
        (scene_objects scene.entry) (model.Remove
        (record { removal = recorded removal.now; place = place })) result }
{
    let Some(event) = event_at(scene.context.log(), removal.range.event) else {
        return None;
    };
    if may_remove(scene, event, removal) {
        return None;
    }
    Some(Reason::U7)
}

/// The least code why the step isn't allowed on the objects of the scene; None where it is.
pub fn verdict(scene: Scene<'_>, step: Step<'_>) -> Result<Option<Reason>, OutOfMemory>
    requires known { IsOfHistory (history_of scene.context.now) (step_of step) }
    requires rooms { HasRooms (history_of scene.context.now) scene.machine.now.objects }
    requires uses { AreUsesOf (history_of scene.context.now) scene.machine.now.uses }
    ensures { IfOk result (IsVerdictOn (history_of scene.entry.context.now)
        (scene_objects scene.entry) (step_of step.entry)) }
{
    match step {
        Step::Put(version) => put_verdict(scene, version),
        Step::Remove { removal, place: _ } => Ok(remove_verdict(scene, removal)),
        Step::Reply {
            number,
            event,
            place,
        } => reply_verdict(scene, number, event, place),
    }
}
