ghost use Rattle.std.specs.Prelude.{◌≡◌, ◌++◌, ◌∷◌, [], Some, IfOk, IsSome, List, option_map};
ghost use Rattle.std.specs.BTreeMap.{Updates, get};
ghost use Rattle.base_types.specs.declared.kubernetes.key.ObjectKey.{ObjectKey as Key};
ghost use Rattle.clouds.specs.Kept.{key_order};
ghost use Rattle.history_model.specs.Histories.{History};
ghost use Rattle.history_model.specs.Machine as model;
ghost use Rattle.history_model.specs.Readable.{IsReadable};
ghost use Rattle.object_past.specs.Modelled.{version_of};
ghost use Rattle.serial_machine.specs.Held.{HasMade, HasRooms, held, objects_in, objects_of};
ghost use Rattle.serial_machine.specs.Stepping.{IsOfHistory, step_of};
ghost use Rattle.log_context.specs.Histories.{history_of};

use crate::step::Step;
use base_types::{ObjectKey, OutOfMemory};
use log_context::{Context, FirstUses};
use object_past::Version;
use std::alloc::Global;
use std::collections::BTreeMap;

/// Of each key that ever has an object, the revision of the object that is there.
pub type Objects = BTreeMap<ObjectKey, Option<u64>>;

/// The serial API machine: the objects of a cluster, which one step after another changes. The steps take no memory;
/// the judgement of some does, by the allocator of the start.
#[derive(Drop)]
pub struct Machine {
    pub(crate) alloc: Global,
    pub(crate) objects: Objects,
    // For the writes that create an object: whether its uid was there before.
    pub(crate) uses: FirstUses,
    // Where the last step was.
    pub(crate) place: u64,
}

fn revision_of(version: Option<&Version>) -> Option<u64>
    ensures { result ≡ option_map (λ v. v.now.revision) version.entry }
{
    Some(version?.revision.get())
}

// The revision that is held under the key.
fn held_at(objects: &Objects, key: &ObjectKey) -> Option<u64>
    ensures { result ≡ held (get key_order objects.now key.now) }
{
    match objects.get(key) {
        Some(revision) => *revision,
        None => None,
    }
}

// Holds another revision under a key that is there.
fn hold(objects: &mut Objects, key: &ObjectKey, revision: Option<u64>)
    ensures { IsSome (get key_order objects.old key.now)
        → Updates key_order objects.old objects.new key.now (Some revision) }
{
    let Some(held) = objects.get_mut(key) else {
        return;
    };
    *held = revision;
}

// What the step leaves of the objects.
fn change(objects: &mut Objects, step: Step<'_>)
    ensures rooms { (h : History) → IsOfHistory h (step_of step.entry) → IsReadable h
        → HasRooms h objects.old → HasRooms h objects.new }
    ensures objects { (h : History) (key : Key) → IsOfHistory h (step_of step.entry) → IsReadable h
        → HasRooms h objects.old → objects_in h objects.new key
        ≡ model.after (objects_in h objects.old) (step_of step.entry) key }
{
    match step {
        Step::Put(version) => hold(objects, &version.key, Some(version.revision.get())),
        Step::Remove { removal, place: _ } => hold(objects, &removal.key, None),
        Step::Reply {
            number: _,
            event: _,
            place: _,
        } => {}
    }
}

impl Machine {
    /// A machine that holds the snapshot, and where each uid of the context comes first.
    pub fn start(alloc: Global, context: &Context) -> Result<Machine, OutOfMemory>
        ensures { IfOk result (λ machine. HasMade (history_of context.now) machine []) }
    {
        // For the proof alone: what a context tells of its history is known where its log is looked at.
        let _log = context.log();
        let start = context.setup().start.get();
        let keys = context.past().keys();
        let mut objects = BTreeMap::new(alloc);
        for key in keys {
            let revision = revision_of(context.latest(key, start));
            let _none = objects.insert(key.clone()?, revision)?;
        }
        let uses = FirstUses::of(alloc, context)?;
        Ok(Machine {
            alloc,
            objects,
            uses,
            place: start,
        })
    }

    /// The version of the key that is there.
    pub(crate) fn object<'a>(&self, context: &'a Context, key: &ObjectKey) -> Option<&'a Version>
        ensures { option_map (λ v. version_of v.now) result
            ≡ objects_of (history_of context.now) self.now key.now }
    {
        let Some(revision) = held_at(&self.objects, key) else {
            return None;
        };
        context.past().at(revision)
    }

    /// Makes a step.
    pub(crate) fn make(&mut self, step: Step<'_>)
        ensures { (h : History) (done : List model.Step) → IsOfHistory h (step_of step.entry)
            → HasMade h self.old done → HasMade h self.new (done ++ step_of step.entry ∷ []) }
    {
        change(&mut self.objects, step);
        self.place = step.place();
    }
}
