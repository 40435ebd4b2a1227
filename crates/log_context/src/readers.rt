ghost use Rattle.std.specs.Prelude.{◌≡◌, ◌<◌, ◌==◌, ◌&&◌, ◌∷◌, [], Some, length, find, option_map, slice_get};
ghost use Rattle.std.specs.Prelude.{AllPairs, Contains, IfSome};
ghost use Rattle.history_model.specs.Events as model;
ghost use Rattle.history_model.specs.Histories.{IsEvent};
ghost use Rattle.base_types.specs.Keys.{same_key};
ghost use Rattle.history_model.specs.States.{latest};
ghost use Rattle.object_past.specs.Incarnated.{AreIncarnations};
ghost use Rattle.object_past.specs.Modelled.{version_of};
ghost use Rattle.write_groups.specs.Modelled.{answer_of};
ghost use Rattle.log_context.specs.Answered.{names, shown_trees};
ghost use Rattle.log_context.specs.Histories.{history_of};
ghost use Rattle.log_context.specs.Membered.{AreMembersAt};

use crate::context::Context;
use base_types::{ObjectKey, Revision, Text};
use node_number::NodeId;
use object_past::{Incarnation, Maker, Version};
use write_groups::{Group, Shown};

// The only tree of an answer is that of item 0.
fn alone(node: NodeId, item: u32) -> Option<NodeId>
    ensures { option_map (λ node. node.0) result ≡ slice_get (node.0 ∷ []) item }
{
    if item == 0 { Some(node) } else { None }
}

// The tree of an item of an answer.
fn shown_in(answer: &Shown, item: u32) -> Option<NodeId>
    ensures { option_map (λ node. node.0) result
        ≡ slice_get (shown_trees (answer_of answer.now)) item }
{
    match answer {
        Shown::Made { item: made, .. } => alone(made.node, item),
        Shown::Saw { item: seen } => alone(seen.node, item),
        Shown::Listed { listing } => Some(listing.items.as_slice().get(item as usize)?.node),
        Shown::Removed { .. } => None,
        Shown::Opaque { .. } => None,
        Shown::SawNone { .. } => None,
        Shown::SawSome { .. } => None,
        Shown::SawOther { .. } => None,
        Shown::Free => None,
        Shown::Aside => None,
    }
}

// The group of a revision, of groups by revision.
fn group_at(groups: &[Group], revision: Revision) -> Option<&Group>
    requires { AllPairs (λ a b. a.revision < b.revision) groups.now }
    ensures { option_map (λ group. group.now) result
        ≡ find (λ group. group.revision == revision) groups.now }
{
    let upto = groups.partition_point(|group| group.revision.get() <= revision.get());
    if upto == 0 {
        return None;
    }
    let group = &groups[upto - 1];
    if group.revision.get() != revision.get() {
        return None;
    }
    Some(group)
}

impl Context {
    /// The line of an event. Those of checkpoints are behind all lines of a log.
    pub fn line_of(&self, event: u32) -> u64
        requires { event < length self.now.log }
        ensures { (e : model.Event) → IsEvent (history_of self.now) event e → result ≡ e.line }
    {
        self.log.events.as_slice()[event as usize].line
    }

    /// The audit ID of an event of the log, or the name of a checkpoint.
    pub fn name_of(&self, event: u32) -> &Text
        requires { event < length self.now.log }
        ensures { slice_get (names self.now.setup self.now.events) event ≡ Some result.now }
    {
        let events = self.events.as_slice();
        let number = event as usize;
        if number < events.len() {
            return &events[number].audit_id;
        }
        &self.setup.checkpoints.as_slice()[number - events.len()].name
    }

    /// The tree of the object in the answer of a write or a read, for item 0, and of an item of a list.
    pub fn shown(&self, event: u32, item: u32) -> Option<NodeId>
        requires { event < length self.now.log }
        ensures shown { (e : model.Event) → IsEvent (history_of self.now) event e
            → option_map (λ node. node.0) result ≡ slice_get (shown_trees e.answer) item }
        ensures within { IfSome result (λ node. node.0 < length self.now.trees) }
    {
        shown_in(&self.log.events.as_slice()[event as usize].answer, item)
    }

    /// The writes that were answered with a revision above the start, but for strays, in the order of judgement.
    pub fn group(&self, revision: Revision) -> &[u32]
        ensures { AreMembersAt (history_of self.now) revision result.now }
    {
        match group_at(self.groups.as_slice(), revision) {
            Some(group) => group.members.as_slice(),
            None => &[],
        }
    }

    /// The version of this key and revision.
    pub fn version(&self, key: &ObjectKey, revision: Revision) -> Option<&Version>
        ensures { option_map (λ v. v.now) result
            ≡ find (λ v. same_key v.key key.now && v.revision == revision) self.now.versions }
    {
        self.past.version(key, revision.get())
    }

    /// The key's latest version at or below a place.
    pub fn latest(&self, key: &ObjectKey, place: u64) -> Option<&Version>
        ensures latest { option_map (λ v. version_of v.now) result
            ≡ latest (history_of self.now).versions key.now place }
        ensures known { IfSome result (λ v. Contains self.now.versions v.now) }
    {
        self.past.latest(key, place)
    }

    /// The incarnations of a key's object, in order.
    pub fn incarnations(&self, key: &ObjectKey) -> &[Incarnation]
        ensures { AreIncarnations
            (record { versions = self.now.versions; removals = self.now.removals })
            key.now result.now }
    {
        self.past.incarnations(key)
    }

    /// Who wrote the version of this revision.
    pub fn maker(&self, revision: Revision) -> Option<Maker>
        ensures { result
            ≡ option_map (λ v. v.maker) (find (λ v. v.revision == revision) self.now.versions) }
    {
        self.past.maker(revision.get())
    }
}
