ghost use Rattle.std.specs.Prelude.{◌≡◌, ◌<◌, ◌^◌, ◌≤ℤ◌, ℕ, neg_ℤ, pos, length, map, All, IfOk};
ghost use Rattle.history_model.specs.Events as model;
ghost use Rattle.history_model.specs.Histories.{History, IsEvent};
ghost use Rattle.history_model.specs.Readable.{IsReadable};
ghost use Rattle.history_model.specs.Windows.{low_end, high_end};
ghost use Rattle.object_past.specs.Faulted.{AreFaults, IsFaultOf};
ghost use Rattle.past_building.specs.Modelled.{AreCloudsOf};

use crate::keys::keys_of;
use crate::log::Log;
use audit_event::{Event, Events};
use base_types::{ObjectKey, OutOfMemory, Range, Reason, Shared};
use clouds::Clouds;
use node_pool::Pool;
use object_past::{Past, Version};
use rbac_timeline::Timeline;
use setup_file::Setup;
use std::alloc::Global;
use std::marker::Model;
use time_windows::Windows;
use write_groups::{Groups, LogEvent, Window, window_of};

/// What a setup and a log say together. It doesn't change, and threads may share it. Contracts see what it was built
/// of and what was found, as `history_of` makes of it the history that the laws are about.
pub struct Context {
    pub(crate) setup: Setup,
    pub(crate) events: Events,
    pub(crate) pool: Pool,
    pub(crate) log: Log,
    pub(crate) order: Vec<u32>,
    pub(crate) groups: Groups,
    pub(crate) windows: Windows,
    pub(crate) clouds: Clouds,
    pub(crate) past: Past,
    pub(crate) timeline: Timeline,
    pub(crate) faults: Vec<Option<Reason>>,
}

// Written out, so that a function that lets a context go has one call and not the steps of each field; so are those
// fields that have many of their own.
impl Drop for Context {
    fn drop(self) {
        let Context {
            setup,
            events: _,
            pool,
            log,
            order: _,
            groups: _,
            windows,
            clouds,
            past,
            timeline,
            faults: _,
        } = self;
        drop(setup);
        drop(pool);
        drop(log);
        drop(windows);
        drop(clouds);
        drop(past);
        drop(timeline);
    }
}

impl Shared for Context {}

impl Model for Context {
    ghost use Rattle.audit_event.specs.contracts.event.Event as event_row;
    ghost use Rattle.base_types.specs.Code.{coded_meaning};
    ghost use Rattle.setup_file.specs.contracts.setup.Setup as setup_row;
    ghost use Rattle.std.specs.Coded.{codes};
    ghost use Rattle.log_context.specs.Known.{Known};

    ghost Value = { Known };

    ghost coded = { Prim.hlevel
        (codes, setup_row.the_row.coded, event_row.the_row.coded, coded_meaning) };

    ghost use Rattle.log_context.specs.Contexts.{IsContext};

    ghost view = { λ c. record {
      setup = c.setup;
      events = c.events;
      trees = c.pool.trees;
      snapshot = c.log.snapshot;
      log = c.log.events;
      order = c.order.items;
      groups = c.groups;
      spans = c.windows.spans;
      versions = c.past.versions;
      removals = c.past.removals;
      rbac = c.timeline;
    } };

    ghost invariant = { λ c. IsContext (record {
      setup = c.setup;
      events = c.events;
      trees = c.pool.trees;
      snapshot = c.log.snapshot;
      log = c.log.events;
      order = c.order.items;
      groups = c.groups;
      spans = c.windows.spans;
      versions = c.past.versions;
      removals = c.past.removals;
      rbac = c.timeline;
    }) c.log c.windows c.clouds c.faults.items };
}

// What is told of the event of this number.
fn fault_at(faults: &[Option<Reason>], number: u32) -> Option<Reason>
    ensures { (h : History) (e : model.Event) → AreFaults h faults.now → IsEvent h number e
        → IsFaultOf h number e result }
{
    match faults.get(number as usize) {
        Some(fault) => *fault,
        None => None,
    }
}

impl Context {
    ghost use Rattle.audit_event.specs.Events.{IsSound as IsSoundEvent};
    ghost use Rattle.base_types.specs.Values.{InRange};
    ghost use Rattle.past_building.specs.Hidden.{unrecorded_in};
    ghost use Rattle.setup_file.specs.Sound.{IsSound};
    ghost use Rattle.log_context.specs.Histories.{history_of};
    ghost use Rattle.log_context.specs.Keyed.{AreKeys};
    ghost use Rattle.log_context.specs.Log.{AreLines};
    ghost use Rattle.log_context.specs.LogTrees.{pooled};
    ghost use Rattle.log_context.specs.Logged.{AreLogged};
    ghost use Rattle.log_context.specs.Roles.{AreRoles, role_ends};

    pub fn setup(&self) -> &Setup
        ensures setup { result.now ≡ self.now.setup }
        ensures sound { IsSound self.now.setup }
    {
        &self.setup
    }

    /// The events of the log by line.
    pub fn events(&self) -> &[Event]
        ensures events { result.now ≡ self.now.events }
        ensures sound { All IsSoundEvent self.now.events }
        ensures lines { AreLines self.now.events }
    {
        self.events.as_slice()
    }

    /// How many events and checkpoints there are. The numbers of the checkpoints are behind those of the log's events.
    pub fn count(&self) -> u32
        ensures { result ≡ length self.now.log }
    {
        self.log.events.len() as u32
    }

    /// The events and checkpoints, with the classes of their answers, as the model of history has them.
    pub fn log(&self) -> &[LogEvent]
        ensures log { result.now ≡ self.now.log }
        ensures few { length self.now.log < 2 ^ 32 }
        ensures logged { AreLogged self.now.setup self.now.trees self.now.events self.now.log }
        ensures readable { IsReadable (history_of self.now) }
        ensures moments { (number : ℕ) (e : model.Event) → IsEvent (history_of self.now) number e
            → neg_ℤ (pos (2 ^ 101)) ≤ℤ e.lo }
    {
        self.log.events.as_slice()
    }

    /// The numbers of all events in the order of judgement.
    pub fn order(&self) -> &[u32]
        ensures order { result.now ≡ self.now.order }
        ensures readable { IsReadable (history_of self.now) }
    {
        self.order.as_slice()
    }

    /// The places at which an event's answer may be right.
    pub fn window(&self, event: u32) -> Window
        requires { event < length self.now.log }
        ensures low { (e : model.Event) → IsEvent (history_of self.now) event e
            → result.low ≡ low_end (history_of self.now) e }
        ensures high { (e : model.Event) → IsEvent (history_of self.now) event e
            → result.high ≡ high_end (history_of self.now) e }
    {
        let logged = self.log.events.as_slice();
        window_of(&self.windows, self.setup.start, &logged[event as usize])
    }

    /// The past of all objects: their versions, incarnations and removals.
    pub fn past(&self) -> &Past
        ensures versions { result.now.versions ≡ self.now.versions }
        ensures removals { result.now.removals ≡ self.now.removals }
    {
        &self.past
    }

    /// The versions by revision. The tree of each is one of the pool.
    pub fn versions(&self) -> &[Version]
        ensures versions { result.now ≡ self.now.versions }
        ensures nodes { All (λ v. v.node.0 < length self.now.trees) self.now.versions }
    {
        self.past.versions()
    }

    /// The places that removals may have, by the numbers of their events.
    pub fn ranges(&self) -> &[Range]
        ensures { result.now ≡ map (λ removal. removal.range) self.now.removals }
    {
        self.past.ranges()
    }

    pub fn windows(&self) -> &Windows
        ensures start { result.now.start ≡ self.now.setup.start }
        ensures spans { result.now.spans ≡ self.now.spans }
    {
        &self.windows
    }

    pub fn clouds(&self) -> &Clouds
        ensures { AreCloudsOf result.now (history_of self.now) }
    {
        &self.clouds
    }

    /// The roles and bindings among the versions, as authorizers may have known them.
    pub fn timeline(&self) -> &Timeline
        ensures timeline { result.now ≡ self.now.rbac }
        ensures roles { AreRoles self.now.trees self.now.versions self.now.rbac.versions }
        ensures ends { self.now.rbac.ends ≡ role_ends self.now.removals }
        ensures spans { self.now.rbac.spans ≡ unrecorded_in (history_of self.now) self.now.log }
        ensures bypass { self.now.rbac.bypass ≡ self.now.setup.bypass }
    {
        &self.timeline
    }

    /// The trees of the snapshot and of the answers, each once.
    pub fn pool(&self) -> &Pool
        ensures trees { result.now.trees ≡ self.now.trees }
        ensures pooled { self.now.trees ≡ pooled self.now.setup self.now.events }
        ensures numbers { All InRange self.now.trees }
    {
        &self.pool
    }

    /// The keys that have a version or that an unrecorded write names exactly, in order. They are gathered at each
    /// call.
    pub fn keys(&self, alloc: Global) -> Result<Vec<ObjectKey>, OutOfMemory>
        ensures { IfOk result (λ keys. AreKeys self.now.versions self.now.log keys.items) }
    {
        keys_of(alloc, &self.past, self.log.events.as_slice())
    }

    /// Why the write of this number could not have made its revision, where it is the maker, or could not have found
    /// it; `U3` for a write of another key than its revision's; None for every other event.
    pub fn fault(&self, event: u32) -> Option<Reason>
        requires { event < length self.now.log }
        ensures { (e : model.Event) → IsEvent (history_of self.now) event e
            → IsFaultOf (history_of self.now) event e result }
    {
        fault_at(self.faults.as_slice(), event)
    }
}
