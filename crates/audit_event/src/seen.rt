ghost use Rattle.std.specs.Prelude.{◌≡◌, ◌<◌, ◌-◌, ◌^◌, ◌↔◌, [], ◌++◌, ◌∷◌, IfOk, IsTrue, All};
ghost use Rattle.std.specs.Prelude.{length, map, vec_len, vec_capacity};
ghost use Rattle.audit_event.specs.Keeping.{identity_of, SameOrigin, SamePath, SameObject};
ghost use Rattle.audit_event.specs.Keeping.{SameRequest, SameAnswer, SameButLine};
ghost use Rattle.audit_event.specs.Keeping.{Judges, KeepsFirst, AreKept};

use crate::event::{Body, Event, Events};
use crate::fault::SeenFault;
use base_types::{OutOfMemory, Pairs, RequestAttrs, Stage, Text, Texts, User};
use hash_seed::{Seed, Seeded};
use indexmap::IndexSet;
use packed_tree::Packed;
use std::alloc::Global;
use std::marker::Model;

/// What became of an event.
#[derive(Clone, Copy, Debug, PartialEq, Eq)]
pub enum Sighting {
    /// It is the first of its audit ID and stage, and is kept.
    Fresh,
    /// It repeats the one that was kept, and is dropped.
    Repeat,
}

/// One stage of one request.
#[derive(Drop, PartialEq, Eq, Hash)]
pub(crate) struct Identity {
    audit_id: Text,
    stage: Stage,
}

/// The events of a log that are kept. Contracts see them as a list, in the order of their lines.
#[derive(Drop)]
pub struct Seen {
    kept: Vec<Event>,
    identities: IndexSet<Identity, Seeded>,
}

impl Model for Seen {
    ghost use Rattle.std.specs.Prelude.{◌≡◌, List, map};
    ghost use Rattle.audit_event.specs.Keeping.{identity_of, AreKept};
    ghost use Rattle.std.specs.Coded.{coded_list};
    ghost use Rattle.audit_event.specs.declared.event.Event.{Event as Kept};
    ghost use Rattle.audit_event.specs.contracts.event.Event as event;

    ghost Value = { List Kept };

    ghost coded = { coded_list event.the_row.coded };

    ghost view = { λ s. s.kept.items };

    ghost invariant = { λ s. AreKept s.kept.items
        × (s.identities.keys ≡ map identity_of s.kept.items) };
}

fn has_same_origin(a: &Event, b: &Event) -> bool
    ensures { IsTrue result ↔ SameOrigin a.now b.now }
{
    a.audit_id == b.audit_id
        && a.stage == b.stage
        && a.level == b.level
        && a.received == b.received
        && a.staged == b.staged
}

fn is_same_texts(a: &Texts, b: &Texts) -> bool
    ensures { IsTrue result ↔ (a.now ≡ b.now) }
{
    a == b
}

fn is_same_user(a: &User, b: &User) -> bool
    ensures { IsTrue result ↔ (a.now ≡ b.now) }
{
    a.name == b.name && is_same_texts(&a.groups, &b.groups)
}

fn is_same_impersonated(a: &Option<User>, b: &Option<User>) -> bool
    ensures { IsTrue result ↔ (a.now ≡ b.now) }
{
    match (a, b) {
        (None, None) => true,
        (Some(x), Some(y)) => is_same_user(x, y),
        _ => false,
    }
}

fn is_same_query(a: &Pairs, b: &Pairs) -> bool
    ensures { IsTrue result ↔ (a.now ≡ b.now) }
{
    a == b
}

fn has_same_path(a: &RequestAttrs, b: &RequestAttrs) -> bool
    ensures { IsTrue result ↔ SamePath a.now b.now }
{
    a.verb == b.verb
        && a.path == b.path
        && a.is_resource == b.is_resource
        && a.group == b.group
        && a.version == b.version
}

fn has_same_object(a: &RequestAttrs, b: &RequestAttrs) -> bool
    ensures { IsTrue result ↔ SameObject a.now b.now }
{
    a.resource == b.resource
        && a.subresource == b.subresource
        && a.namespace == b.namespace
        && a.name == b.name
        && is_same_query(&a.query, &b.query)
}

fn is_same_value(a: &Packed, b: &Packed) -> bool
    ensures { IsTrue result ↔ (a.now ≡ b.now) }
{
    a == b
}

fn is_same_body(a: &Body, b: &Body) -> bool
    ensures { IsTrue result ↔ (a.now ≡ b.now) }
{
    match (a, b) {
        (Body::Absent, Body::Absent) | (Body::Unread, Body::Unread) => true,
        (Body::Kept(x), Body::Kept(y)) => is_same_value(x, y),
        _ => false,
    }
}

fn has_same_request(a: &Event, b: &Event) -> bool
    ensures { IsTrue result ↔ SameRequest a.now b.now }
{
    has_same_path(&a.attrs, &b.attrs)
        && has_same_object(&a.attrs, &b.attrs)
        && is_same_user(&a.user, &b.user)
        && is_same_impersonated(&a.impersonated, &b.impersonated)
        && is_same_body(&a.request, &b.request)
}

fn has_same_answer(a: &Event, b: &Event) -> bool
    ensures { IsTrue result ↔ SameAnswer a.now b.now }
{
    a.status == b.status && is_same_body(&a.response, &b.response) && a.decision == b.decision
}

// Whether two events are equal in all fields but the line.
fn repeats(a: &Event, b: &Event) -> bool
    ensures { IsTrue result ↔ SameButLine a.now b.now }
{
    has_same_origin(a, b) && has_same_request(a, b) && has_same_answer(a, b)
}

// What is answered to an event, of the one that was kept of its request and stage.
fn judge(kept: &Event, event: &Event) -> Result<Sighting, SeenFault>
    ensures { Judges kept.now event.now result }
{
    if repeats(kept, event) {
        Ok(Sighting::Repeat)
    } else {
        Err(SeenFault::Differs { line: kept.line })
    }
}

// Puts an event behind the kept ones, where there is room.
fn append(kept: &mut Vec<Event>, event: Event)
    requires { vec_len kept.old < vec_capacity kept.old }
    ensures { kept.new.items ≡ kept.old.items ++ event ∷ [] }
{
    match kept.push(event) {
        Ok(()) => {}
        Err(_) => unreachable!(),
    }
}

// Keeps an event, or drops or refuses it. The identities stand beside the events that they are of.
fn keep(
    identities: &mut IndexSet<Identity, Seeded>,
    kept: &mut Vec<Event>,
    event: Event,
) -> Result<Sighting, SeenFault>
    requires { identities.old.keys ≡ map identity_of kept.old.items }
    ensures identities { identities.new.keys ≡ map identity_of kept.new.items }
    ensures keeps { KeepsFirst kept.old.items event result kept.new.items }
{
    let audit_id = event.audit_id.clone()?;
    let identity = Identity {
        audit_id,
        stage: event.stage,
    };
    kept.reserve(1)?;
    let (at, is_fresh) = identities.insert_full(identity)?;
    if is_fresh {
        append(kept, event);
        return Ok(Sighting::Fresh);
    }
    judge(&kept[at], &event)
}

impl Seen {
    /// No kept events yet. The hashes of audit IDs begin with the seed.
    pub fn new(alloc: Global, seed: Seed) -> Result<Seen, OutOfMemory>
        ensures { IfOk result (λ seen. seen ≡ []) }
    {
        Ok(Seen {
            kept: Vec::new(alloc),
            identities: IndexSet::with_hasher(alloc, Seeded::new(seed)),
        })
    }

    /// Keeps an event, or drops it where it repeats a kept one; refuses it where it differs from the
    /// kept one of its audit ID and stage. After a refusal the kept events are as before.
    pub fn keep(&mut self, event: Event) -> Result<Sighting, SeenFault>
        requires later { All (λ other. other.line < event.line) self.old }
        requires room { length self.old < 2 ^ 32 - 1 }
        ensures { KeepsFirst self.old event result self.new }
    {
        keep(&mut self.identities, &mut self.kept, event)
    }

    /// How many events are kept.
    pub fn count(&self) -> u32
        ensures { result ≡ length self.now }
    {
        self.kept.len() as u32
    }

    /// The kept events, by line.
    pub fn finish(self) -> Events
        ensures events { result ≡ self }
        ensures kept { AreKept result }
    {
        let Seen {
            kept,
            identities: _,
        } = self;
        Events::from_vec(kept)
    }
}
