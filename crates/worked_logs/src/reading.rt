//! Setups, events and contexts of texts. A test is a process of its own: what is large isn't let go, as the proofs of
//! all its parts' drops would be made once more for the tests.
ghost use Rattle.std.specs.Prelude.{◌≡◌, ◌<◌, ◌≤◌, ◌++◌, ◌∷◌, [], length, All};
ghost use Rattle.audit_event.specs.Events.{IsSound};
ghost use Rattle.setup_file.specs.Sound.{IsSound as IsSoundSetup};
ghost use Rattle.log_context.specs.Log.{AreLines};

use audit_event::{Event, Events, read_item};
use borrowed_json::{JsonValue, Scratch};
use hash_seed::Seed;
use log_context::{BuildFault, Context};
use setup_file::{Setup, read_setup};
use std::marker::Sync;
use std::mem::ManuallyDrop;
use std::process::Abort;
use std::thread::Threads;

// A setup of these tests has no more bytes.
const LONGEST_SETUP: usize = 1_000_000;

/// Stops the test where what was found isn't so.
pub(crate) fn check(rt: &impl Abort, holds: bool, what: &str) {
    assert!(rt; holds, "{what}");
}

pub(crate) fn assert_text(rt: &impl Abort, found: &str, wanted: &str, name: &str) {
    assert_eq!(rt; found, wanted, "{name}");
}

// The setup of a text, with at most 100 objects and 100 checkpoints.
pub(crate) fn setup_of(rt: &(impl Abort + AllocGlobal), text: &str, seed: Seed) -> Setup
    ensures sound { IsSoundSetup result }
    ensures objects { length result.snapshot ≤ 100 }
    ensures checkpoints { length result.checkpoints ≤ 100 }
{
    if text.len() > LONGEST_SETUP {
        panic!(rt; "too long a setup");
    }
    let setup = read_setup(rt.alloc(), text.as_bytes(), seed).expect(rt, "a setup");
    if setup.snapshot.len() > 100 {
        panic!(rt; "too many objects");
    }
    if setup.checkpoints.len() > 100 {
        panic!(rt; "too many checkpoints");
    }
    setup
}

// The event of a text.
pub(crate) fn event_of(rt: &(impl Abort + AllocGlobal), text: &str, line: u64) -> Event
    ensures sound { IsSound result }
    ensures line { result.line ≡ line }
{
    let mut scratch = Scratch::new(rt.alloc());
    let value = JsonValue::read(rt.alloc(), text.as_bytes(), &mut scratch).expect(rt, "JSON");
    let value = ManuallyDrop::new(value);
    read_item(rt.alloc(), &value, line).expect(rt, "an event")
}

// The event that a line tells of: the seconds of its receipt and of its answer, and further members.
fn event(rt: &(impl Abort + AllocGlobal), told: &str, line: u64) -> Event
    ensures sound { IsSound result }
    ensures line { result.line ≡ line }
{
    let (from, told) = told.split_once(' ').expect(rt, "a receipt");
    let (to, members) = told.split_once(' ').expect(rt, "an answer");
    let text = format!(in rt.alloc();
        r#"{{"level":"RequestResponse","auditID":"a{line}","stage":"ResponseComplete","user":{{"username":"u"}},{members},
        "requestReceivedTimestamp":"2024-05-01T10:00:{from}Z","stageTimestamp":"2024-05-01T10:00:{to}Z"}}"#
    )
    .expect(rt, "memory");
    event_of(rt, text.as_str(), line)
}

// Puts one more behind the others.
pub(crate) fn push(rt: &impl Abort, events: &mut Events, event: Event)
    ensures { events.new ≡ events.old ++ event ∷ [] }
{
    events.push(event).expect(rt, "memory");
}

// The events of a log of at most 100 lines.
fn events(rt: &(impl Abort + AllocGlobal), log: &str) -> Events
    ensures sound { All IsSound result }
    ensures lines { AreLines result }
    ensures few { length result ≤ 100 }
{
    let mut events = Events::new(rt.alloc());
    for told in log.trim().lines() {
        if events.len() >= 100 {
            panic!(rt; "too many events");
        }
        let line = events.len() as u64 + 1;
        let event = event(rt, told, line);
        push(rt, &mut events, event);
    }
    events
}

// The context of a setup and a log, or none where the pool is too small.
pub(crate) fn context<R: Abort + AllocGlobal + Sync + Threads>(
    rt: &R,
    setup: &str,
    log: &str,
    limit: u32,
) -> Option<ManuallyDrop<Context>> {
    let seed = Seed::of(setup.as_bytes());
    let setup = setup_of(rt, setup, seed);
    let events = events(rt, log);
    match Context::build_within(rt, rt.alloc(), setup, events, limit, seed) {
        Ok(context) => Some(ManuallyDrop::new(context)),
        Err(BuildFault::PoolFull) => None,
        Err(BuildFault::OutOfMemory) => panic!(rt; "no memory"),
    }
}
