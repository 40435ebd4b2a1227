ghost use Rattle.std.specs.Prelude.{◌≡◌};

use crate::gates::{Meeting, Roll};
use crate::given::assert_so;
use base_types::{Bounds, Claim, OutOfMemory, Reason};
use judge_pool::{ClaimSource, FreeGate, Gate, claims_all};
use std::alloc::Global;
use std::marker::Sync;
use std::process::Abort;
use std::sync::atomic::{AtomicBool, Ordering};
use std::thread::Threads;

const EVENTS: u32 = 8_192;

/// Claims that ask nothing.
#[derive(Drop)]
struct Plain {
    count: u32,
}

impl ClaimSource for Plain {
    ghost use Rattle.std.specs.Prelude.{◌≡◌, [], None};
    ghost use Rattle.std.proofs.Common.{sym, ◌∙◌};
    ghost use Rattle.base_types.specs.declared.verdict.claim.Reason.TheVariants.{U10};

    ghost events = { λ s. s.count };

    ghost is_claim = { λ s event claim. claim ≡ record { fails = None; bounds = []; reason = U10 } };

    ghost one = { λ source event a b below x y. x ∙ sym y };

    fn count(&self) -> u32 {
        self.count
    }

    fn claim(&self, alloc: Global, _event: u32) -> Result<Claim, OutOfMemory> {
        Ok(Claim {
            fails: None,
            bounds: Bounds::new(alloc),
            reason: Reason::U10,
        })
    }
}

/// Claims that ask nothing, each of which looks whether its event has entered the gate.
#[derive(Drop)]
struct Watching<'a> {
    plain: Plain,
    roll: &'a Roll,
    is_early: AtomicBool,
}

impl<'a> Watching<'a> {
    fn of(roll: &'a Roll, count: u32) -> Watching<'a>
        ensures { result.plain.count ≡ count }
    {
        Watching {
            plain: Plain { count },
            roll,
            is_early: AtomicBool::new(false),
        }
    }

    /// Whether a claim was taken before its event entered.
    fn is_early(&self) -> bool {
        self.is_early.load(Ordering::SeqCst)
    }
}

impl<'a> ClaimSource for Watching<'a> {
    ghost use Rattle.std.specs.Prelude.{◌≡◌, [], None};
    ghost use Rattle.std.proofs.Common.{sym, ◌∙◌};
    ghost use Rattle.base_types.specs.declared.verdict.claim.Reason.TheVariants.{U10};

    ghost events = { λ s. s.plain.count };

    ghost is_claim = { λ s event claim. claim ≡ record { fails = None; bounds = []; reason = U10 } };

    ghost one = { λ source event a b below x y. x ∙ sym y };

    fn count(&self) -> u32 {
        self.plain.count()
    }

    fn claim(&self, alloc: Global, event: u32) -> Result<Claim, OutOfMemory> {
        if self.roll.times(event) == 0 {
            self.is_early.store(true, Ordering::SeqCst);
        }
        self.plain.claim(alloc, event)
    }
}

// How many claims of so many events come.
fn count_claims(
    rt: &(impl Abort + AllocGlobal + Threads + Sync),
    count: u32,
    gate: &impl Gate,
) -> usize {
    claims_all(rt, rt.alloc(), &Plain { count }, gate)
        .expect(rt, "memory")
        .len()
}

#[test]
fn two_events_are_judged_at_once(rt: HostRuntime) {
    let gate = Meeting::of(EVENTS);
    assert_so(&rt, count_claims(&rt, EVENTS, &gate) == 8_192, "all claims");
    assert_so(&rt, gate.has_met(), "at once");
}

fn check_roll(rt: &(impl Abort + AllocGlobal + Threads + Sync), count: u32) {
    let gate = Roll::of(rt, count);
    let found = count_claims(rt, count, &gate);
    assert_so(rt, found == count as usize, "all claims");
    assert_so(rt, gate.is_once_each(), "each once");
}

#[test]
fn each_event_enters_the_gate_once(rt: HostRuntime) {
    for count in [0, 1, EVENTS] {
        check_roll(&rt, count);
    }
}

#[test]
fn a_roll_counts_entries(rt: HostRuntime) {
    let roll = Roll::of(&rt, 2);
    roll.enter(1);
    assert_so(&rt, !roll.is_once_each(), "one is missing");
    roll.enter(0);
    assert_so(&rt, roll.is_once_each(), "each once");
    roll.enter(1);
    assert_so(&rt, !roll.is_once_each(), "one came twice");
    assert_so(&rt, roll.times(0) == 1 && roll.times(1) == 2, "times");
    assert_so(&rt, roll.times(2) == 0, "no other");
}

#[test]
fn a_meeting_is_of_two(rt: HostRuntime) {
    let alone = Meeting::of(1);
    assert_so(&rt, !alone.has_met(), "nobody came");
    let meeting = Meeting::of(2);
    meeting.enter(1);
    assert_so(&rt, !meeting.has_met(), "the last one alone");
    meeting.enter(0);
    assert_so(&rt, meeting.has_met(), "both");
}

// Counts the claims that are taken from a source that watches a gate.
fn count_watched(
    rt: &(impl Abort + AllocGlobal + Threads + Sync),
    watching: &Watching<'_>,
    gate: &Roll,
) -> usize {
    claims_all(rt, rt.alloc(), watching, gate)
        .expect(rt, "memory")
        .len()
}

#[test]
fn each_claim_is_taken_behind_its_entry(rt: HostRuntime) {
    let gate = Roll::of(&rt, EVENTS);
    let watching = Watching::of(&gate, EVENTS);
    let found = count_watched(&rt, &watching, &gate);
    assert_so(&rt, found == 8_192, "all claims");
    assert_so(&rt, !watching.is_early(), "behind its entry");
    drop(watching);
    // Outside a gate each claim is early.
    let watching = Watching::of(&gate, EVENTS + 1);
    drop(watching.claim(rt.alloc(), EVENTS));
    assert_so(&rt, watching.is_early(), "early");
    drop(watching);
}

#[test]
fn all_claims_come(rt: HostRuntime) {
    for count in [0, 1, 5_000] {
        let found = count_claims(&rt, count, &FreeGate);
        assert_so(&rt, found == count as usize, "all claims");
    }
}
