ghost use Rattle.std.specs.Prelude.{◌≡◌, ◌<◌, ℕ, List, IfOk};
ghost use Rattle.base_types.specs.declared.verdict.claim.Claim.{Claim};
ghost use Rattle.judge_pool.specs.Claims.{AreClaims};

use crate::gate::Gate;
use base_types::{Claim, Claims, OutOfMemory};
use rayon::prelude::*;
use std::alloc::Global;
use std::marker::Sync;
use std::thread::Threads;

/// What the claims of events are taken from.
pub trait ClaimSource: Sync {
    ghost events: { Self → ℕ };

    ghost is_claim: { Self → ℕ → Claim → Type 0 };

    /// How many events there are.
    fn count(&self) -> u32
        ensures { result ≡ events self.now };

    /// What an event asks of the removals' places.
    fn claim(&self, alloc: Global, event: u32) -> Result<Claim, OutOfMemory>
        requires { event < events self.now }
        ensures { IfOk result (is_claim self.now event) };

    // An event has one claim.
    ghost one: { (source : Self) (event : ℕ) (a b : Claim) → event < events source → is_claim source event a
        → is_claim source event b → a ≡ b };
}

/// How many events are worth a thread of their own.
pub const EVENTS_FOR_A_THREAD: usize = 64;

/// The claims of all events, in order. Several threads take them; each event enters the gate before its
/// claim is taken.
pub fn claims_all<R: Threads + Sync, S: ClaimSource, G: Gate>(
    rt: &R,
    alloc: Global,
    source: &S,
    gate: &G,
) -> Result<Claims, OutOfMemory>
    ensures claims { IfOk result (AreClaims (S.events source.now) (S.is_claim source.now)) }
    ensures entered { IfOk result
        (λ _. (event : ℕ) → event < S.events source.now → G.is_entered gate.now event) }
{
    let gathered: Result<Vec<Claim>, OutOfMemory> = (0..source.count())
        .into_par_iter()
        .with_min_len(EVENTS_FOR_A_THREAD)
        .map(
            |event: u32| -> Result<Claim, OutOfMemory>
                requires { event < S.events source.now }
                ensures { IfOk result (λ claim. S.is_claim source.entry.now event claim
                    × G.is_entered gate.entry.now event) }
            {
                gate.enter(event);
                claim_behind(source, alloc, gate, event)
            },
        )
        .collect(rt, alloc)?;
    Ok(Claims::from_vec(gathered?))
}

// The claim of an event that has entered.
fn claim_behind<S: ClaimSource, G: Gate>(
    source: &S,
    alloc: Global,
    _gate: &G,
    event: u32,
) -> Result<Claim, OutOfMemory>
    requires event { event < S.events source.now }
    requires entered { G.is_entered _gate.now event }
    ensures { IfOk result (S.is_claim source.now event) }
{
    source.claim(alloc, event)
}

/// The claims are those of one thread, whatever the threads and the gate do: there is one list of them.
pub fn one_list_law<S: ClaimSource>()
    ensures { (source : S) (a b : List Claim) → AreClaims (S.events source) (S.is_claim source) a
        → AreClaims (S.events source) (S.is_claim source) b → a ≡ b }
{}
