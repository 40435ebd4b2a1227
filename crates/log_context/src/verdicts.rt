ghost use Rattle.std.specs.Prelude.{◌≡◌, ℕ, Bool, Option, All, IfOk, IfSome, option_map};
ghost use Rattle.log_context.specs.Verdicts.{IsVerdict};

use base_types::{ObjectKey, OutOfMemory};
use hash_seed::{Seed, Seeded};
use node_number::NodeId;
use past_building::Bodies;
use rayon::prelude::*;
use std::alloc::Global;
use std::collections::HashMap;
use std::marker::Sync;
use std::thread::Threads;
use write_groups::{Item, LogEvent, Shown};

/// How many cases are worth a thread of their own.
const CASES_FOR_A_THREAD: usize = 64;

/// A write, and the object that may have been there before it.
#[derive(Clone, Copy)]
pub struct Case {
    event: u32,
    before: Option<NodeId>,
}

/// Whether a write was answered with what its body asked of this object, or of none.
#[derive(Clone, Copy)]
pub struct Verdict {
    pub event: u32,
    pub before: Option<NodeId>,
    pub is_right: bool,
}

// The tree that each key had last. The hashes begin with a seed, since whoever creates objects chooses their names.
type Latest<'a> = HashMap<&'a ObjectKey, NodeId, Seeded>;

// A create finds no object. Another write made its answer of the one that its key had last, where there was one.
fn add_case<'a>(
    cases: &mut Vec<Case>,
    latest: &mut Latest<'a>,
    event: u32,
    answer: &'a Shown,
) -> Result<(), OutOfMemory> {
    let Shown::Made { item, created } = answer else {
        return Ok(());
    };
    let before = latest.insert(&item.key, item.node)?;
    if *created {
        cases.push(Case {
            event,
            before: None,
        })?;
        return Ok(());
    }
    if before.is_some() {
        cases.push(Case { event, before })?;
    }
    Ok(())
}

/// The writes of a log, each with what may have been there before it, by rising numbers and each at most once. Where
/// something else was there nothing is lost but time, so no contract speaks of them. The hashes of keys begin with the
/// seed.
pub fn cases_of(
    alloc: Global,
    snapshot: &[Item],
    log: &[LogEvent],
    seed: Seed,
) -> Result<Vec<Case>, OutOfMemory> {
    let mut latest: Latest<'_> = HashMap::with_hasher(alloc, Seeded::new(seed));
    for item in snapshot {
        let _none = latest.insert(&item.key, item.node)?;
    }
    let mut cases = Vec::new(alloc);
    for (event, logged) in (0..u32::MAX).zip(log) {
        add_case(&mut cases, &mut latest, event, &logged.answer)?;
    }
    Ok(cases)
}

fn verdict_of<B: Bodies>(alloc: Global, bodies: &B, case: Case) -> Result<Verdict, OutOfMemory>
    ensures { IfOk result (IsVerdict (B.body bodies.now)) }
{
    let Case { event, before } = case;
    let is_right = bodies.is_right(alloc, event, before)?;
    Ok(Verdict {
        event,
        before,
        is_right,
    })
}

/// The verdicts of these cases, in their order. Several threads find them.
pub fn verdicts_of<R: Threads + Sync, B: Bodies + Sync>(
    rt: &R,
    alloc: Global,
    bodies: &B,
    cases: &[Case],
) -> Result<Vec<Verdict>, OutOfMemory>
    ensures { IfOk result (λ verdicts. All (IsVerdict (B.body bodies.now)) verdicts.items) }
{
    let gathered: Result<Vec<Verdict>, OutOfMemory> = cases
        .par_iter()
        .with_min_len(CASES_FOR_A_THREAD)
        .map(
            |case: &Case| -> Result<Verdict, OutOfMemory>
                ensures { IfOk result (IsVerdict (B.body bodies.entry.now)) }
            { verdict_of(alloc, bodies, *case) },
        )
        .collect(rt, alloc)?;
    gathered
}

fn right_at(
    verdicts: &[Verdict],
    position: usize,
    event: u32,
    before: Option<NodeId>,
) -> Option<bool>
    ensures { (body : ℕ → Option ℕ → Bool) → All (IsVerdict body) verdicts.now → IfSome result
        (λ right. right ≡ body event (option_map (λ node. node.0) before)) }
{
    let verdict = verdicts.get(position)?;
    if verdict.event == event && verdict.before == before {
        Some(verdict.is_right)
    } else {
        None
    }
}

/// The verdict of a case, where it is the first of its event.
pub fn right_among(verdicts: &[Verdict], event: u32, before: Option<NodeId>) -> Option<bool>
    ensures { (body : ℕ → Option ℕ → Bool) → All (IsVerdict body) verdicts.now → IfSome result
        (λ right. right ≡ body event (option_map (λ node. node.0) before)) }
{
    let first = verdicts.partition_point(|verdict| verdict.event < event);
    right_at(verdicts, first, event, before)
}
