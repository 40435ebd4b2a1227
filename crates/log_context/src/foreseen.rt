ghost use Rattle.std.specs.Prelude.{◌≡◌, ◌<◌, ◌^◌, length, All, AllPairs, IfOk};
ghost use Rattle.history_model.specs.Histories.{History};
ghost use Rattle.past_building.specs.Few.{AreFew};
ghost use Rattle.past_building.specs.Found.{HasFound, IsPastOf};
ghost use Rattle.past_building.specs.Written.{IsSnapshot};
ghost use Rattle.log_context.specs.Verdicts.{IsVerdict};

use crate::verdicts::{Verdict, cases_of, right_among, verdicts_of};
use base_types::{OutOfMemory, Revision};
use hash_seed::Seed;
use node_number::NodeId;
use past_building::{Bodies, LogPast, Timed, past_behind, timed_of};
use std::alloc::Global;
use std::marker::Sync;
use std::thread::{Threads, join};
use write_groups::{Item, LogEvent};

/// Bodies, of which most are judged already.
#[derive(Drop)]
pub struct Foreseen<'a, B: Bodies> {
    bodies: &'a B,
    verdicts: &'a [Verdict],
    ghost right: { All (IsVerdict (B.body bodies.now)) verdicts.now },
}

impl<'a, B: Bodies> Bodies for Foreseen<'a, B> {
    ghost body = { λ f. B.body f.bodies.now };

    fn is_right(
        &self,
        alloc: Global,
        event: u32,
        before: Option<NodeId>,
    ) -> Result<bool, OutOfMemory> {
        match right_among(self.verdicts, event, before) {
            Some(right) => Ok(right),
            None => self.bodies.is_right(alloc, event, before),
        }
    }
}

// The verdicts of the writes' bodies by what seems to have been there before each.
fn find_verdicts<R: Threads + Sync, B: Bodies + Sync>(
    rt: &R,
    alloc: Global,
    bodies: &B,
    snapshot: &[Item],
    events: &[LogEvent],
    seed: Seed,
) -> Result<Vec<Verdict>, OutOfMemory>
    ensures { IfOk result (λ verdicts. All (IsVerdict (B.body bodies.now)) verdicts.items) }
{
    let cases = cases_of(alloc, snapshot, events, seed)?;
    verdicts_of(rt, alloc, bodies, &cases)
}

/// The past that a log shows, its lines rising, behind a snapshot of the start. Several threads judge the bodies of
/// writes by what seems to have been there before each; those few where something else was there are judged once more.
/// Beside them one thread finds the windows and the clouds, which ask for no body. The hashes of what is looked up begin
/// with the seed.
pub fn past_foreseen<R: Threads + Sync, B: Bodies + Sync>(
    rt: &R,
    alloc: Global,
    bodies: &B,
    start: Revision,
    snapshot: &[Item],
    events: &[LogEvent],
    seed: Seed,
) -> Result<LogPast, OutOfMemory>
    requires few { length events.now < 2 ^ 32 }
    requires lines { AllPairs (λ a b. a.line < b.line) events.now }
    requires snapshot { IsSnapshot start snapshot.now }
    ensures start { IfOk result (λ past. past.windows.start ≡ start) }
    ensures past { IfOk result (λ past. (h : History) → HasFound start snapshot.now events.now
        (B.body bodies.now) past h → IsPastOf events.now past h) }
    ensures few_found { IfOk result (AreFew snapshot.now events.now) }
{
    // By reference, since the borrow checker doesn't cover a closure that owns a revision.
    let begin = &start;
    let find_times = move || -> Result<Timed, OutOfMemory>
        requires few { length events.now < 2 ^ 32 }
        requires lines { AllPairs (λ a b. a.line < b.line) events.now }
    { timed_of(alloc, *begin, snapshot, events) };
    let judge_bodies = move || -> Result<Vec<Verdict>, OutOfMemory> {
        find_verdicts(rt, alloc, bodies, snapshot, events, seed)
    };
    let (timed, verdicts) = join(rt, find_times, judge_bodies);
    let timed = timed?;
    let verdicts = verdicts?;
    let foreseen = Foreseen {
        bodies,
        verdicts: &verdicts,
    };
    past_behind(alloc, &foreseen, start, snapshot, events, timed, seed)
}
