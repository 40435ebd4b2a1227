ghost use Rattle.std.specs.Prelude.{◌≡◌, ◌≢◌, ◌≤◌, ℕ, List, Option, Some, IfOk, IsErrOf, length};
ghost use Rattle.context_intake.specs.Contexts.{IsOfContext};
ghost use Rattle.context_intake.specs.Taking.{IsReadFor};
ghost use Rattle.edge_io.specs.Faults.{Rose};
ghost use Rattle.edge_io.specs.Whole.{TakesWhole};
ghost use Rattle.log_verdict.specs.Taking.{IsReadToVerify, IsTextRead, ReadsSetupLogAndPlacement};
ghost use Rattle.log_verdict.specs.Verifying.{IsOfText, IsVerified, IsVerifiedBy, IsVerifiedFrom};
ghost use Rattle.log_verdict.specs.Verifying.{most_placement};

use crate::verified::Verified;
use base_types::OutOfMemory;
use context_intake::{Intake, Stop, read_context};
use edge_io::{Desk, WholeStop, piece_buffer, read_whole};
use judge_pool::Gate;
use log_context::Context;
use serial_machine::verify as check_again;
use std::alloc::Global;
use std::marker::Sync;
use std::mem::ManuallyDrop;
use std::thread::Threads;
use verdict_text::{PlacementFault, read_placement};

/// The text of a placement may have so many bytes.
const MOST_PLACEMENT: usize = 1_073_741_824;

/// Reads a setup, a log and then a placement from a desk, each by its name, and checks the placement again. The
/// placement isn't read where setup and log tell nothing. What they tell isn't freed: the program ends soon after.
pub fn verify<R: Threads + Sync, D: Desk, H: Gate>(
    rt: &R,
    alloc: Global,
    desk: &mut D,
    setup: &str,
    log: &str,
    placement: &str,
    lines: &H,
) -> Result<Verified, Stop>
    requires differ { setup.now ≢ log.now }
    requires not_setup { placement.now ≢ setup.now }
    requires not_log { placement.now ≢ log.now }
    ensures verified { IfOk result (λ verified. (of_setup of_log of_placement : List ℕ)
        → D.left desk.old setup.now ≡ Some of_setup → D.left desk.old log.now ≡ Some of_log
        → D.left desk.old placement.now ≡ Some of_placement
        → IsVerified of_setup of_log of_placement verified) }
    ensures whole { IfOk result (λ verified. IsReadToVerify verified (D.left desk.new setup.now)
        (D.left desk.new log.now) (D.left desk.old placement.now)
        (D.left desk.new placement.now)) }
    ensures reads { ReadsSetupLogAndPlacement setup.now log.now placement.now (D.left desk.old)
        (D.left desk.new) (D.faults desk.old) (D.faults desk.new)
        (IsErrOf result Stop.ReadFault) }
{
    let found = read_context(rt, alloc, desk, setup, log, lines)?;
    let told = ManuallyDrop::new(found);
    verified_of(alloc, desk, placement, &told)
}

// What the placement comes to, of what the setup and the log tell.
fn verified_of<D: Desk>(
    alloc: Global,
    desk: &mut D,
    placement: &str,
    told: &Intake,
) -> Result<Verified, Stop>
    ensures verified { IfOk result (λ verified. (of_placement : List ℕ)
        → D.left desk.old placement.now ≡ Some of_placement
        → IsVerifiedFrom told.now of_placement verified) }
    ensures whole { IfOk result (λ verified. (setup log : Option (List ℕ))
        → IsReadFor told.now setup log → IsReadToVerify verified setup log
        (D.left desk.old placement.now) (D.left desk.new placement.now)) }
    ensures faults { (D.faults desk.old ≤ D.faults desk.new) × (IsErrOf result Stop.ReadFault
        → IsOfContext told.now × Rose (D.faults desk.old) (D.faults desk.new)) }
    ensures taken { TakesWhole most_placement (D.left desk.old placement.now)
        (D.left desk.new placement.now) (IsErrOf result Stop.ReadFault) }
    ensures left { (IsOfContext told.now → ⊥)
        → D.left desk.new placement.now ≡ D.left desk.old placement.now }
    ensures others { (other : List ℕ) → other ≢ placement.now
        → D.left desk.new other ≡ D.left desk.old other }
{
    match told {
        Intake::Refused(refusal) => Ok(Verified::Refused(*refusal)),
        Intake::Context(context) => check_named(alloc, desk, placement, context),
    }
}

// Reads the placement and checks it again.
fn check_named<D: Desk>(
    alloc: Global,
    desk: &mut D,
    placement: &str,
    context: &Context,
) -> Result<Verified, Stop>
    ensures verified { IfOk result (λ verified. (of_placement : List ℕ)
        → D.left desk.old placement.now ≡ Some of_placement
        → IsVerifiedBy context.now of_placement verified) }
    ensures whole { IfOk result (λ verified. IsTextRead verified (D.left desk.new placement.now)) }
    ensures fault { IsErrOf result Stop.ReadFault → Rose (D.faults desk.old) (D.faults desk.new) }
    ensures counted { D.faults desk.old ≤ D.faults desk.new }
    ensures taken { TakesWhole most_placement (D.left desk.old placement.now)
        (D.left desk.new placement.now) (IsErrOf result Stop.ReadFault) }
    ensures others { (other : List ℕ) → other ≢ placement.now
        → D.left desk.new other ≡ D.left desk.old other }
{
    let Ok(mut buffer) = piece_buffer(alloc) else {
        return Err(Stop::OutOfMemory);
    };
    match read_whole(alloc, desk, placement, MOST_PLACEMENT, &mut buffer) {
        Ok(bytes) => Ok(checked_text(alloc, context, bytes.as_slice())?),
        Err(WholeStop::TooLong) => Ok(Verified::TooLong),
        Err(WholeStop::ReadFault) => Err(Stop::ReadFault),
        Err(WholeStop::OutOfMemory) => Err(Stop::OutOfMemory),
    }
}

// What a text comes to that isn't too long.
fn checked_text(alloc: Global, context: &Context, text: &[u8]) -> Result<Verified, OutOfMemory>
    requires { length text.now ≤ most_placement }
    ensures verified { IfOk result (IsVerifiedBy context.now text.now) }
    ensures told { IfOk result IsOfText }
{
    match read_placement(alloc, text) {
        Ok(placement) => Ok(Verified::Judged(check_again(alloc, context, &placement)?)),
        Err(PlacementFault::Line { number }) => Ok(Verified::Misspelt { line: number }),
        Err(PlacementFault::OutOfMemory) => Err(OutOfMemory),
    }
}
