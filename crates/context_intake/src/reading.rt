ghost use Rattle.std.specs.Prelude.{◌≡◌, ◌≢◌, ◌<◌, ◌≤◌, ℕ, List, Some, Err, IfOk, IsErrOf, length};
ghost use Rattle.context_intake.specs.Built.{IsBuiltAs};
ghost use Rattle.context_intake.specs.Contexts.{IsFoundIn, IsToldBy, RefusesNothing, with_chains};
ghost use Rattle.context_intake.specs.Refusals.{IsSetupStopOf, IsStopOf};
ghost use Rattle.context_intake.specs.Taking.{IsReadFor, ReadsSetupAndLog};
ghost use Rattle.log_intake.specs.Kept.{AreLogEvents};
ghost use Rattle.log_intake.specs.Setup.{most_checkpoints};
ghost use Rattle.setup_file.specs.Sound.{IsSound};

use crate::chained::with_chains;
use crate::refusal::{Limit, Refusal};
use crate::stop::Stop;
use crate::told::Intake;
use audit_event::Events;
use edge_io::{Desk, piece_buffer};
use hash_seed::Seed;
use judge_pool::Gate;
use log_context::{BuildFault, Context};
use log_intake::{LogStop, SetupRead, SetupStop, read_log, read_setup_named};
use setup_file::Setup;
use std::alloc::Global;
use std::marker::Sync;
use std::thread::Threads;

/// Reads a setup and then a log from a desk, each by its name, and finds what they tell. Several threads decode the
/// lines of a batch, of which each one's index enters the gate, and classify the events.
pub fn read_context<R: Threads + Sync, D: Desk, H: Gate>(
    rt: &R,
    alloc: Global,
    desk: &mut D,
    setup: &str,
    log: &str,
    lines: &H,
) -> Result<Intake, Stop>
    requires { setup.now ≢ log.now }
    ensures told { IfOk result (λ told. (of_setup of_log : List ℕ)
        → D.left desk.old setup.now ≡ Some of_setup → D.left desk.old log.now ≡ Some of_log
        → IsToldBy of_setup of_log told) }
    ensures whole { IfOk result (λ told. IsReadFor told (D.left desk.new setup.now)
        (D.left desk.new log.now)) }
    ensures reads { ReadsSetupAndLog setup.now log.now (D.left desk.old) (D.left desk.new)
        (D.faults desk.old) (D.faults desk.new) (RefusesNothing result)
        (IsErrOf result Stop.ReadFault) }
{
    let Ok(mut buffer) = piece_buffer(alloc) else {
        return Err(Stop::OutOfMemory);
    };
    read_by_pieces(rt, alloc, desk, setup, log, &mut buffer, lines)
}

// Reads both through a buffer for one piece.
fn read_by_pieces<R: Threads + Sync, D: Desk, H: Gate>(
    rt: &R,
    alloc: Global,
    desk: &mut D,
    setup: &str,
    log: &str,
    buffer: &mut [u8],
    lines: &H,
) -> Result<Intake, Stop>
    requires apart { setup.now ≢ log.now }
    requires some { 0 < length buffer.old }
    requires piece { length buffer.old ≤ 65536 }
    ensures told { IfOk result (λ told. (of_setup of_log : List ℕ)
        → D.left desk.old setup.now ≡ Some of_setup → D.left desk.old log.now ≡ Some of_log
        → IsToldBy of_setup of_log told) }
    ensures whole { IfOk result (λ told. IsReadFor told (D.left desk.new setup.now)
        (D.left desk.new log.now)) }
    ensures reads { ReadsSetupAndLog setup.now log.now (D.left desk.old) (D.left desk.new)
        (D.faults desk.old) (D.faults desk.new) (RefusesNothing result)
        (IsErrOf result Stop.ReadFault) }
{
    let (setup, seed) = match read_setup_named(alloc, desk, setup, buffer) {
        Ok(SetupRead { setup, seed }) => (setup, seed),
        Err(stop) => return refused_setup(stop),
    };
    match read_log(rt, alloc, desk, log, buffer, seed, lines) {
        Ok(events) => told_by(rt, alloc, setup, events, seed),
        Err(stop) => refused_log(stop),
    }
}

fn refused_setup(stop: SetupStop) -> Result<Intake, Stop>
    ensures refused { IfOk result (λ told. (refusal : Refusal) × IsSetupStopOf stop refusal
        × (told ≡ Intake.Refused refusal)) }
    ensures fault { IsErrOf result Stop.ReadFault → stop ≡ SetupStop.ReadFault }
    ensures memory { IsErrOf result Stop.OutOfMemory → stop ≡ SetupStop.OutOfMemory }
{
    match stop {
        SetupStop::Rule(rule) => Ok(Intake::Refused(Refusal::BrokenSetup(rule))),
        SetupStop::TooLong => Ok(Intake::Refused(Refusal::PastLimit(Limit::SetupSize))),
        SetupStop::ReadFault => Err(Stop::ReadFault),
        SetupStop::OutOfMemory => Err(Stop::OutOfMemory),
    }
}

fn refused_log(stop: LogStop) -> Result<Intake, Stop>
    ensures refused { IfOk result (λ told. (refusal : Refusal) × IsStopOf stop refusal
        × (told ≡ Intake.Refused refusal)) }
    ensures fault { IsErrOf result Stop.ReadFault → stop ≡ LogStop.ReadFault }
    ensures memory { IsErrOf result Stop.OutOfMemory → stop ≡ LogStop.OutOfMemory }
{
    match stop {
        LogStop::Malformed { line, code } => Ok(Intake::Refused(Refusal::MalformedLog {
            line,
            code,
        })),
        LogStop::LineTooLong => Ok(Intake::Refused(Refusal::PastLimit(Limit::LineSize))),
        LogStop::TooManyEvents => Ok(Intake::Refused(Refusal::PastLimit(Limit::EventCount))),
        LogStop::TooLong => Ok(Intake::Refused(Refusal::PastLimit(Limit::InputSize))),
        LogStop::ReadFault => Err(Stop::ReadFault),
        LogStop::OutOfMemory => Err(Stop::OutOfMemory),
    }
}

// What a setup and the events of a log tell.
fn told_by<R: Threads + Sync>(
    rt: &R,
    alloc: Global,
    setup: Setup,
    events: Events,
    seed: Seed,
) -> Result<Intake, Stop>
    requires setup { IsSound setup }
    requires few { length setup.checkpoints ≤ most_checkpoints }
    requires events { AreLogEvents events }
    ensures found { IfOk result (IsFoundIn (with_chains setup events) events) }
    ensures no_fault { IsErrOf result Stop.ReadFault → ⊥ }
{
    let chained = with_chains(alloc, setup, &events, seed)?;
    told_of(Context::build(rt, alloc, chained, events, seed))
}

// What a context tells that was built, or why it wasn't.
fn told_of(built: Result<Context, BuildFault>) -> Result<Intake, Stop>
    ensures told { IfOk result (IsBuiltAs built) }
    ensures no_fault { IsErrOf result Stop.ReadFault → ⊥ }
    ensures memory { IsErrOf result Stop.OutOfMemory → built ≡ Err BuildFault.OutOfMemory }
{
    match built {
        Ok(context) => Ok(Intake::Context(context)),
        Err(BuildFault::PoolFull) => Ok(Intake::Refused(Refusal::PastLimit(Limit::PoolSize))),
        Err(BuildFault::OutOfMemory) => Err(Stop::OutOfMemory),
    }
}
