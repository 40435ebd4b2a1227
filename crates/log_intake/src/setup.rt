ghost use Rattle.std.specs.Prelude.{◌≡◌, ◌≢◌, ℕ, ◌<◌, ◌≤◌, List, length, Err, IfOk};
ghost use Rattle.std.specs.Result.{result_map_both};
ghost use Rattle.setup_file.specs.Sound.{IsSound};
ghost use Rattle.log_intake.specs.Setup.{AnswersSetup, IsSeedOf, ReadsSetup, most_checkpoints, stop_of};

use crate::stop::SetupStop;
use edge_io::{Desk, WholeStop, read_whole};
use hash_seed::Seed;
use setup_file::{Setup, SetupFault, read_setup};
use std::alloc::Global;

/// A setup may have so many bytes.
const MOST_SETUP: usize = 268_435_456;

/// A setup that was read.
#[derive(Drop)]
pub struct SetupRead {
    pub setup: Setup,
    /// The seed of its bytes, which whoever writes objects doesn't know as a whole.
    pub seed: Seed,
}

/// Reads a setup from a desk, by name and to its end. Each read offers the whole buffer.
pub fn read_setup_named<D: Desk>(
    alloc: Global,
    desk: &mut D,
    name: &str,
    buffer: &mut [u8],
) -> Result<SetupRead, SetupStop>
    requires some { 0 < length buffer.old }
    requires piece { length buffer.old ≤ 65536 }
    ensures reads { ReadsSetup (D.left desk.old name.now) (D.left desk.new name.now)
        (D.faults desk.old)
        (D.faults desk.new) (result_map_both (λ read. read.setup) (λ stop. stop) result) }
    ensures seed { IfOk result (λ read. IsSeedOf (D.left desk.old name.now) read.seed) }
    ensures others { (other : List ℕ) → other ≢ name.now
        → D.left desk.new other ≡ D.left desk.old other }
{
    match read_whole(alloc, desk, name, MOST_SETUP, buffer) {
        Ok(bytes) => {
            let bytes = bytes.as_slice();
            let seed = Seed::of(bytes);
            with_seed(setup_of(alloc, bytes, seed), seed)
        }
        Err(stop) => Err(stop_of(stop)),
    }
}

fn stop_of(stop: WholeStop) -> SetupStop
    ensures { result ≡ stop_of stop }
{
    match stop {
        WholeStop::TooLong => SetupStop::TooLong,
        WholeStop::ReadFault => SetupStop::ReadFault,
        WholeStop::OutOfMemory => SetupStop::OutOfMemory,
    }
}

// What was read of a setup, with the seed of its bytes.
fn with_seed(setup: Result<Setup, SetupStop>, seed: Seed) -> Result<SetupRead, SetupStop>
    ensures setup { result_map_both (λ read. read.setup) (λ stop. stop) result ≡ setup }
    ensures seed { IfOk result (λ read. read.seed ≡ seed) }
{
    match setup {
        Ok(setup) => Ok(SetupRead { setup, seed }),
        Err(stop) => Err(stop),
    }
}

// The setup of the bytes, which aren't too many.
fn setup_of(alloc: Global, bytes: &[u8], seed: Seed) -> Result<Setup, SetupStop>
    requires { length bytes.now ≤ MOST_SETUP }
    ensures answer { AnswersSetup bytes.now result }
    ensures sound { IfOk result IsSound }
    ensures few { IfOk result (λ setup. length setup.checkpoints ≤ most_checkpoints) }
    ensures no_fault { result ≢ Err SetupStop.ReadFault }
{
    match read_setup(alloc, bytes, seed) {
        Ok(setup) => Ok(setup),
        Err(SetupFault::Rule(rule)) => Err(SetupStop::Rule(rule)),
        Err(SetupFault::OutOfMemory) => Err(SetupStop::OutOfMemory),
    }
}
