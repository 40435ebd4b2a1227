ghost use Rattle.std.specs.Prelude.{◌≡◌, ◌≤◌, ◌+◌, ◌++◌, IfOk, OnOk, length};
ghost use Rattle.context_intake.specs.Contexts.{with_chains};
ghost use Rattle.log_intake.specs.Kept.{AreLogEvents};
ghost use Rattle.setup_file.specs.Sound.{IsSound};

use audit_event::Events;
use base_types::OutOfMemory;
use hash_seed::Seed;
use page_chains::chains;
use setup_file::{Checkpoints, Setup};
use std::alloc::Global;

/// The lists that clients read in pages, as checkpoints behind those of the setup.
pub fn with_chains(
    alloc: Global,
    setup: Setup,
    events: &Events,
    seed: Seed,
) -> Result<Setup, OutOfMemory>
    requires setup { IsSound setup }
    requires events { AreLogEvents events.now }
    ensures chains { IfOk result (λ chained. chained ≡ with_chains setup events.now) }
    ensures sound { IfOk result IsSound }
    ensures few { IfOk result (λ chained. length chained.checkpoints
        ≤ length setup.checkpoints + length events.now) }
{
    let found = chains(alloc, &setup, events, seed)?;
    let mut chained = setup;
    put_behind(&mut chained.checkpoints, found)?;
    Ok(chained)
}

// Puts checkpoints behind others.
fn put_behind(all: &mut Checkpoints, more: Checkpoints) -> Result<(), OutOfMemory>
    ensures { OnOk result (all.new ≡ all.old ++ more) }
{
    for checkpoint in more.into_vec() {
        all.push(checkpoint)?;
    }
    Ok(())
}
