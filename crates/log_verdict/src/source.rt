use base_types::{Claim, OutOfMemory, PlacedLine};
use context_claims::{claim, place};
use judge_pool::{ClaimSource, LineSource};
use log_context::Context;
use std::alloc::Global;

/// The claims of a context's events, the checkpoints among them.
#[derive(Clone, Copy)]
pub struct ContextClaims<'a> {
    pub context: &'a Context,
}

impl<'a> ClaimSource for ContextClaims<'a> {
    ghost use Rattle.std.specs.Prelude.{length};
    ghost use Rattle.context_claims.specs.Claims.{IsClaimOf};
    ghost use Rattle.context_claims.proofs.OneClaim.{one_claim};

    ghost events = { λ source. length source.context.now.log };

    ghost is_claim = { λ source event claim. IsClaimOf source.context.now event claim };

    fn count(&self) -> u32 {
        self.context.count()
    }

    fn claim(&self, alloc: Global, event: u32) -> Result<Claim, OutOfMemory> {
        claim(alloc, self.context, event)
    }

    ghost one = { λ source event a b below x y. one_claim source.context.now event a b below x y };
}

/// The lines of a context's events, the checkpoints among them, under a choice of one place for each removal.
#[derive(Clone, Copy)]
pub struct ContextLines<'a> {
    pub context: &'a Context,
    pub choice: &'a [u64],
}

impl<'a> LineSource for ContextLines<'a> {
    ghost use Rattle.std.specs.Prelude.{length};
    ghost use Rattle.log_verdict.specs.Placing.{IsLineFound};

    ghost events = { λ source. length source.context.now.log };

    ghost is_line = { λ source event found. IsLineFound source.context.now source.choice.now event
        found };

    fn count(&self) -> u32 {
        self.context.count()
    }

    fn line(&self, alloc: Global, event: u32) -> Result<Option<PlacedLine>, OutOfMemory> {
        place(alloc, self.context, event, self.choice)
    }
}
