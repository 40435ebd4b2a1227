ghost use Rattle.std.specs.Prelude.{◌≡◌, ◌<◌, ◌↔◌, List, ℕ, length, All, IsNone, IfSome, IfOk, false, true};
ghost use Rattle.std.specs.List.{range_with_len};
ghost use Rattle.std.specs.List.Sorted.{IsPermutation};
ghost use Rattle.base_types.specs.Choices.{HavePlaces};
ghost use Rattle.base_types.specs.Settlement.{ExplainsAll, HasLeastCode};

use crate::room;
use base_types::{Claim, Listed, OutOfMemory, Range, Reason};
use std::alloc::Global;

/// One place for each range, in the order of the ranges.
pub type Choice = Listed<u64>;

/// Whether one choice of the removals' places explains all events.
#[derive(Drop, PartialEq, Eq)]
pub enum Settled {
    /// The least place in each range.
    Fits(Choice),
    /// The first event in the order of judgement that no choice explains together with the events
    /// before it, and the least code that it stands for.
    Breaks { event: u32, reason: Reason },
}

/// The least code of a claim: its own, or that of its answer where its bounds can't be met.
fn code_of(claim: &Claim, fits: bool) -> Option<Reason>
    ensures none { IsNone result ↔ ((claim.now.fails ≡ None) × (fits ≡ true)) }
    ensures least { IfSome result (HasLeastCode claim.now (fits ≡ false)) }
{
    match claim.fails {
        None if fits => None,
        Some(code) if fits || code.number() <= claim.reason.number() => Some(code),
        _ => Some(claim.reason),
    }
}

ghost use Rattle.place_choice.specs.Settled.{IsSettled, IsFits};

/// Settles the removals' places for all claims. `order` is the order of judgement.
pub fn settle(
    alloc: Global,
    ranges: &[Range],
    order: &[u32],
    claims: &[Claim],
) -> Result<Settled, OutOfMemory>
    requires order { IsPermutation (range_with_len 0 (length claims.now)) order.now }
    requires bounds { All (λ claim. All (λ bound. bound.range < length ranges.now) claim.bounds)
        claims.now }
    requires places { HavePlaces ranges.now }
    ensures settled { IfOk result (IsSettled ranges.now order.now claims.now) }

    // A choice that explains all is never missed.
    ensures fits { IfOk result (λ settled. IsFits settled ↔ ((choice : List ℕ)
        × ExplainsAll ranges.now claims.now choice)) }
{
    let mut left = Vec::from_slice(alloc, ranges)?;
    for event in order {
        let claim = &claims[*event as usize];
        let fits = room::narrow(&mut left, claim.bounds.as_slice());
        if let Some(reason) = code_of(claim, fits) {
            return Ok(Settled::Breaks {
                event: *event,
                reason,
            });
        }
    }
    Ok(Settled::Fits(room::least_places(alloc, &left)?))
}
