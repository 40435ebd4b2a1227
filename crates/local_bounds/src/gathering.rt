ghost use Rattle.std.specs.Prelude.{◌≡◌, IfOk, IfSome, IfNone, Contains};
ghost use Rattle.local_bounds.specs.Demands.{bounds_in, IsPossible, IsTogether};
ghost use Rattle.local_bounds.specs.declared.asking.KeyDemand.TheVariants.{Never};

use crate::asking::{BoundDemand, KeyDemand};
use base_types::{Bound, Bounds, OutOfMemory};
use std::alloc::Global;

// The bounds of all that is asked; None where some of it can't be.
fn bounds_of(alloc: Global, askings: &[KeyDemand]) -> Result<Option<Vec<Bound>>, OutOfMemory>
    ensures some { IfOk result (λ found. IfSome found (λ bounds. IsPossible askings.now
        × (bounds.items ≡ bounds_in askings.now))) }
    ensures none { IfOk result (λ found. IfNone found (Contains askings.now Never)) }
{
    let mut bounds = Vec::new(alloc);
    for asking in askings {
        match *asking {
            KeyDemand::Free => {}
            KeyDemand::Under(bound) => bounds.push(bound)?,
            KeyDemand::Never => return Ok(None),
        }
    }
    Ok(Some(bounds))
}

/// All that is asked for objects of different keys.
pub fn together(alloc: Global, askings: &[KeyDemand]) -> Result<BoundDemand, OutOfMemory>
    ensures { IfOk result (IsTogether askings.now) }
{
    let Some(mut bounds) = bounds_of(alloc, askings)? else {
        return Ok(BoundDemand::Never);
    };
    if bounds.is_empty() {
        return Ok(BoundDemand::Free);
    }
    bounds.sort_unstable_by_key(|bound| bound.range);
    Ok(BoundDemand::Under(Bounds::from_vec(bounds)))
}
