ghost use Rattle.std.specs.Prelude.{◌≡◌, ◌<◌, ◌≤◌, List, ℕ, length, map, All, IfOk, IsTrue, false};
ghost use Rattle.base_types.specs.Choices.{HavePlaces, IsChoice, MeetsAll};
ghost use Rattle.place_choice.specs.Room.{Narrows};

use base_types::{Bound, Listed, OutOfMemory, Range};
use std::alloc::Global;

/// Takes from the ranges what the bounds exclude, and answers whether each range still has a place.
/// After `false` some of the ranges may be narrowed and others not.
pub fn narrow(ranges: &mut [Range], bounds: &[Bound]) -> bool
    requires { All (λ bound. bound.range < length ranges.old) bounds.now }
    ensures narrowed { IsTrue result → Narrows ranges.old ranges.new bounds.now }
    ensures emptied { result ≡ false → (choice : List ℕ) → IsChoice ranges.old choice
        → MeetsAll choice bounds.now → ⊥ }
    ensures places { IsTrue result → HavePlaces ranges.old → HavePlaces ranges.new }
{
    for bound in bounds {
        let range = &mut ranges[bound.range as usize];
        let low = range.low.max(bound.low);
        let high = range.high.min(bound.high);
        if high < low {
            return false;
        }
        *range = Range {
            event: range.event,
            low,
            high,
        };
    }
    true
}

/// The least place of each range.
pub fn least_places(alloc: Global, ranges: &[Range]) -> Result<Listed<u64>, OutOfMemory>
    ensures { IfOk result (λ places. places ≡ map (λ range. range.low) ranges.now) }
{
    let places = ranges.iter().map(|range| range.low).collect(alloc)?;
    Ok(Listed::from_vec(places))
}
