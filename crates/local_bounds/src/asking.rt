ghost use Rattle.std.specs.Prelude.{◌≡◌, ◌↔◌, ℕ, List, IsTrue};
ghost use Rattle.base_types.specs.Choices.{Meets, MeetsAll};
ghost use Rattle.local_bounds.specs.Asked.{settled, HoldsUnder, bounds_of};

use base_types::{Bound, Bounds};
use std::alloc::Global;

/// What an answer asks of the removals' places.
#[derive(Drop)]
pub enum BoundDemand {
    /// It is right whatever is chosen.
    Free,
    /// It is right exactly under these bounds, by range rising, each on a range whose place decides.
    Under(Bounds),
    /// It is wrong whatever is chosen.
    Never,
}

/// What is asked of the removals' places for one object.
#[derive(Clone, Copy, PartialEq, Eq)]
pub enum KeyDemand {
    /// It is so whatever is chosen.
    Free,
    /// It is so exactly under this bound.
    Under(Bound),
    /// It is so under no choice.
    Never,
}

// Whether the choice gives the bound's range a place within the bound.
fn meets(choice: &[u64], bound: Bound) -> bool
    ensures { IsTrue result ↔ Meets choice.now bound }
{
    let place = choice.get(bound.range as usize).copied().unwrap_or(0);
    bound.low <= place && place <= bound.high
}

// Whether the choice meets all of the bounds.
fn meets_all(choice: &[u64], bounds: &[Bound]) -> bool
    ensures { IsTrue result ↔ MeetsAll choice.now bounds.now }
{
    for bound in bounds {
        if !meets(choice, *bound) {
            return false;
        }
    }
    true
}

impl KeyDemand {
    /// What is asked where no choice decides.
    pub fn settled(holds: bool) -> KeyDemand
        ensures { result ≡ settled holds }
    {
        if holds {
            KeyDemand::Free
        } else {
            KeyDemand::Never
        }
    }

    /// Whether it is so under the choice.
    pub fn holds(self, choice: &[u64]) -> bool
        ensures { IsTrue result ↔ HoldsUnder choice.now self }
    {
        match self {
            KeyDemand::Free => true,
            KeyDemand::Under(bound) => meets(choice, bound),
            KeyDemand::Never => false,
        }
    }
}

impl BoundDemand {
    ghost use Rattle.history_model.specs.Events.{Event};
    ghost use Rattle.history_model.specs.Exact.{AreExactBounds};
    ghost use Rattle.history_model.specs.Histories.{History};
    ghost use Rattle.history_model.specs.Readable.{IsReadable};
    ghost use Rattle.local_bounds.specs.Asked.{HoldsAll, IsAskingOf};

    /// Whether it is so under the choice.
    pub fn holds(&self, choice: &[u64]) -> bool
        ensures { IsTrue result ↔ HoldsAll choice.now self.now }
    {
        match self {
            BoundDemand::Free => true,
            BoundDemand::Under(bounds) => meets_all(choice, bounds.as_slice()),
            BoundDemand::Never => false,
        }
    }

    /// The bounds, of which there are none where nothing is asked, and where it is wrong whatever is chosen.
    pub fn into_bounds(self, alloc: Global) -> Bounds
        ensures value { result ≡ bounds_of self }
        ensures exact { (h : History) (number : ℕ) (event : Event) → IsReadable h
            → IsAskingOf h number event self
            → AreExactBounds h number event result }
    {
        bounds_of(alloc, self)
    }
}

fn bounds_of(alloc: Global, asking: BoundDemand) -> Bounds
    ensures { result ≡ bounds_of asking }
{
    match asking {
        BoundDemand::Free => Bounds::new(alloc),
        BoundDemand::Under(bounds) => bounds,
        BoundDemand::Never => Bounds::new(alloc),
    }
}
