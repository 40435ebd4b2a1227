ghost use Rattle.std.specs.Prelude.{◌≡◌, ◌↔◌, ◌⊎◌, ◌∷◌, [], List, ℕ, IfOk, OnOk, Contains};
ghost use Rattle.std.specs.List.Sorted.{IsNonDecreasing};
ghost use Rattle.clouds.specs.Upto.{AreUpto};

use base_types::OutOfMemory;
use std::alloc::Global;
use std::marker::Model;

/// Lengths in order, none twice.
#[derive(Drop)]
pub struct Lengths {
    lengths: Vec<usize>,
}

impl Model for Lengths {
    ghost Value = { List ℕ };

    ghost view = { λ l. l.lengths.items };

    ghost invariant = { λ l. IsNonDecreasing l.lengths.items };
}

impl Lengths {
    pub fn of(alloc: Global, length: usize) -> Result<Lengths, OutOfMemory>
        ensures { IfOk result (λ made. made ≡ length ∷ []) }
    {
        let mut lengths = Vec::new(alloc);
        lengths.push(length)?;
        Ok(Lengths { lengths })
    }

    /// Puts a length in its place, unless it is there.
    pub fn add(&mut self, length: usize) -> Result<(), OutOfMemory>
        ensures { OnOk result ((other : ℕ) → Contains self.new other
            ↔ (Contains self.old other ⊎ (other ≡ length))) }
    {
        let place = self.lengths.partition_point(|other| *other <= length);
        if place > 0 && self.lengths[place - 1] == length {
            return Ok(());
        }
        self.lengths.insert(place, length)?;
        Ok(())
    }

    /// The lengths up to the most.
    pub fn upto(&self, most: usize) -> &[usize]
        ensures { AreUpto self.now most result.now }
    {
        let count = self.lengths.partition_point(|length| *length <= most);
        let (upto, _) = self.lengths.split_at(count);
        upto
    }
}
