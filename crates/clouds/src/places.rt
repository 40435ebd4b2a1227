ghost use Rattle.std.specs.Prelude.{◌≡◌, ◌∷◌, [], List, ℕ, IfOk, OnOk, Contains};
ghost use Rattle.std.specs.List.Sorted.{IsNonDecreasing, IsPermutation};
ghost use Rattle.clouds.specs.FirstPlace.{IsFirstPlace};
ghost use Rattle.clouds.specs.Latest.{IsLatest, IsLastBeforeNext};

use base_types::OutOfMemory;
use std::alloc::Global;
use std::marker::Model;

/// Places of the history that one key has, as its revisions, in order.
#[derive(Drop)]
pub struct Places {
    places: Vec<u64>,
}

impl Model for Places {
    ghost Value = { List ℕ };

    ghost view = { λ p. p.places.items };

    ghost invariant = { λ p. IsNonDecreasing p.places.items };
}

impl Places {
    pub fn new(alloc: Global) -> Places
        ensures { result ≡ [] }
    {
        Places {
            places: Vec::new(alloc),
        }
    }

    pub fn of(alloc: Global, place: u64) -> Result<Places, OutOfMemory>
        ensures { IfOk result (λ made. made ≡ place ∷ []) }
    {
        let mut places = Vec::new(alloc);
        places.push(place)?;
        Ok(Places { places })
    }

    /// Puts a place where it belongs. At the end it costs a search alone.
    pub fn add(&mut self, place: u64) -> Result<(), OutOfMemory>
        ensures { OnOk result (IsPermutation (place ∷ self.old) self.new) }
    {
        let index = self.places.partition_point(|other| *other <= place);
        self.places.insert(index, place)?;
        Ok(())
    }

    pub fn as_slice(&self) -> &[u64]
        ensures places { result.now ≡ self.now }
        ensures order { IsNonDecreasing self.now }
    {
        self.places.as_slice()
    }
}

/// The greatest of the revisions at or below a place, or 0 where there is none.
pub fn latest(revisions: &[u64], place: u64) -> u64
    requires { IsNonDecreasing revisions.now }
    ensures { IsLatest revisions.now place result }
{
    let upto = revisions.partition_point(|revision| *revision <= place);
    if upto == 0 {
        return 0;
    }
    revisions[upto - 1]
}

/// The last place before the next revision behind a place, or the last there is where none follows.
pub fn last_before_next(revisions: &[u64], place: u64) -> u64
    requires { IsNonDecreasing revisions.now }
    ensures { IsLastBeforeNext revisions.now place result }
{
    let upto = revisions.partition_point(|revision| *revision <= place);
    if upto >= revisions.len() {
        return u64::MAX;
    }
    revisions[upto] - 1
}

/// The least of the places from `low` to `high`.
pub fn first_from(places: &[u64], low: u64, high: u64) -> Option<u64>
    requires { IsNonDecreasing places.now }
    ensures { IsFirstPlace (Contains places.now) low high result }
{
    let before = places.partition_point(|place| *place < low);
    if before >= places.len() {
        return None;
    }
    let place = places[before];
    if place > high {
        return None;
    }
    Some(place)
}
