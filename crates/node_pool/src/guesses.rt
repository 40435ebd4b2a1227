use base_types::{OutOfMemory, Text};
use hash_seed::{Seed, Seeded};
use indexmap::IndexMap;
use std::alloc::Global;

/// The number of the tree that was interned last under each text. No clause speaks of these numbers, since a wrong one
/// costs time alone.
#[derive(Drop)]
pub struct Guesses {
    last: IndexMap<Text, Option<u32>, Seeded>,
}

impl Guesses {
    pub fn new(alloc: Global, seed: Seed) -> Guesses {
        Guesses {
            last: IndexMap::with_hasher(alloc, Seeded::new(seed)),
        }
    }

    /// The place of a text, which is a new one where the text is new.
    pub fn place(&mut self, like: &Text) -> Result<usize, OutOfMemory> {
        if let Some(place) = self.last.get_index_of(like) {
            return Ok(place);
        }
        let (place, _) = self.last.insert_full(like.clone()?, None)?;
        Ok(place)
    }

    pub fn at(&self, place: usize) -> Option<u32> {
        let (_, number) = self.last.get_index(place)?;
        *number
    }

    pub fn keep(&mut self, place: usize, number: u32) {
        if let Some(last) = self.last.get_index_mut(place) {
            *last = Some(number);
        }
    }
}
