ghost use Rattle.std.specs.Prelude.{◌≡◌, ◌<◌, ◌≤◌, ◌↔◌, [], Some, Err, length, take, slice_get};
ghost use Rattle.std.specs.Prelude.{OnOk, OnErr, IfOk, IfSome};
ghost use Rattle.indexmap.specs.IndexSet.{insert_key};
ghost use Rattle.packed_tree.specs.Showing.{meaning_of};
ghost use Rattle.node_pool.specs.Flat.{flat_eq};
ghost use Rattle.node_pool.specs.Kept.{Grows};
ghost use Rattle.node_pool.specs.Placing.{PlacesTree};
ghost use Rattle.node_pool.specs.Pooled.{AreDistinct};
ghost use Rattle.node_pool.specs.Subtrees.{Begins, interned, with_tree};
ghost use Rattle.node_pool.specs.Within.{IsWithin, tree_of};

use crate::fault::PoolFault;
use crate::form::Level;
use crate::near;
use crate::store::Store;
use base_types::{OutOfMemory, Text};
use hash_seed::{Seed, Seeded};
use indexmap::IndexSet;
use packed_tree::Shown;
use std::alloc::Global;
use std::hash::Hash;
use std::marker::Model;

/// A store while it grows: beside its levels and names stand the hash tables by which each is found.
#[derive(Drop)]
pub struct GrowingStore {
    limit: u32,
    names: IndexSet<Text, Seeded>,
    levels: IndexSet<Level, Seeded>,
}

impl Model for GrowingStore {
    ghost use Rattle.node_pool.specs.Kept.{Kept, coded_kept, seen, AreLevelsKept};

    ghost Value = { Kept };

    ghost coded = { coded_kept };

    ghost view = { λ s. seen s.limit s.names.keys s.levels.keys };

    ghost invariant = { λ s. AreLevelsKept s.limit s.names.keys s.levels.keys };
}

/// A member's name while its object is put in.
#[derive(Clone, Copy)]
pub struct Named {
    /// The number of the name.
    pub name: usize,
    /// The guess for the number of its value.
    pub value: Option<u32>,
    /// From where the guessed object's members are looked at for the next name.
    pub next: usize,
}

impl GrowingStore {
    pub fn new(alloc: Global, limit: u32, seed: Seed) -> GrowingStore
        ensures limit { result.limit ≡ limit }
        ensures names { result.names ≡ [] }
        ensures trees { result.trees ≡ [] }
    {
        GrowingStore {
            limit,
            names: IndexSet::with_hasher(alloc, Seeded::new(seed)),
            levels: IndexSet::with_hasher(alloc, Seeded::new(seed)),
        }
    }

    /// How many trees there are.
    pub fn len(&self) -> u32
        ensures len { result ≡ length self.now.trees }
        ensures distinct { AreDistinct self.now.trees }
        ensures room { length self.now.trees ≤ self.now.limit }
    {
        self.levels.len() as u32
    }

    /// The number of a name, which is a new one where the name is new.
    pub fn number_of(&mut self, name: Text) -> Result<usize, OutOfMemory>
        ensures grows { Grows self.old self.new }
        ensures trees { self.new.trees ≡ self.old.trees }
        ensures number { IfOk result (λ n. slice_get self.new.names n ≡ Some name) }
    {
        numbered(&mut self.names, name)
    }

    /// As `number_of`. A number that is guessed is of an object in which the name may stand: there it is met without a
    /// hash or a copy, from the position that an earlier name left.
    pub fn number_near(
        &mut self,
        alloc: Global,
        near: Option<u32>,
        from: usize,
        name: &str,
    ) -> Result<Named, OutOfMemory>
        ensures grows { Grows self.old self.new }
        ensures trees { self.new.trees ≡ self.old.trees }
        ensures number { IfOk result (λ n. slice_get self.new.names n.name ≡ Some name.now) }
    {
        let met = self.met(near, from, name);
        if let Some((number, value)) = met.member {
            return Ok(Named {
                name: number,
                value: Some(value),
                next: met.next,
            });
        }
        let text = Text::from_str(alloc, name)?;
        let number = self.number_of(text)?;
        Ok(Named {
            name: number,
            value: None,
            next: met.next,
        })
    }

    fn met(&self, near: Option<u32>, from: usize, name: &str) -> near::Met
        ensures { IfSome result.member (λ m. slice_get self.now.names m.0 ≡ Some name.now) }
    {
        near::meet(&self.names, &self.levels, near, from, name)
    }

    /// A guess: the number of an item of the array that is guessed.
    pub fn item_near(&self, near: Option<u32>, index: usize) -> Option<u32> {
        near::item(&self.levels, near, index)
    }

    /// The guessed number, where it has this value, and nothing is within the value. So the value adds nothing.
    pub fn leaf_near(&self, near: Option<u32>, shown: &Shown<'_>) -> Option<u32>
        ensures number { IfSome result
            (λ n. slice_get self.now.trees n ≡ Some (meaning_of shown.now)) }
        ensures added { IfSome result
            (λ _. interned self.now.trees (meaning_of shown.now) ≡ self.now.trees) }
        ensures room { length self.now.trees ≤ self.now.limit }
    {
        near::leaf(&self.levels, near, shown)
    }

    /// As `place`. The number that is guessed is the answer where it has this level: a tree that is there adds nothing.
    pub fn place_near(&mut self, near: Option<u32>, level: Level) -> Result<u32, PoolFault>
        requires within { IsWithin self.old.names (length self.old.trees) level }
        ensures { PlacesTree self.old self.new
            (tree_of self.old.names self.old.trees level) result }
    {
        if let Some(number) = self.standing(near, &level) {
            return Ok(number);
        }
        self.place(level)
    }

    fn standing(&self, near: Option<u32>, level: &Level) -> Option<u32>
        ensures number { IfSome result (λ n. slice_get self.now.trees n ≡ Some
            (tree_of self.now.names self.now.trees level.now)) }
        ensures placed { IfSome result (λ _. with_tree self.now.trees
            (tree_of self.now.names self.now.trees level.now) ≡ self.now.trees) }
        ensures room { length self.now.trees ≤ self.now.limit }
    {
        near::standing(&self.levels, near, level)
    }

    // The number of a level's tree, which is a new one where the tree is new.
    fn place(&mut self, level: Level) -> Result<u32, PoolFault>
        requires within { IsWithin self.old.names (length self.old.trees) level }
        ensures { PlacesTree self.old self.new
            (tree_of self.old.names self.old.trees level) result }
    {
        inserted(&mut self.levels, self.limit, level)
    }

    /// Takes out the trees whose numbers aren't below this one.
    pub fn cut(&mut self, len: u32)
        ensures limit { self.new.limit ≡ self.old.limit }
        ensures trees { self.new.trees ≡ take len self.old.trees }
    {
        self.levels.truncate(len as usize);
    }

    /// The store once it grows no more, without the hash tables.
    pub fn into_store(self, alloc: Global) -> Result<Store, OutOfMemory>
        ensures { IfOk result (λ store. store ≡ self) }
    {
        let GrowingStore {
            limit,
            names,
            levels,
        } = self;
        let names = listed(alloc, names)?;
        let levels = listed(alloc, levels)?;
        Ok(Store::of(limit, names, levels))
    }
}

// What stands in a set, in its order; the hash table goes.
fn listed<T: Eq + Hash + Drop>(
    alloc: Global,
    set: IndexSet<T, Seeded>,
) -> Result<Vec<T>, OutOfMemory>
    ensures { IfOk result (λ all. all.items ≡ set.keys) }
{
    Ok(set.into_iter().collect(alloc)?)
}

// The position of a name, which is put behind the others where it is new.
fn numbered(names: &mut IndexSet<Text, Seeded>, name: Text) -> Result<usize, OutOfMemory>
    ensures begins { Begins names.old.keys names.new.keys }
    ensures distinct { AreDistinct names.old.keys → AreDistinct names.new.keys }
    ensures number { IfOk result (λ n. slice_get names.new.keys n ≡ Some name) }
{
    let (number, _) = names.insert_full(name)?;
    Ok(number)
}

// The position of a level, which is put behind the others where it is new and there is room. Whether there is room is
// decided before any memory is asked for.
fn inserted(
    levels: &mut IndexSet<Level, Seeded>,
    limit: u32,
    level: Level,
) -> Result<u32, PoolFault>
    requires room { length levels.old.keys ≤ limit }
    ensures keys { OnOk result (levels.new.keys ≡ insert_key flat_eq levels.old.keys level) }
    ensures number { IfOk result (λ n. slice_get levels.new.keys n ≡ Some level) }
    ensures fits { OnOk result (length (insert_key flat_eq levels.old.keys level) ≤ limit) }
    ensures full { (result ≡ Err PoolFault.Full)
        ↔ (limit < length (insert_key flat_eq levels.old.keys level)) }
    ensures refused { OnErr result (levels.new.keys ≡ levels.old.keys) }
{
    if levels.len() < limit as usize {
        let (index, _) = levels.insert_full(level)?;
        return Ok(index as u32);
    }
    match levels.get_index_of(&level) {
        Some(index) => Ok(index as u32),
        None => Err(PoolFault::Full),
    }
}
