ghost use Rattle.std.specs.Prelude.{◌≡◌, ◌<◌, ◌≤◌, [], Some, Err, length, slice_get, OnOk, OnErr, IfOk};
ghost use Rattle.node_pool.specs.Pooled.{AreDistinct};
ghost use Rattle.node_pool.specs.Subtrees.{interned};

use crate::fault::PoolFault;
use crate::growing::GrowingStore;
use crate::guesses::Guesses;
use crate::interning::add;
use crate::pool::Pool;
use base_types::{OutOfMemory, Text};
use hash_seed::Seed;
use node_number::NodeId;
use packed_tree::PackedRef;
use std::alloc::Global;
use std::marker::Model;

/// A pool while trees are put into it. Hash tables find what is there already; `into_pool` lets them go. Contracts see
/// it as they see the pool that it becomes.
#[derive(Drop)]
pub struct Interner {
    alloc: Global,
    store: GrowingStore,
    guesses: Guesses,
}

impl Model for Interner {
    ghost use Rattle.node_pool.specs.Pooled.{Pooled, coded_pooled};

    ghost Value = { Pooled };

    ghost coded = { coded_pooled };

    ghost view = { λ p. record { limit = p.store.limit; trees = p.store.trees } };
}

impl Interner {
    /// A pool without trees that may hold `limit` of them. The hashes of what it holds begin with the seed.
    pub fn new(alloc: Global, limit: u32, seed: Seed) -> Result<Interner, OutOfMemory>
        ensures limit { IfOk result (λ pool. pool.limit ≡ limit) }
        ensures trees { IfOk result (λ pool. pool.trees ≡ []) }
    {
        Ok(Interner {
            alloc,
            store: GrowingStore::new(alloc, limit, seed),
            guesses: Guesses::new(alloc, seed),
        })
    }

    /// How many trees the pool holds. Every number is below it.
    pub fn len(&self) -> u32
        ensures len { result ≡ length self.now.trees }
        ensures distinct { AreDistinct self.now.trees }
        ensures room { length self.now.trees ≤ self.now.limit }
    {
        self.store.len()
    }

    /// The number of a value, which is read where it stands. The value and each value within it that the pool lacks are
    /// put behind the others; after a refusal the pool is as before.
    pub fn intern(&mut self, value: &PackedRef<'_>) -> Result<NodeId, PoolFault>
        ensures added { OnOk result (self.new.trees ≡ interned self.old.trees value.now) }
        ensures number { IfOk result (λ node. slice_get self.new.trees node.0 ≡ Some value.now) }
        ensures fits { OnOk result (length (interned self.old.trees value.now) ≤ self.old.limit) }
        ensures full { result ≡ Err PoolFault.Full
            → self.old.limit < length (interned self.old.trees value.now) }
        ensures refused { OnErr result (self.new ≡ self.old) }
        ensures limit { self.new.limit ≡ self.old.limit }
    {
        self.intern_near(None, value)
    }

    /// As `intern`, and quicker where the value is much like the one that was interned last under the same text: what
    /// the two have at equal places is found without a hash.
    pub fn intern_like(&mut self, like: &Text, value: &PackedRef<'_>) -> Result<NodeId, PoolFault>
        ensures added { OnOk result (self.new.trees ≡ interned self.old.trees value.now) }
        ensures number { IfOk result (λ node. slice_get self.new.trees node.0 ≡ Some value.now) }
        ensures fits { OnOk result (length (interned self.old.trees value.now) ≤ self.old.limit) }
        ensures full { result ≡ Err PoolFault.Full
            → self.old.limit < length (interned self.old.trees value.now) }
        ensures refused { OnErr result (self.new ≡ self.old) }
        ensures limit { self.new.limit ≡ self.old.limit }
    {
        let place = self.guesses.place(like)?;
        let near = self.guesses.at(place);
        match self.intern_near(near, value) {
            Ok(node) => {
                self.guesses.keep(place, node.0);
                Ok(node)
            }
            Err(fault) => Err(fault),
        }
    }

    // The number of a value, with a guess for it.
    fn intern_near(&mut self, near: Option<u32>, value: &PackedRef<'_>) -> Result<NodeId, PoolFault>
        ensures added { OnOk result (self.new.trees ≡ interned self.old.trees value.now) }
        ensures number { IfOk result (λ node. slice_get self.new.trees node.0 ≡ Some value.now) }
        ensures fits { OnOk result (length (interned self.old.trees value.now) ≤ self.old.limit) }
        ensures full { result ≡ Err PoolFault.Full
            → self.old.limit < length (interned self.old.trees value.now) }
        ensures refused { OnErr result (self.new ≡ self.old) }
        ensures limit { self.new.limit ≡ self.old.limit }
    {
        let alloc = self.alloc;
        let before = self.store.len();
        match add(alloc, &mut self.store, near, value) {
            Ok(number) => Ok(NodeId(number)),
            Err(fault) => {
                self.store.cut(before);
                Err(fault)
            }
        }
    }

    /// The pool of the same trees under the same numbers, once the last tree is in it.
    pub fn into_pool(self) -> Result<Pool, OutOfMemory>
        ensures same { IfOk result (λ pool. pool ≡ self) }
    {
        let Interner {
            alloc,
            store,
            guesses,
        } = self;
        drop(guesses);
        let store = store.into_store(alloc)?;
        Ok(Pool::of(alloc, store))
    }
}
