ghost use Rattle.std.specs.Prelude.{◌≡◌, ◌<◌, ◌≤◌, ◌↔◌, Some, length, slice_get, option_and_then, IfOk, IfSome};
ghost use Rattle.std.specs.Prelude.{IsTrue};
ghost use Rattle.base_types.specs.Parts.{member_of};
ghost use Rattle.base_types.specs.Pointers.{pointed as pointed_tree};
ghost use Rattle.node_pool.specs.Pooled.{AreDistinct};

use crate::comparing::equals;
use crate::pointing::{member_of, pointed};
use crate::rebuilding::rebuild;
use crate::store::Store;
use base_types::OutOfMemory;
use base_types::json::{Pointer, Tree};
use node_number::NodeId;
use std::alloc::Global;
use std::marker::Model;

/// Trees of which each stands once, so that two numbers are equal exactly where their trees are. Contracts see a
/// pool as the list of its trees and its limit.
#[derive(Drop)]
pub struct Pool {
    alloc: Global,
    store: Store,
}

impl Model for Pool {
    ghost use Rattle.node_pool.specs.Pooled.{Pooled, coded_pooled};

    ghost Value = { Pooled };

    ghost coded = { coded_pooled };

    ghost view = { λ p. record { limit = p.store.limit; trees = p.store.trees } };
}

impl Pool {
    // The pool of the trees that a store holds.
    pub(crate) fn of(alloc: Global, store: Store) -> Pool
        ensures limit { result.limit ≡ store.limit }
        ensures trees { result.trees ≡ store.trees }
    {
        Pool { alloc, store }
    }

    /// How many trees the pool holds. Every number is below it.
    pub fn len(&self) -> u32
        ensures len { result ≡ length self.now.trees }
        ensures distinct { AreDistinct self.now.trees }
        ensures room { length self.now.trees ≤ self.now.limit }
    {
        self.store.len()
    }

    /// A copy of the tree of a number.
    pub fn tree(&self, node: NodeId) -> Result<Tree, OutOfMemory>
        requires { node.0 < length self.now.trees }
        ensures { IfOk result (λ tree. slice_get self.now.trees node.0 ≡ Some tree) }
    {
        rebuild(self.alloc, &self.store, node.0)
    }

    /// Whether two numbers have one tree, which their comparison tells.
    pub fn same(&self, a: NodeId, b: NodeId) -> bool
        requires a { a.0 < length self.now.trees }
        requires b { b.0 < length self.now.trees }
        ensures numbers { IsTrue result ↔ (a ≡ b) }
        ensures trees { IsTrue result
            ↔ (slice_get self.now.trees a.0 ≡ slice_get self.now.trees b.0) }
    {
        let _len = self.len();
        a.0 == b.0
    }

    /// Whether the tree of a number is this tree.
    pub fn equals(&self, node: NodeId, tree: &Tree) -> bool
        requires { node.0 < length self.now.trees }
        ensures { IsTrue result ↔ (slice_get self.now.trees node.0 ≡ Some tree.now) }
    {
        equals(&self.store, node.0, tree)
    }

    /// The number of what a pointer identifies within the tree of a number (RFC 6901 section 4).
    pub fn at(&self, node: NodeId, pointer: &Pointer) -> Option<NodeId>
        requires { node.0 < length self.now.trees }
        ensures found { option_and_then (λ at. slice_get self.now.trees at.0) result
            ≡ option_and_then
            (pointed_tree pointer.now) (slice_get self.now.trees node.0) }
        ensures within { IfSome result (λ at. at.0 < length self.now.trees) }
    {
        Some(NodeId(pointed(&self.store, node.0, pointer)?))
    }

    /// The number of the value of a member of the object of a number.
    pub fn member(&self, node: NodeId, name: &str) -> Option<NodeId>
        requires { node.0 < length self.now.trees }
        ensures found { option_and_then (λ at. slice_get self.now.trees at.0) result
            ≡ option_and_then
            (member_of name.now) (slice_get self.now.trees node.0) }
        ensures within { IfSome result (λ at. at.0 < length self.now.trees) }
    {
        Some(NodeId(member_of(&self.store, node.0, name)?))
    }
}
