ghost use Rattle.std.specs.Prelude.{◌≡◌, ◌≤◌, length, slice_get, option_map, option_copied, IfSome};
ghost use Rattle.node_pool.specs.Kept.{seen, AreLevelsKept};
ghost use Rattle.node_pool.specs.Pooled.{AreDistinct};
ghost use Rattle.node_pool.specs.Within.{IsWithin, name_at, tree_of};

use crate::form::Level;
use base_types::Text;
use std::marker::Model;

/// The levels of the trees and the names of their members, each once. A number is a position.
#[derive(Drop)]
pub struct Store {
    limit: u32,
    names: Vec<Text>,
    levels: Vec<Level>,
}

impl Model for Store {
    ghost use Rattle.node_pool.specs.Kept.{Kept, coded_kept, seen, AreLevelsKept};

    ghost Value = { Kept };

    ghost coded = { coded_kept };

    ghost view = { λ s. seen s.limit s.names.items s.levels.items };

    ghost invariant = { λ s. AreLevelsKept s.limit s.names.items s.levels.items };
}

impl Store {
    /// The store of these names and levels.
    pub fn of(limit: u32, names: Vec<Text>, levels: Vec<Level>) -> Store
        requires { AreLevelsKept limit names.items levels.items }
        ensures { result ≡ seen limit names.items levels.items }
    {
        Store {
            limit,
            names,
            levels,
        }
    }

    /// How many trees there are.
    pub fn len(&self) -> u32
        ensures len { result ≡ length self.now.trees }
        ensures distinct { AreDistinct self.now.trees }
        ensures room { length self.now.trees ≤ self.now.limit }
    {
        self.levels.len() as u32
    }

    /// The level of the tree of a number.
    pub fn level(&self, number: u32) -> Option<&Level>
        ensures tree { option_map (λ l. tree_of self.now.names self.now.trees l.now) result
            ≡ slice_get
            self.now.trees number }
        ensures before { IfSome result (λ l. IsWithin self.now.names number l.now) }
    {
        level_at(&self.levels, number)
    }

    /// The name of a number, and the empty text where there is none.
    pub fn name(&self, number: usize) -> &str
        ensures { result.now ≡ name_at self.now.names number }
    {
        match self.names.get(number) {
            Some(name) => name.as_str(),
            None => "",
        }
    }
}

// The level at a position.
fn level_at(levels: &Vec<Level>, number: u32) -> Option<&Level>
    ensures { option_copied result ≡ slice_get levels.now.items number }
{
    levels.get(number as usize)
}
