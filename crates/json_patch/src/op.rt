ghost use Rattle.std.specs.Prelude.{◌≡◌, ◌≤◌, length};

use base_types::json::{Pointer, Tree};
use std::marker::Model;

/// One operation of a JSON Patch (RFC 6902 section 4).
#[derive(Drop)]
pub enum Op {
    Add { path: Pointer, value: Tree },
    Remove { path: Pointer },
    Replace { path: Pointer, value: Tree },
    Move { from: Pointer, path: Pointer },
    Copy { from: Pointer, path: Pointer },
    Test { path: Pointer, value: Tree },
}

/// The operations of a patch in order, at most 10,000.
#[derive(Drop)]
pub struct Patch {
    ops: Vec<Op>,
}

impl Model for Patch {
    ghost use Rattle.std.specs.Prelude.{List, ◌≤◌, length};
    ghost use Rattle.json_patch.specs.declared.op.Op.{Op};
    ghost use Rattle.json_patch.specs.contracts.op.Op as the_op;
    ghost use Rattle.std.specs.Coded.{coded_list};

    ghost Value = { List Op };

    ghost coded = { coded_list the_op.the_row.coded };

    ghost view = { λ p. p.ops.items };

    ghost invariant = { λ p. length p.ops.items ≤ 10_000 };
}

impl Patch {
    pub fn new(ops: Vec<Op>) -> Patch
        requires { length ops.items ≤ 10_000 }
        ensures { result ≡ ops.items }
    {
        Patch { ops }
    }

    pub fn as_slice(&self) -> &[Op]
        ensures ops { result.now ≡ self.now }
        ensures count { length self.now ≤ 10_000 }
    {
        self.ops.as_slice()
    }
}
