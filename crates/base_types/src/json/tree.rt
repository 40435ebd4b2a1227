use crate::foundation::{OutOfMemory, Text};
use std::alloc::{AllocError, AllocFailed};
use std::marker::Model;
use thiserror::Error;

/// A JSON value (RFC 8259) whose numbers are whole. Contracts see it as a `Meaning`, so that `≡` of
/// trees is equality of JSON values.
#[cycle(tree)]
#[derive(Drop)]
pub struct Tree {
    pub node: Node,
}

/// One level of a tree.
#[cycle(tree)]
#[derive(Drop)]
pub enum Node {
    Null,
    Flag(bool),
    Whole(i128),
    Words(Text),
    Items(Trees),
    Members(MemberList),
}

/// The items of an array.
#[cycle(tree)]
#[derive(Drop)]
pub struct Trees {
    pub all: Vec<Tree>,
}

/// The members of an object, in the order of the bytes of their names, which are distinct.
#[cycle(tree)]
#[derive(Drop)]
pub struct MemberList {
    pub all: Vec<Member>,
}

/// One member of an object.
#[cycle(tree)]
#[derive(Drop)]
pub struct Member {
    pub name: Text,
    pub value: Tree,
}

impl Model for Tree {
    ghost use Rattle.base_types.specs.Meaning.{Meaning};
    ghost use Rattle.base_types.specs.Code.{coded_meaning};

    ghost Value = { Meaning };

    ghost coded = { coded_meaning };

    ghost use Rattle.base_types.specs.Size.{nodes};
    ghost use Rattle.base_types.specs.Node.{meaning_of};

    ghost view = { λ t. meaning_of t.node };

    ghost size = { nodes };
}

impl Model for Trees {
    ghost use Rattle.std.specs.Prelude.{List};
    ghost use Rattle.base_types.specs.Meaning.{Meaning, kids_of};
    ghost use Rattle.base_types.specs.Code.{coded_meaning};
    ghost use Rattle.std.specs.Coded.{coded_list};

    ghost Value = { List Meaning };

    ghost coded = { coded_list coded_meaning };

    ghost use Rattle.base_types.specs.Size.{kids_nodes};

    ghost view = { λ ts. ts.all.items };

    ghost size = { λ ts. kids_nodes (kids_of ts) };

    ghost use Rattle.std.proofs.Common.{arith};
    ghost use Rattle.base_types.specs.Size.{most_le-kids};

    ghost size_decreases = { λ a h. omega (arith, most_le-kids a.all.items) };
}

impl Model for MemberList {
    ghost use Rattle.std.specs.Prelude.{ℕ, List};
    ghost use Rattle.base_types.specs.Meaning.{Meaning, fields_of};
    ghost use Rattle.base_types.specs.Code.{coded_meaning, coded_bytes};
    ghost use Rattle.std.specs.Coded.{coded_list, coded×};

    ghost Value = { List (List ℕ × Meaning) };

    ghost coded = { coded_list (coded× coded_bytes coded_meaning) };

    ghost use Rattle.base_types.specs.Size.{fields_nodes};

    ghost view = { λ ms. ms.all.items };

    ghost use Rattle.base_types.specs.Names.{AreSorted};

    ghost invariant = { λ ms. AreSorted ms.all.items };

    ghost size = { λ ms. fields_nodes (fields_of ms) };

    ghost use Rattle.std.proofs.Common.{arith};
    ghost use Rattle.base_types.specs.Size.{most_le-fields};

    ghost size_decreases = { λ a h. omega (arith, most_le-fields a.all.items) };
}

impl Model for Member {
    ghost use Rattle.std.specs.Prelude.{ℕ, List, ◌+◌};
    ghost use Rattle.base_types.specs.Meaning.{Meaning};
    ghost use Rattle.base_types.specs.Code.{coded_meaning, coded_bytes};
    ghost use Rattle.std.specs.Coded.{coded×};

    ghost Value = { List ℕ × Meaning };

    ghost coded = { coded× coded_bytes coded_meaning };

    ghost use Rattle.base_types.specs.Size.{nodes};

    ghost view = { λ m. (m.name, m.value) };

    ghost size = { λ m. nodes m.1 + 1 };
}

/// Why a JSON value has no tree.
#[derive(Clone, Copy, Debug, PartialEq, Eq, Error)]
pub enum TreeFault {
    /// Some number isn't whole, or isn't in -2^63 to 2^64 - 1.
    #[error("a number isn't whole or not in range")]
    Fraction,
    #[error("out of memory")]
    OutOfMemory,
}

impl From<AllocError> for TreeFault {
    ghost use Rattle.base_types.specs.declared.json.tree.TreeFault.TheVariants.{OutOfMemory};
    ghost use Rattle.std.specs.Prelude.{◌≡◌};

    ghost from_gives = { λ _ fault. fault ≡ OutOfMemory };

    fn from(_: AllocError) -> TreeFault {
        TreeFault::OutOfMemory
    }
}

impl<T: Drop> From<AllocFailed<T>> for TreeFault {
    ghost use Rattle.base_types.specs.declared.json.tree.TreeFault.TheVariants.{OutOfMemory};
    ghost use Rattle.std.specs.Prelude.{◌≡◌};

    ghost from_gives = { λ _ fault. fault ≡ OutOfMemory };

    fn from(_: AllocFailed<T>) -> TreeFault {
        TreeFault::OutOfMemory
    }
}

impl From<OutOfMemory> for TreeFault {
    ghost use Rattle.base_types.specs.declared.json.tree.TreeFault.TheVariants.{OutOfMemory as Refused};
    ghost use Rattle.std.specs.Prelude.{◌≡◌};

    ghost from_gives = { λ _ fault. fault ≡ Refused };

    fn from(_: OutOfMemory) -> TreeFault {
        TreeFault::OutOfMemory
    }
}
