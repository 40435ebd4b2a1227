use base_types::json::Pointer;
use base_types::{Listed, OutOfMemory};
use thiserror::Error;

/// What the API server does with a field that a write asks for.
#[derive(Clone, Copy, Drop, PartialEq, Eq)]
pub enum FieldClass {
    /// The answer has what was asked.
    Asked,
    /// The answer has what was asked, and may have more.
    Defaulted,
    /// The server sets it, whatever was asked.
    Owned,
    /// The answer has what the old object had.
    Kept,
}

/// The fields of a resource's objects by their paths, in the order of the setup.
#[derive(Drop, PartialEq, Eq)]
pub struct Shape {
    /// The class of each field that no entry and no built-in pattern matches.
    pub root: FieldClass,
    pub entries: ShapeEntries,
}

pub type ShapeEntries = Listed<ShapeEntry>;

/// The class of the fields at and under a path, in which the token `*` stands for any one token.
#[derive(Drop, PartialEq, Eq)]
pub struct ShapeEntry {
    pub path: Pointer,
    pub class: FieldClass,
}

/// Why a tree is no list of entries.
#[derive(Clone, Copy, Debug, PartialEq, Eq, Error)]
pub enum ShapeFault {
    #[error("not a list")]
    NotList,
    /// The first entry that isn't an object of a `path`, a JSON Pointer, and a `class`, counted from 0.
    #[error("entry {index} isn't in its form")]
    Entry { index: u32 },
    #[error("out of memory")]
    OutOfMemory,
}

impl From<OutOfMemory> for ShapeFault {
    ghost use Rattle.path_shape.specs.declared.shape.ShapeFault.TheVariants.{OutOfMemory as Refused};
    ghost use Rattle.std.specs.Prelude.{◌≡◌};

    ghost from_gives = { λ _ fault. fault ≡ Refused };

    fn from(_: OutOfMemory) -> ShapeFault {
        ShapeFault::OutOfMemory
    }
}
