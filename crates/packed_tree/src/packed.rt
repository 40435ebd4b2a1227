ghost use Rattle.std.specs.Prelude.{◌≡◌, Some, None, Err, IfOk};
ghost use Rattle.serde_json.specs.View.{view};
ghost use Rattle.base_types.specs.Values.{of_data, InRange};
ghost use Rattle.borrowed_json.specs.View.{view as borrowed_view};
ghost use Rattle.packed_tree.specs.Decoding.{decode};
ghost use Rattle.packed_tree.specs.Sound.{IsPacked};

use crate::borrowed::push_borrowed;
use crate::packing::push_value;
use crate::reading::{PackedRef, reader};
use base_types::OutOfMemory;
use base_types::json::{Tree, TreeFault};
use borrowed_json::JsonValue;
use serde_json::Value;
use std::alloc::Global;
use std::marker::Model;

/// A JSON value (RFC 8259) whose numbers are whole, in one block of memory. Contracts see it as a
/// `Meaning`, as they do a `Tree`.
#[derive(Drop)]
pub struct Packed {
    bytes: Vec<u8>,
}

impl Model for Packed {
    ghost use Rattle.base_types.specs.Meaning.{Meaning};
    ghost use Rattle.base_types.specs.Code.{coded_meaning};
    ghost use Rattle.packed_tree.specs.Decoding.{decode};
    ghost use Rattle.packed_tree.specs.Sound.{IsPacked};

    ghost Value = { Meaning };

    ghost coded = { coded_meaning };

    ghost view = { λ p. decode p.bytes.items };

    ghost invariant = { λ p. IsPacked p.bytes.items };
}

// So many bytes are asked for at once: most objects are packed into fewer, and what is left is given back.
const ROOM: usize = 1024;

/// The packed form of a JSON value. As with `base_types::json::from_value`, numbers that `serde_json` reads as
/// floating point, as `1.0`, `-0` and `1e2`, are refused.
pub fn pack(alloc: Global, value: &Value) -> Result<Packed, TreeFault>
    ensures ok { IfOk result (λ packed. of_data (view value.now) ≡ Some packed) }
    ensures range { IfOk result InRange }
    ensures fraction { result ≡ Err TreeFault.Fraction → of_data (view value.now) ≡ None }
{
    let mut bytes = Vec::with_capacity(alloc, ROOM)?;
    push_value(&mut bytes, value)?;
    bytes.shrink_to_fit();
    Ok(Packed { bytes })
}

/// The packed form of a JSON value that borrows its texts.
pub fn pack_borrowed(alloc: Global, value: &JsonValue<'_>) -> Result<Packed, TreeFault>
    ensures ok { IfOk result (λ packed. of_data (borrowed_view value.now) ≡ Some packed) }
    ensures range { IfOk result InRange }
    ensures fraction { result ≡ Err TreeFault.Fraction → of_data (borrowed_view value.now) ≡ None }
{
    let mut bytes = Vec::with_capacity(alloc, ROOM)?;
    push_borrowed(&mut bytes, value)?;
    bytes.shrink_to_fit();
    Ok(Packed { bytes })
}

/// The value of these bytes.
pub(crate) fn packed_of(bytes: Vec<u8>) -> Packed
    requires { IsPacked bytes.items }
    ensures { result ≡ decode bytes.items }
{
    Packed { bytes }
}

impl Packed {
    /// The value, to be read in place.
    pub fn root(&self) -> PackedRef<'_>
        ensures { result ≡ self.now }
    {
        reader(self.bytes.as_slice())
    }

    /// The tree of this value.
    pub fn tree(&self, alloc: Global) -> Result<Tree, OutOfMemory>
        ensures { IfOk result (λ tree. tree ≡ self.now) }
    {
        self.root().tree(alloc)
    }

    /// The same value once more.
    pub fn copy(&self, alloc: Global) -> Result<Packed, OutOfMemory>
        ensures { IfOk result (λ packed. packed ≡ self.now) }
    {
        let bytes = Vec::from_slice(alloc, self.bytes.as_slice())?;
        Ok(Packed { bytes })
    }
}

/// Equal values have equal bytes, so these alone are compared.
impl PartialEq for Packed {
    ghost use Rattle.base_types.specs.Same.{same, same-equiv};
    ghost use Rattle.std.specs.Cmp.{partial_equiv_from_equiv};

    ghost eq = { same };

    ghost laws = { partial_equiv_from_equiv same-equiv };

    #[tactic(auto, using(crate::proofs::Sameness::same_bytes))]
    fn eq(&self, other: &Packed) -> bool {
        self.bytes == other.bytes
    }
}

impl Eq for Packed {
    ghost use Rattle.base_types.specs.Same.{same-equiv};

    ghost laws = { same-equiv };
}
