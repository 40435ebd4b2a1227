//! JSON values packed into one block of bytes each, to be read in place.
#![tactic(auto)]

mod borrowed;
mod building;
mod framing;
mod packed;
mod packing;
mod pushing;
mod reading;
mod scalars;
mod storing;

pub use packed::{Packed, pack, pack_borrowed};
pub use reading::{PackedItems, PackedMembers, PackedRef, Shown};
