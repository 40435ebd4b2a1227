//! The past of each object: its versions, cut into incarnations, and the removals that ended these.
#![tactic(auto)]

mod ending;
mod entry;
mod filing;
mod found;
mod incarnation;
mod lacking;
mod past;
mod removal;
mod scope;
mod version;

pub use incarnation::Incarnation;
pub use lacking::{keys_in_order, keys_without};
pub use past::Past;
pub use removal::{Removal, Removals, removal_at};
pub use version::{Maker, Version, Versions};
