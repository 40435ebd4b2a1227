//! When the object that a write answers agrees with what it asked for: field by field, by patterns of paths.
#![tactic(auto)]

mod agreement;
mod holding;
mod kind;
mod live;
mod part;
mod reading;
mod sameness;
mod shape;
mod spot;
mod walk;

pub use agreement::{agrees, keeps};
pub use shape::{FieldClass, Shape, ShapeEntries, ShapeEntry, ShapeFault};
