//! JSON values that borrow their texts from the text that they are read from.
#![tactic(auto)]

mod fault;
mod number;
mod reading;
mod value;

pub use fault::ReadFault;
pub use json::Scratch;
pub use value::{JsonValue, Map};
