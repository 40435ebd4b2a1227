//! What an audit event says of the cluster: a write and its revision, a removal, a write that isn't recorded, what a
//! read saw, or nothing.
#![tactic(auto)]

mod answer;
mod bodies;
mod classes;
mod conditions;
mod covers;
mod labels;
mod lists;
mod patches;
mod reading;
mod refusing;
mod request;
mod times;
mod writing;

pub use answer::{Answer, Item, Items};
pub use bodies::metadata_at;
pub use classes::class_of;
pub use conditions::{Conditions, conditions_of};
pub use labels::listable;
pub use lists::one_at_most;
pub use request::{first_value, has_filled, is_completing};
pub use times::is_late;
