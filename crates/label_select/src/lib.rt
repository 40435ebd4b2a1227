//! Label selectors: reading one, and which labels it takes (Kubernetes "Labels and Selectors").
#![tactic(auto)]

mod bytes;
mod matching;
mod reading;
mod selector;

pub use matching::matches;
pub use reading::read_selector;
pub use selector::{Requirement, Selector, SelectorFault, Test};
