//! The page of an event that no placement explains: what it asked and was answered, its window with the writes there,
//! and what an answer would have been.
#![tactic(auto)]

mod caches;
mod finding;
mod heading;
mod hiding;
mod lasting;
mod limits;
mod looking;
mod marks;
mod objects;
mod page;
mod places;
mod request;
mod rows;
mod segments;
mod showing;
mod times;

pub use finding::Finding;
pub use page::finding_page;
