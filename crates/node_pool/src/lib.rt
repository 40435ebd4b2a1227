//! A pool of JSON values in which each value stands once, under a number. Values that share parts share their
//! numbers, so a history of many nearly equal objects takes little more memory than what changed.
#![tactic(auto)]

mod comparing;
mod fault;
mod form;
mod growing;
mod guesses;
mod interner;
mod interning;
mod near;
mod pointing;
mod pool;
mod rebuilding;
mod store;

pub use fault::PoolFault;
pub use interner::Interner;
pub use pool::Pool;
