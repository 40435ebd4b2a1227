//! A setup made of what an API server tells: which resources it has, and which objects there are at one revision.
#![tactic(auto)]

mod answering;
mod assembling;
mod blaming;
mod building;
mod documents;
mod entries;
mod fault;
mod files;
mod finding;
mod gathering;
mod judging;
mod law;
mod making;
mod objects;
mod refusing;
mod shapes;
mod sources;
mod table;
mod telling;
mod words;

pub use answering::{MadeText, make_named};
pub use fault::{FileFault, SetupRefusal};
pub use law::one_setup_answer_law;
pub use making::make_setup;
pub use telling::refusal_words;
