//! Hash tables over what strangers write. Their hashes begin with a secret, so that nobody can choose texts that all
//! fall into one place of a table.
#![tactic(auto)]

mod seed;

pub use seed::{Seed, Seeded};
