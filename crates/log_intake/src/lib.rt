//! SETUP and LOG, read from a desk: the setup as a whole, and the log in batches of lines that all processors
//! decode at once.
#![tactic(auto)]

mod batch;
mod keeping;
mod law;
mod log;
mod setup;
mod stop;

pub use law::{one_reading_law, one_setup_law};
pub use log::read_log;
pub use setup::{SetupRead, read_setup_named};
pub use stop::{LogStop, SetupStop};
