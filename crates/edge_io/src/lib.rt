//! The program's edge: desks that bytes are read from and sinks that they are written to.
#![tactic(auto)]

mod edge;
mod files;
mod memory;
mod system;
mod whole;
mod writing;

pub use edge::{Desk, DeskFailed, Sink, SinkFailed};
pub use files::{InputFile, InputFiles};
pub use memory::{MemoryDesk, MemorySink, SINK_ROOM, SteadyDesk};
pub use system::{FileDesk, STANDARD_INPUT, StdSink};
pub use whole::{WholeStop, piece_buffer, read_whole};
pub use writing::{end_with, write_whole};
