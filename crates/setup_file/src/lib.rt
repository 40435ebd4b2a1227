//! The setup: what an auditor says of a cluster before its log is judged.
#![tactic(auto)]

mod authorization;
mod checkpoints;
mod clocks;
mod distinct;
mod fault;
mod form;
mod lists;
mod objects;
mod reading;
mod requests;
mod resources;
mod setup;
mod snapshot;
mod subresources;
mod tracked_list;
mod values;

pub use fault::{SetupFault, SetupRule};
pub use lists::{ListRead, read_list};
pub use objects::read_object;
pub use reading::read_setup;
pub use requests::{is_merge_patch, subresource_named, tracked_of};
pub use setup::{
    Checkpoint, Checkpoints, Setup, Snapshot, SnapshotObject, Subresource, Subresources, Tracked,
};
pub use tracked_list::TrackedList;
