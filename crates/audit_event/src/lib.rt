//! Audit events: what a line of a log records, and which events of a log are kept (Kubernetes
//! "Auditing", `audit.k8s.io/v1`, Event).
#![tactic(auto)]

mod bodies;
mod decision;
mod event;
mod fault;
mod heading;
mod level;
mod members;
mod numbers;
mod reading;
mod seen;
mod status;
mod times;
mod user;

pub use event::{Body, Event, Events, Status};
pub use fault::{EventFault, Malformed, SeenFault};
pub use heading::is_of_kind;
pub use reading::{read_event, read_item, read_value};
pub use seen::{Seen, Sighting};
