//! The events of lines, each of which may be an EventList, decoded by all processors at once
//! (Kubernetes "Auditing", "Webhook backend").
#![tactic(auto)]

mod batch;
mod decoded;
mod law;
mod line;

pub use batch::decode_all;
pub use decoded::{Decoded, DecodedList, ItemFault};
pub use law::one_decoding_law;
pub use line::decode_line;
