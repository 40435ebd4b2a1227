//! Worked audit events: what is read of a line, and which events of a log are kept.
#![tactic(auto)]

#[cfg(test)]
mod events_read;
#[cfg(test)]
mod events_seen;
#[cfg(test)]
mod given;
