//! Worked lines and logs: what is decoded of lines, what is read of logs and setups, and which lines of a log stay.
#![tactic(auto)]

#[cfg(test)]
mod batch_decode_rows;
#[cfg(test)]
mod decoded_batches;
#[cfg(test)]
mod gates;
#[cfg(test)]
mod given;
#[cfg(test)]
mod judged_claims;
#[cfg(test)]
mod log_intake_rows;
#[cfg(test)]
mod log_sift_rows;
#[cfg(test)]
mod placed_lines;
