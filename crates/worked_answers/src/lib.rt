//! Worked setups, requests and answers: what is read of them.
#![tactic(auto)]

#[cfg(test)]
mod answer_class_rows;
#[cfg(test)]
mod given;
#[cfg(test)]
mod label_select_rows;
#[cfg(test)]
mod page_chains_rows;
#[cfg(test)]
mod request_bodies_rows;
#[cfg(test)]
mod setup_file_rows;
