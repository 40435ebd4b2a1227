//! Worked logs by hand: what is found of their events, and their claims.
#![tactic(auto)]

#[cfg(test)]
mod clouds_rows;
#[cfg(test)]
mod event_claims_rows;
#[cfg(test)]
mod parts;
#[cfg(test)]
mod past_building_rows;
#[cfg(test)]
mod write_groups_rows;
