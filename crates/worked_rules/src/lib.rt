//! Worked policies, roles, bindings and requests.
#![tactic(auto)]

#[cfg(test)]
mod attributes;
#[cfg(test)]
mod given;
#[cfg(test)]
mod grants;
#[cfg(test)]
mod policies_read;
#[cfg(test)]
mod policy_levels;
#[cfg(test)]
mod roles_read;
#[cfg(test)]
mod several_ends;
#[cfg(test)]
mod subjects;
#[cfg(test)]
mod timelines;
