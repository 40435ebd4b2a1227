//! Worked values: texts of keys, covers, patterns and revisions, and what the smallest crates make of them.
#![tactic(auto)]

#[cfg(test)]
mod case_rows;
#[cfg(test)]
mod cover_rows;
#[cfg(test)]
mod given;
#[cfg(test)]
mod key_rows;
#[cfg(test)]
mod matching_rows;
#[cfg(test)]
mod moment_rows;
#[cfg(test)]
mod placed_rows;
#[cfg(test)]
mod printed_rows;
#[cfg(test)]
mod revision_rows;
#[cfg(test)]
mod settled_rows;
#[cfg(test)]
mod window_rows;
