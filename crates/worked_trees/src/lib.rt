//! Worked values: what is done with trees of JSON values, their patches and their shapes.
#![tactic(auto)]

#[cfg(test)]
mod borrowed_values;
#[cfg(test)]
mod json_patch_limits;
#[cfg(test)]
mod json_patch_lists;
#[cfg(test)]
mod json_patch_members;
#[cfg(test)]
mod json_patch_refusals;
#[cfg(test)]
mod json_patch_rows;
#[cfg(test)]
mod json_rows;
#[cfg(test)]
mod merge_patch_rows;
#[cfg(test)]
mod node_pool_rows;
#[cfg(test)]
mod packed_tree_rows;
#[cfg(test)]
mod patching;
#[cfg(test)]
mod path_shape_rows;
#[cfg(test)]
mod reading;
