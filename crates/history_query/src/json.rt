ghost use Rattle.std.specs.Prelude.{◌≡◌, ◌≤◌, ◌<◌, ◌++◌, All, length, Some, IfOk, OnOk, string_bytes};
ghost use Rattle.base_types.specs.Values.{InRange, data_of};
ghost use Rattle.serde_json.specs.Data.{depth};
ghost use Rattle.serde_json.specs.Read.{max_depth, read};
ghost use Rattle.history_query.specs.Telling.{json_at, json_text};
ghost use Rattle.verdict_text.specs.Words.{ended};

use base_types::OutOfMemory;
use base_types::json::{Tree, to_value};
use node_number::NodeId;
use node_pool::Pool;
use std::alloc::Global;

// The compact JSON text of a tree. Read again it is that tree, where it isn't deeper than JSON that is read.
#[tactic(auto, using(crate::proofs::Floating::has_no_float))]
fn print(alloc: Global, tree: &Tree) -> Result<String, OutOfMemory>
    requires { InRange tree.now }
    ensures text { IfOk result (λ text. string_bytes text ≡ json_text tree.now) }
    ensures reads_back { IfOk result (λ text. depth (data_of tree.now) ≤ max_depth
        → read (string_bytes text) ≡ Some (data_of tree.now)) }
{
    let value = to_value(alloc, tree)?;
    let text = value.to_string(alloc);
    drop(value);
    Ok(text?)
}

// That of the tree of a number.
fn print_at(alloc: Global, pool: &Pool, node: NodeId) -> Result<String, OutOfMemory>
    requires within { node.0 < length pool.now.trees }
    requires numbers { All InRange pool.now.trees }
    ensures { IfOk result (λ text. string_bytes text ≡ json_at pool.now.trees node.0) }
{
    let tree = pool.tree(node)?;
    print(alloc, &tree)
}

/// Appends the compact JSON text of the tree of a number, and ends the line.
pub fn append_json(
    alloc: Global,
    text: &mut String,
    pool: &Pool,
    node: NodeId,
) -> Result<(), OutOfMemory>
    requires within { node.0 < length pool.now.trees }
    requires numbers { All InRange pool.now.trees }
    ensures { OnOk result (string_bytes text.new ≡ string_bytes text.old
        ++ ended (json_at pool.now.trees node.0)) }
{
    let printed = print_at(alloc, pool, node)?;
    let wrote = writeln!(text, "{}", printed.as_str());
    drop(printed);
    Ok(wrote?)
}
