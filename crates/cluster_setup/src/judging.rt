ghost use Rattle.std.specs.Prelude.{◌≡◌, ◌↔◌, Err, All, IfOk, IfSome, IfNone, IsTrue, string_bytes};
ghost use Rattle.base_types.specs.Meaning.{Meaning};
ghost use Rattle.base_types.specs.Values.{InRange};
ghost use Rattle.setup_file.specs.Reading.{IsTreeOf};
ghost use Rattle.setup_file.specs.declared.fault.SetupRule.{SetupRule as AnyRule};
ghost use Rattle.setup_file.specs.declared.fault.SetupFault.TheVariants.{Rule};
ghost use Rattle.cluster_setup.specs.Answers.{json_line, IsAccepted, IsTextOf, Breaks};
ghost use Rattle.cluster_setup.specs.Shown.{setup_from};

use crate::assembling::{Given, setup_tree};
use crate::telling::line_of;
use base_types::OutOfMemory;
use base_types::json::{Tree, TreeFault, equal, from_value, to_value};
use hash_seed::Seed;
use serde_json::Value;
use setup_file::{SetupFault, SetupRule, read_setup};
use std::alloc::Global;

/// The tree of a JSON text whose numbers are whole.
pub fn read_tree(alloc: Global, bytes: &[u8]) -> Result<Option<Tree>, OutOfMemory>
    ensures some { IfOk result (λ found. IfSome found (IsTreeOf bytes.now)) }
    ensures none { IfOk result (λ found.
        IfNone found ((tree : Meaning) → IsTreeOf bytes.now tree → ⊥)) }
    ensures range { IfOk result (λ found. IfSome found InRange) }
{
    let value = match Value::from_slice(alloc, bytes) {
        Ok(value) => value,
        Err(fault) if fault.is_memory() => return Err(OutOfMemory),
        Err(_) => return Ok(None),
    };
    let found = from_value(alloc, &value);
    drop(value);
    match found {
        Ok(tree) => Ok(Some(tree)),
        Err(TreeFault::Fraction) => Ok(None),
        Err(TreeFault::OutOfMemory) => Err(OutOfMemory),
    }
}

// Whether bytes are the JSON text of a tree.
fn is_tree_of(alloc: Global, bytes: &[u8], tree: &Tree) -> Result<bool, OutOfMemory>
    ensures { IfOk result (λ is. IsTrue is ↔ IsTreeOf bytes.now tree.now) }
{
    match read_tree(alloc, bytes)? {
        Some(found) => {
            let is = equal(&found, tree);
            drop(found);
            Ok(is)
        }
        None => Ok(false),
    }
}

// The compact JSON text of a tree, as a line.
#[tactic(auto, using(crate::proofs::NoFloats::has_no_float))]
fn print(alloc: Global, tree: &Tree) -> Result<String, OutOfMemory>
    requires { InRange tree.now }
    ensures { IfOk result (λ text. string_bytes text ≡ json_line tree.now) }
{
    let value = to_value(alloc, tree)?;
    let text = value.to_string(alloc);
    drop(value);
    line_of(text?)
}

// The line of a setup's tree, or the rule that it breaks. It is read again as it stands, with its newline.
fn accept(alloc: Global, tree: &Tree) -> Result<String, SetupFault>
    requires { InRange tree.now }
    ensures text { IfOk result (λ text. string_bytes text ≡ json_line tree.now) }
    ensures accepted { IfOk result (λ text. IsAccepted tree.now) }
    ensures broken { (rule : AnyRule) → result ≡ Err (Rule rule) → Breaks tree.now rule }
{
    let text = print(alloc, tree)?;
    if !is_tree_of(alloc, text.as_bytes(), tree)? {
        return Err(SetupFault::Rule(SetupRule::S1));
    }
    match read_setup(alloc, text.as_bytes(), Seed::of(text.as_bytes())) {
        Ok(setup) => {
            drop(setup);
            Ok(text)
        }
        Err(fault) => Err(fault),
    }
}

/// The line of the setup with the objects of some files, or the rule that it breaks.
pub fn accept_shown<'a>(
    alloc: Global,
    given: Given<'a>,
    shown: &'a [Tree],
) -> Result<String, SetupFault>
    requires policy { InRange given.policy.now }
    requires trees { All InRange given.trees.now }
    requires shown { All InRange shown.now }
    ensures text { IfOk result (λ text.
        IsTextOf (setup_from given.entry shown.now) (string_bytes text)) }
    ensures broken { (rule : AnyRule) → result ≡ Err (Rule rule)
        → Breaks (setup_from given.entry shown.now) rule }
{
    let tree = setup_tree(alloc, given, shown)?;
    let accepted = accept(alloc, &tree);
    drop(tree);
    accepted
}
