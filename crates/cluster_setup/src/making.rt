ghost use Rattle.std.specs.Prelude.{◌≡◌, ◌<◌, ◌+◌, ℕ, None, All, OnOk, length, take, IfOk, IfErr, IfSome, IfNone};
ghost use Rattle.std.specs.Prelude.{string_bytes, is_some, true};
ghost use Rattle.std.specs.Result.{result_ok};
ghost use Rattle.audit_policy.specs.Forms.{policy_of};
ghost use Rattle.base_types.specs.Meaning.{Meaning};
ghost use Rattle.base_types.specs.Values.{InRange};
ghost use Rattle.timestamps.specs.Timestamps.{moment_of};
ghost use Rattle.setup_file.specs.Reading.{IsTreeOf};
ghost use Rattle.cluster_setup.specs.Answers.{IsTextOf, IsPolicy, IsSetupText, IsRefused, IsMade};
ghost use Rattle.cluster_setup.specs.Answers.{IsReadOut, IsUnread, Refuses, OrMemory};
ghost use Rattle.cluster_setup.specs.Shown.{IsBlamedFor, setup_from};
ghost use Rattle.cluster_setup.specs.Refusing.{AreTrees, IsFirstBroken, first_refused};
ghost use Rattle.cluster_setup.specs.Told.{Tells};

use crate::assembling::Given;
use crate::blaming::refuse;
use crate::fault::{FileFault, SetupRefusal};
use crate::files::start_word;
use crate::judging::{accept_shown, read_tree};
use crate::refusing::first_refused;
use audit_policy::{PolicyFault, read_policy};
use base_types::json::Tree;
use base_types::{Bytes, OutOfMemory};
use std::alloc::Global;
use timestamps::read_moment;

// The tree of a file behind as many others, which were JSON.
fn read_file(alloc: Global, file: &Bytes, before: usize) -> Result<Tree, SetupRefusal>
    requires { before < 18446744073709551615 }
    ensures read { IfOk result (IsTreeOf file.now) }
    ensures range { IfOk result InRange }
    ensures cause { IfErr result (OrMemory (λ refusal. (refusal ≡ SetupRefusal.File
        (before + 1) FileFault.Json) × ((tree : Meaning) → IsTreeOf file.now tree → ⊥))) }
{
    match read_tree(alloc, file.as_slice()) {
        Ok(found) => match found {
            Some(tree) => Ok(tree),
            None => {
                let number = before + 1;
                let code = FileFault::Json;
                Err(SetupRefusal::File { number, code })
            }
        },
        Err(_) => Err(SetupRefusal::OutOfMemory),
    }
}

// Reads the file behind those that were read.
fn add_file(
    alloc: Global,
    trees: &mut Vec<Tree>,
    files: &[Bytes],
    number: usize,
) -> Result<(), SetupRefusal>
    requires within { number < length files.now }
    requires read { AreTrees (take number files.now) trees.old.items }
    requires range { All InRange trees.old.items }
    ensures read { OnOk result (AreTrees (take (number + 1) files.now) trees.new.items) }
    ensures range { OnOk result (All InRange trees.new.items) }
    ensures cause { IfErr result (OrMemory (λ refusal. (at : ℕ) × IsFirstBroken files.now at
        × (refusal ≡ SetupRefusal.File at FileFault.Json))) }
{
    match read_file(alloc, &files[number], number) {
        Ok(tree) => {
            trees.push(tree)?;
            Ok(())
        }
        Err(refusal) => Err(refusal),
    }
}

// Reads the files, up to the first that isn't JSON.
fn read_files(alloc: Global, files: &[Bytes]) -> Result<Vec<Tree>, SetupRefusal>
    ensures read { IfOk result (λ trees. AreTrees files.now trees.items) }
    ensures range { IfOk result (λ trees. All InRange trees.items) }
    ensures cause { IfErr result (OrMemory (λ refusal. (at : ℕ) × IsFirstBroken files.now at
        × (refusal ≡ SetupRefusal.File at FileFault.Json))) }
{
    let mut trees = Vec::new(alloc);
    for number in 0..files.len() {
        add_file(alloc, &mut trees, files, number)?;
    }
    Ok(trees)
}

// Whether a tree is an audit policy.
fn is_policy(alloc: Global, tree: &Tree) -> Result<bool, OutOfMemory>
    ensures { IfOk result (λ is. is ≡ is_some (result_ok (policy_of tree.now))) }
{
    match read_policy(alloc, tree) {
        Ok(policy) => {
            drop(policy);
            Ok(true)
        }
        Err(PolicyFault::Form { .. }) => Ok(false),
        Err(PolicyFault::OutOfMemory) => Err(OutOfMemory),
    }
}

// Reads an audit policy.
fn policy_of(alloc: Global, bytes: &[u8]) -> Result<Option<Tree>, OutOfMemory>
    ensures some { IfOk result (λ found. IfSome found (IsPolicy bytes.now)) }
    ensures none { IfOk result (λ found.
        IfNone found ((tree : Meaning) → IsPolicy bytes.now tree → ⊥)) }
    ensures range { IfOk result (λ found. IfSome found InRange) }
{
    let Some(tree) = read_tree(alloc, bytes)? else {
        return Ok(None);
    };
    let Ok(is) = is_policy(alloc, &tree) else {
        drop(tree);
        return Err(OutOfMemory);
    };
    if is {
        Ok(Some(tree))
    } else {
        drop(tree);
        Ok(None)
    }
}

// The setup of all files, or the first file with which it breaks a rule.
fn judged(alloc: Global, given: Given<'_>) -> Result<String, SetupRefusal>
    requires policy { InRange given.policy.now }
    requires trees { All InRange given.trees.now }
    ensures made { IfOk result (λ text.
        IsTextOf (setup_from given.entry given.entry.trees.now) (string_bytes text)) }
    ensures cause { IfErr result (OrMemory (IsBlamedFor given.entry)) }
{
    match accept_shown(alloc, given, given.trees) {
        Ok(text) => Ok(text),
        Err(fault) => Err(refuse(alloc, given, fault)),
    }
}

// The setup of files of which each is right by itself.
fn begun(
    alloc: Global,
    time: &str,
    policy: &Tree,
    trees: &[Tree],
    authorize: bool,
) -> Result<String, SetupRefusal>
    requires policy { InRange policy.now }
    requires trees { All InRange trees.now }
    requires sound { first_refused trees.now trees.now ≡ None }
    ensures made { IfOk result (λ text.
        IsSetupText time.now policy.now trees.now authorize (string_bytes text)) }
    ensures cause { IfErr result (OrMemory (IsRefused time.now policy.now trees.now authorize)) }
{
    match start_word(trees) {
        Some(revision) => judged(
            alloc,
            Given {
                revision,
                time,
                policy,
                trees,
                authorize,
            },
        ),
        None => Err(SetupRefusal::Empty),
    }
}

// The setup of a policy and files that could be read.
fn setup_of(
    alloc: Global,
    time: &str,
    policy: &Tree,
    trees: &[Tree],
    authorize: bool,
) -> Result<String, SetupRefusal>
    requires policy { InRange policy.now }
    requires trees { All InRange trees.now }
    ensures made { IfOk result (λ text.
        IsSetupText time.now policy.now trees.now authorize (string_bytes text)) }
    ensures cause { IfErr result (OrMemory (IsRefused time.now policy.now trees.now authorize)) }
{
    match first_refused(alloc, trees) {
        Ok(found) => match found {
            Some(refusal) => Err(refusal),
            None => begun(alloc, time, policy, trees, authorize),
        },
        Err(_) => Err(SetupRefusal::OutOfMemory),
    }
}

// The setup of files that could be read, as one of the bytes given.
fn read_out(
    alloc: Global,
    time: &str,
    policy: &Tree,
    files: &[Bytes],
    authorize: bool,
) -> Result<String, SetupRefusal>
    requires { InRange policy.now }
    ensures made { IfOk result (λ text.
        IsReadOut time.now policy.now files.now authorize (string_bytes text)) }
    ensures cause { IfErr result (OrMemory (IsUnread time.now policy.now files.now authorize)) }
{
    match read_files(alloc, files) {
        Ok(trees) => setup_of(alloc, time, policy, trees.as_slice(), authorize),
        Err(refusal) => Err(refusal),
    }
}

// The setup of a time that is right.
fn governed(
    alloc: Global,
    time: &str,
    policy: &[u8],
    files: &[Bytes],
    authorize: bool,
) -> Result<String, SetupRefusal>
    requires { is_some (moment_of time.now) ≡ true }
    ensures made { IfOk result (λ text.
        IsMade time.now policy.now files.now authorize (string_bytes text)) }
    ensures cause { IfErr result (OrMemory (Refuses time.now policy.now files.now authorize)) }
{
    match policy_of(alloc, policy) {
        Ok(found) => match found {
            Some(tree) => {
                let made = read_out(alloc, time, &tree, files, authorize);
                drop(tree);
                made
            }
            None => Err(SetupRefusal::Policy),
        },
        Err(_) => Err(SetupRefusal::OutOfMemory),
    }
}

/// Makes the text of a setup that begins at the revision of the lists given and at this time, a timestamp. It is one
/// line, and ends with its newline.
/// `policy` is the API server's audit policy as JSON. Each file is an `APIResourceList` or a whole list of objects, as
/// `kubectl get --raw` gives them; the setup tracks the resources of the lists, whose objects are its snapshot in the
/// order of files and items. With `authorize` recorded decisions are judged.
pub fn make_setup(
    alloc: Global,
    time: &str,
    policy: &[u8],
    files: &[Bytes],
    authorize: bool,
) -> Result<String, SetupRefusal>
    ensures made { IfOk result (λ text.
        IsMade time.now policy.now files.now authorize (string_bytes text)) }
    ensures told { IfOk result (λ text.
        Tells time.now policy.now files.now authorize (string_bytes text)) }
    ensures cause { IfErr result (OrMemory (Refuses time.now policy.now files.now authorize)) }
{
    match read_moment(time) {
        Some(_) => governed(alloc, time, policy, files, authorize),
        None => Err(SetupRefusal::Time),
    }
}
